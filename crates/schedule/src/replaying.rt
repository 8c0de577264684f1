// The replay of a schedule.
ghost use Rattle.std.specs.Prelude.{◌≡◌, ◌≢◌, ◌<◌, ◌≤◌, ◌+◌, ◌^◌, ◌++◌, ◌∷◌, [], List as Seq, Some, None, length, IfOk, OnOk};
ghost use Rattle.armus_base.specs.CheckedPlans.{IsCheckedPlan};
ghost use Rattle.armus_base.specs.DeadLists.{IsDeadList};
ghost use Rattle.armus_base.specs.Runs.{state_after};
ghost use Rattle.armus_base.specs.States.{Step};
ghost use Rattle.armus_base.specs.calls.Statuses.{IsInOrder};
ghost use Rattle.schedule.specs.inside.Following.{IsAt};
ghost use Rattle.schedule.specs.inside.OpenPasses.{IsPassOf};
ghost use Rattle.schedule.specs.Passes.{PassLoads, loads_of};
ghost use Rattle.schedule.specs.Replays.{Progress, at_start};
ghost use Rattle.schedule.specs.Replaying.{AreDeadIn};
ghost use Rattle.schedule.specs.calls.Replaying.{Replays};
ghost use Rattle.schedule.specs.inside.KeptReplays.{HasOpenPass, KeepsProgress, TakesLine, end_at_line};

use crate::Line;
use crate::pass::OpenPass;
use crate::verdict::{
    NO_FORM, NO_OPEN_PASS, NO_TASK, NOT_ENABLED, PASS_IS_OPEN, PassVerdict, ReplayEnd, Replayed,
    ScheduleFault,
};
use adaptive::dead_of;
use armus_base::{List, NoMemory, Plan, Status, TaskId};
use pl_core::World;
use std::alloc::Global;

/// Why a line was not taken: a fault of this kind, or want of memory.
#[derive(Clone, Copy, Debug, PartialEq, Eq)]
pub(crate) enum LineEnd {
    Fault(u8),
    NoMemory,
}

impl From<NoMemory> for LineEnd {
    ghost use Rattle.schedule.specs.declared.replaying.LineEnd.TheVariants as ends;

    ghost from_gives = { λ _ e. e ≡ ends.NoMemory };

    fn from(_: NoMemory) -> Self {
        LineEnd::NoMemory
    }
}

/// How far a replay has come.
#[derive(Drop)]
pub(crate) struct Replaying<'p> {
    pub(crate) world: World<'p>,
    pub(crate) pass: Option<OpenPass>,
    pub(crate) verdicts: List<PassVerdict>,
    pub(crate) steps: u32,
}

// Makes the next load of a pass.
fn load_next(
    alloc: Global,
    world: &World<'_>,
    plan: &Plan,
    pass: &mut OpenPass,
) -> Result<(), NoMemory>
    requires plan { plan.now ≡ world.now.plan }
    requires open { HasOpenPass plan.now pass.old }
    ensures loaded { OnOk result ((loads : PassLoads) (h : Seq Step) → IsAt world.now h → IsPassOf plan.now loads pass.old → IsPassOf plan.now (loads ++ h ∷ []) pass.new) }
{
    if pass.loaded < plan.tasks() {
        pass.load_await(alloc, world, plan)
    } else {
        pass.load_phase(alloc, world)
    }
}

impl<'p> Replaying<'p> {
    // No line is taken.
    fn start(alloc: Global, plan: &'p Plan) -> Result<Replaying<'p>, NoMemory>
        requires checked { IsCheckedPlan plan.now }
        ensures start { IfOk result (KeepsProgress plan.now at_start) }
    {
        Ok(Replaying {
            world: World::start(alloc, plan)?,
            pass: None,
            verdicts: List::new(alloc),
            steps: 0,
        })
    }

    // Makes the step of this task.
    fn step(&mut self, plan: &Plan, t: TaskId) -> Result<(), LineEnd>
        requires fits { self.old.steps + 1 < 2 ^ 32 }
        requires kept { (a : Progress) × KeepsProgress plan.now a self.old }
        ensures taken { (a : Progress) → KeepsProgress plan.now a self.old → TakesLine plan.now a (Line.Step t.0) self.new result }
    {
        if t.0 >= plan.tasks() {
            return Err(LineEnd::Fault(NO_TASK));
        }
        if !self.world.enabled(t) {
            return Err(LineEnd::Fault(NOT_ENABLED));
        }
        self.world.step(t);
        self.steps += 1;
        Ok(())
    }

    // Opens a pass.
    fn open(&mut self, alloc: Global, plan: &Plan) -> Result<(), LineEnd>
        ensures taken { (a : Progress) → KeepsProgress plan.now a self.old → TakesLine plan.now a Line.Pass self.new result }
    {
        if self.pass.is_some() {
            return Err(LineEnd::Fault(PASS_IS_OPEN));
        }
        self.pass = Some(OpenPass::new(alloc));
        Ok(())
    }

    // Makes the next load of the pass that is open; its last load closes it.
    fn load_of(&mut self, alloc: Global, plan: &Plan, mut pass: OpenPass) -> Result<(), LineEnd>
        requires closed { self.old.pass ≡ None }
        requires kept { (a : Progress) × KeepsProgress plan.now a (record self.old { pass = Some pass }) }
        ensures taken { (a : Progress) → KeepsProgress plan.now a (record self.old { pass = Some pass }) → TakesLine plan.now a Line.Load self.new result }
    {
        load_next(alloc, &self.world, plan, &mut pass)?;
        if pass.is_full(plan.tasks()) {
            let list = pass.into_statuses();
            let dead = dead_of(alloc, list.as_slice())?;
            self.verdicts.push(PassVerdict { dead })?;
        } else {
            self.pass = Some(pass);
        }
        Ok(())
    }

    // Makes the next load of the open pass, if one is open.
    fn load(&mut self, alloc: Global, plan: &Plan) -> Result<(), LineEnd>
        requires kept { (a : Progress) × KeepsProgress plan.now a self.old }
        ensures taken { (a : Progress) → KeepsProgress plan.now a self.old → TakesLine plan.now a Line.Load self.new result }
    {
        match self.pass.take() {
            Some(pass) => self.load_of(alloc, plan, pass),
            None => Err(LineEnd::Fault(NO_OPEN_PASS)),
        }
    }

    // Takes a line.
    fn take(&mut self, alloc: Global, plan: &Plan, line: Line) -> Result<(), LineEnd>
        requires fits { self.old.steps + 1 < 2 ^ 32 }
        requires kept { (a : Progress) × KeepsProgress plan.now a self.old }
        ensures taken { (a : Progress) → KeepsProgress plan.now a self.old → TakesLine plan.now a line self.new result }
    {
        match line {
            Line::Step(t) => self.step(plan, TaskId(t)),
            Line::Pass => self.open(alloc, plan),
            Line::Load => self.load(alloc, plan),
            Line::Unreadable => Err(LineEnd::Fault(NO_FORM)),
        }
    }
}

// The tasks that are dead in the state of a world.
fn dead_in(alloc: Global, world: &World<'_>) -> Result<List<TaskId>, NoMemory>
    requires checked { IsCheckedPlan world.now.plan }
    ensures dead { IfOk result (λ dead. (h : Seq Step) → IsAt world.now h → AreDeadIn (state_after h) dead) }
{
    let list = world.statuses(alloc)?;
    dead_of(alloc, list.as_slice())
}

// The end of a replay at the line with this number.
fn end_at(end: LineEnd, line: u32) -> ReplayEnd
    ensures { result ≡ end_at_line end line }
{
    match end {
        LineEnd::Fault(kind) => ReplayEnd::Schedule(ScheduleFault { line, kind }),
        LineEnd::NoMemory => ReplayEnd::NoMemory,
    }
}

/// Replays a schedule: its lines act, in order, on a plain run of the plan and on at most one open pass, which judges by the cells that it loaded
/// alone. Schedule comes exactly where a line is at fault, with the first such line; a pass that is still open at the end gives no verdict.
pub fn replay(alloc: Global, plan: &Plan, lines: &[Line]) -> Result<Replayed, ReplayEnd>
    requires few { length lines.now < 2 ^ 32 }
    ensures replays { Replays plan.now lines.now result }
{
    // so that the proof knows of the plan that it is checked
    let _tasks = plan.tasks();
    let mut replay = Replaying::start(alloc, plan)?;
    for (at, line) in lines.iter().enumerate() {
        match replay.take(alloc, plan, *line) {
            Ok(()) => {}
            Err(end) => return Err(end_at(end, at as u32 + 1)),
        }
    }
    let dead = dead_in(alloc, &replay.world)?;
    Ok(Replayed {
        verdicts: replay.verdicts,
        steps: replay.steps,
        dead,
    })
}
