// A run, step by step.
ghost use Rattle.std.specs.Prelude.{◌≡◌, ◌∷◌, ◌+◌, ◌-◌, ◌<◌, ◌≤◌, ◌^◌, ◌++◌, ℕ, List as Seq, IfOk, IfSome, OnOk, Ok, length, true, false};
ghost use Rattle.armus_base.specs.States.{Step};
ghost use Rattle.pl_core.specs.calls.Moves.{IsWorldStep};
ghost use Rattle.pl_core.specs.calls.Stands.{IsEnabled};
ghost use Rattle.explain_facts.specs.calls.Known.{AreKnownFacts};
ghost use Rattle.run_queue.specs.calls.RunQueues.{HasTurnLeft, IsRunQueue};
ghost use Rattle.explain_steps.specs.ShownSteps.{most_shown, more_steps_line};
ghost use Rattle.explain_steps.specs.calls.SteppedRuns.{HasNextLine, IsRunBy, IsSteppedRun};
ghost use Rattle.explain_steps.specs.inside.LeastEnabled.{IsLeastEnabled};
ghost use Rattle.explain_steps.specs.inside.SoFar.{IsSoFar};

use crate::telling::TellsSteps;
use armus_base::{Final, List, NoMemory, Plan, TaskId, put_number, put_words};
use explain_facts::TextFacts;
use pl_core::World;
use run_queue::{RunQueue, step_kind};
use std::alloc::Global;

/// How many steps are shown at most.
pub const MOST_SHOWN: u32 = 10_000;

/// A run that was made step by step.
#[derive(Drop)]
pub struct SteppedRun<'p> {
    /// A line for each step that is shown, and one for the rest.
    pub lines: List<u8>,
    /// The world in which the run ends.
    pub world: World<'p>,
    /// The value of its state.
    pub end: Final,
}

// The task with the least number that may go on: none where no task may. Those that may not, and had a turn, have none then.
fn least_enabled(world: &World<'_>, queue: &mut RunQueue) -> Result<Option<TaskId>, NoMemory>
    requires queue { IsRunQueue world.now world.now queue.old }
    ensures least { IfOk result (IsLeastEnabled world.now) }
    ensures turn { IfOk result (λ found. IfSome found (λ t. HasTurnLeft queue.new t.0)) }
    ensures queue { OnOk result (IsRunQueue world.now world.now queue.new) }
{
    // the plan is checked
    let _plan = world.plan();
    let mut from = 0;
    'ready: while let Some(t) = queue.next(from) {
        if world.enabled(t) {
            return Ok(Some(t));
        }
        queue.turn_ended(world, t)?;
        from = t.0 + 1;
    }
    Ok(None)
}

// Makes the next step of a task that may go on and has a turn; whoever may go on by that has a turn.
fn step_on(world: &mut World<'_>, queue: &mut RunQueue, t: TaskId) -> Result<(), NoMemory>
    requires task { t.0 < length world.old.plan.parents }
    requires enabled { IsEnabled world.old t.0 }
    requires turn { HasTurnLeft queue.old t.0 }
    requires queue { IsRunQueue world.old world.old queue.old }
    ensures step { OnOk result (IsWorldStep world.old world.new t.0) }
    ensures queue { OnOk result (IsRunQueue world.new world.new queue.new) }
{
    match step_kind(world, t) {
        Some(kind) => {
            world.step(t);
            queue.step_made(world, t, kind)?;
            queue.round_ended();
            Ok(())
        }
        None => unreachable!(),
    }
}

// Appends the line of a task's next step, behind so many, if it is shown.
fn show<T: TellsSteps>(
    text: &T,
    out: &mut Vec<u8>,
    world: &World<'_>,
    t: TaskId,
    steps: u32,
) -> Result<(), NoMemory>
    requires known { T.known text.now }
    requires task { t.0 < length world.now.plan.parents }
    requires enabled { IsEnabled world.now t.0 }
    ensures shown { OnOk result (steps < most_shown → HasNextLine (T.words text.now) (steps + 1) world.now t.0 out.old.items out.new.items) }
    ensures rest { OnOk result (most_shown ≤ steps → out.new.items ≡ out.old.items) }
{
    if steps < MOST_SHOWN {
        text.put_line(out, world, t, steps + 1)
    } else {
        Ok(())
    }
}

// Appends the line that tells how many more steps there were; nothing where there were none.
fn put_rest(alloc: Global, out: &mut Vec<u8>, rest: u32) -> Result<(), NoMemory>
    ensures { OnOk result (out.new.items ≡ out.old.items ++ more_steps_line rest) }
{
    if rest == 0 {
        return Ok(());
    }
    put_words(out, b"and ")?;
    put_number(alloc, out, rest as u64)?;
    put_words(out, b" more\n")
}

// How far a run has come.
#[derive(Drop)]
pub(crate) struct Stepping<'p> {
    world: World<'p>,
    lines: Vec<u8>,
    // how many steps were made
    steps: u32,
}

impl<'p> Stepping<'p> {
    // Makes the next step, if a task may go on.
    fn go_on<T: TellsSteps>(&mut self, queue: &mut RunQueue, text: &T) -> Result<bool, NoMemory>
        requires known { T.known text.now }
        requires queue { IsRunQueue self.old.world self.old.world queue.old }
        requires room { self.old.steps + 1 < 2 ^ 32 }
        ensures plan { IfOk result (λ moved. self.new.world.plan ≡ self.old.world.plan) }
        ensures moved { IfOk result (λ moved. moved ≡ true → (h : Seq Step) → IsSoFar (T.words text.now) h self.old →
            (e : Step) × IsSoFar (T.words text.now) (e ∷ h) self.new) }
        ensures counted { IfOk result (λ moved. moved ≡ true → self.new.steps ≡ self.old.steps + 1) }
        ensures still { IfOk result (λ moved. moved ≡ false → self.new ≡ self.old) }
        ensures quiet { IfOk result (λ moved. moved ≡ false → (t : ℕ) → t < length self.new.world.plan.parents → IsEnabled self.new.world t → ⊥) }
        ensures queue { OnOk result (IsRunQueue self.new.world self.new.world queue.new) }
    {
        let found = least_enabled(&self.world, queue)?;
        match found {
            Some(t) => {
                show(text, &mut self.lines, &self.world, t, self.steps)?;
                step_on(&mut self.world, queue, t)?;
                self.steps += 1;
                Ok(true)
            }
            None => Ok(false),
        }
    }
}

// The run of a plan to its end, step by step, and how far it has come then.
fn steps_of<'p, T: TellsSteps>(
    alloc: Global,
    text: &T,
    plan: &'p Plan,
) -> Result<Stepping<'p>, NoMemory>
    requires known { T.known text.now }
    ensures plan { IfOk result (λ run. run.world.plan ≡ plan.now) }
    ensures run { IfOk result (λ run. (h : Seq Step) × IsSoFar (T.words text.now) h run) }
    ensures quiet { IfOk result (λ run. (t : ℕ) → t < length run.world.plan.parents → IsEnabled run.world t → ⊥) }
{
    let _tasks = plan.tasks();
    let world = World::start(alloc, plan)?;
    let mut queue = RunQueue::start(alloc, &world)?;
    let mut run = Stepping {
        world,
        lines: Vec::new(alloc),
        steps: 0,
    };
    while run.go_on(&mut queue, text)? {}
    Ok(run)
}

/// Runs a plan to its end, step by step, with the lines that this text has for its steps: of the tasks that may go on, the one with the least number makes the
/// next step. It answers a line for each of the first `MOST_SHOWN` steps, and where there were more, a line that tells how many; the world in which the run ends;
/// and the value of its state. The only error is want of memory. A step looks at none of the tasks that only stand there, so the time is that of the steps and of
/// the lines.
pub fn step_to_end<'p, T: TellsSteps>(
    alloc: Global,
    text: &T,
    plan: &'p Plan,
) -> Result<SteppedRun<'p>, NoMemory>
    requires known { T.known text.now }
    ensures run { IfOk result (IsRunBy (T.words text.now) plan.now) }
{
    let Stepping {
        world,
        mut lines,
        steps,
    } = steps_of(alloc, text, plan)?;
    put_rest(alloc, &mut lines, steps.saturating_sub(MOST_SHOWN))?;
    let end = world.finish(alloc)?;
    Ok(SteppedRun {
        lines: List::from_vec(lines),
        world,
        end,
    })
}

/// Runs the plan of the program of the text of which this is known to its end, as `step_to_end` does. The only error is want of memory. A step looks at none of
/// the tasks that only stand there, and the time of one that is shown is linear in the text.
pub fn step_through<'p>(
    alloc: Global,
    facts: &TextFacts<'_>,
    plan: &'p Plan,
) -> Result<SteppedRun<'p>, NoMemory>
    requires known { AreKnownFacts facts.now }
    ensures run { IfOk result (IsSteppedRun facts.now.places.now facts.now.program.now plan.now) }
{
    let run = step_to_end(alloc, facts, plan)?;
    Ok(run)
}
