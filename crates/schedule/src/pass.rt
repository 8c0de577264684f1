// An open pass: the cells that it has loaded, and the statuses that it makes of them.
ghost use Rattle.std.specs.Prelude.{◌≡◌, ◌<◌, ◌≤◌, ◌+◌, ◌^◌, ◌++◌, [], ◌∷◌, List as Seq, Some, length, IfOk, OnOk, IsTrue, ◌↔◌, slice_get};
ghost use Rattle.armus_base.specs.Finals.{given_below};
ghost use Rattle.armus_base.specs.States.{Step};
ghost use Rattle.schedule.specs.Passes.{PassLoads, loads_of, statuses_found};
ghost use Rattle.schedule.specs.inside.OpenPasses.{EndsRow, IsMidPass, IsPassOf, KeepsEvent, KeepsPhase, marked_phaser, phaser_of};
ghost use Rattle.armus_base.specs.CheckedPlans.{IsCheckedPlan};
ghost use Rattle.armus_base.specs.Plans.{Plan as PlanValue};
ghost use Rattle.schedule.specs.inside.Following.{IsAt};
ghost use Rattle.pl_core.specs.calls.Worlds.{state_of};

use armus_base::{Event, List, Member, NoMemory, Phase, PhaserId, Plan, Status, TaskId};
use pl_core::{Stand, World};
use std::alloc::Global;
use std::mem;

/// A task that was found waiting, and its event.
#[derive(Clone, Copy, Debug, PartialEq, Eq)]
pub(crate) struct FoundWaiting {
    pub(crate) t: TaskId,
    pub(crate) event: Event,
}

/// An open pass. First it loads the await cells of all tasks, in order; then, row by row for the tasks found waiting, their phase cells in the columns
/// of the phasers found awaited.
#[derive(Drop)]
pub(crate) struct OpenPass {
    // how many await cells were loaded
    pub(crate) loaded: u32,
    pub(crate) waiting: Vec<FoundWaiting>,
    // in order of number, once all await cells are loaded
    pub(crate) awaited: Vec<PhaserId>,
    // the statuses of the rows before this one, and the phases found in this one
    pub(crate) statuses: List<Status>,
    pub(crate) members: List<Member>,
    pub(crate) row: usize,
    pub(crate) column: usize,
}

// The phasers of these tasks' events, in order of number. It takes the time of the tasks and of all phasers of the plan.
fn awaited_phasers(
    alloc: Global,
    waiting: &[FoundWaiting],
    phasers: u32,
) -> Result<Vec<PhaserId>, NoMemory>
    ensures { IfOk result (λ all. all.items ≡ given_below (phaser_of waiting.now) phasers) }
{
    let mut is_awaited = vec![in alloc; false; phasers as usize]?;
    for w in waiting {
        let p = w.event.p.0 as usize;
        if p < is_awaited.len() {
            is_awaited[p] = true;
        }
    }
    listed(alloc, is_awaited.as_slice())
}

// The phasers that are marked.
fn listed(alloc: Global, marks: &[bool]) -> Result<Vec<PhaserId>, NoMemory>
    requires few { length marks.now < 2 ^ 32 }
    ensures { IfOk result (λ all. all.items ≡ given_below (marked_phaser marks.now) (length marks.now)) }
{
    let mut all = Vec::new(alloc);
    for (p, mark) in marks.iter().enumerate() {
        if *mark {
            all.push(PhaserId(p as u32))?;
        }
    }
    Ok(all)
}

// The event on which a task is published.
fn published(world: &World<'_>, t: TaskId) -> Option<Event>
    requires task { t.0 < length world.now.plan.parents }
    ensures { result ≡ (state_of world.now).published t.0 }
{
    match world.stand(t) {
        Stand::Waits(event) => Some(event),
        _ => None,
    }
}

impl OpenPass {
    /// No cell is loaded.
    pub(crate) fn new(alloc: Global) -> OpenPass
        ensures { (plan : PlanValue) → IsCheckedPlan plan → IsPassOf plan [] result }
    {
        OpenPass {
            loaded: 0,
            waiting: Vec::new(alloc),
            awaited: Vec::new(alloc),
            statuses: List::new(alloc),
            members: List::new(alloc),
            row: 0,
            column: 0,
        }
    }

    /// Whether all its cells are loaded.
    pub(crate) fn is_full(&self, tasks: u32) -> bool
        ensures full { (plan : PlanValue) (loads : PassLoads) → tasks ≡ length plan.parents → IsPassOf plan loads self.now → IsTrue result ↔ (length loads ≡ loads_of plan loads) }
    {
        self.loaded == tasks && self.row == self.waiting.len()
    }

    // Keeps what the next await cell was found to hold.
    fn keep_event(&mut self, found: Option<Event>) -> Result<(), NoMemory>
        requires fits { self.old.loaded + 1 < 2 ^ 32 }
        ensures kept { OnOk result (KeepsEvent self.old self.new found) }
    {
        if let Some(event) = found {
            let t = TaskId(self.loaded);
            self.waiting.push(FoundWaiting { t, event })?;
        }
        self.loaded += 1;
        Ok(())
    }

    /// Loads the next await cell.
    pub(crate) fn load_await(
        &mut self,
        alloc: Global,
        world: &World<'_>,
        plan: &Plan,
    ) -> Result<(), NoMemory>
        requires plan { plan.now ≡ world.now.plan }
        requires next { self.old.loaded < length plan.now.parents }
        ensures loaded { OnOk result ((loads : PassLoads) (h : Seq Step) → IsAt world.now h → IsPassOf plan.now loads self.old → IsPassOf plan.now (loads ++ h ∷ []) self.new) }
    {
        let tasks = plan.tasks();
        let found = published(world, TaskId(self.loaded));
        self.keep_event(found)?;
        if self.loaded == tasks {
            self.awaited = awaited_phasers(alloc, self.waiting.as_slice(), plan.phasers())?;
        }
        Ok(())
    }

    // Keeps what the next phase cell, of phaser `p`, was found to hold.
    fn keep_phase(&mut self, p: PhaserId, found: Option<Phase>) -> Result<(), NoMemory>
        requires fits { self.old.column + 1 < 2 ^ 64 }
        ensures kept { OnOk result (KeepsPhase self.old self.new p found) }
    {
        if let Some(n) = found {
            self.members.push(Member { p, n })?;
        }
        self.column += 1;
        Ok(())
    }

    // Ends the row of this task.
    fn end_row(&mut self, alloc: Global, waiting: FoundWaiting) -> Result<(), NoMemory>
        requires fits { self.old.row + 1 < 2 ^ 64 }
        ensures ended { OnOk result (EndsRow self.old self.new waiting) }
    {
        let phases = mem::replace(&mut self.members, List::new(alloc));
        self.statuses.push(Status {
            t: waiting.t,
            event: waiting.event,
            phases,
        })?;
        self.row += 1;
        self.column = 0;
        Ok(())
    }

    /// Loads the next phase cell.
    pub(crate) fn load_phase(&mut self, alloc: Global, world: &World<'_>) -> Result<(), NoMemory>
        requires open { IsMidPass world.now.plan self.old }
        ensures loaded { OnOk result ((loads : PassLoads) (h : Seq Step) → IsAt world.now h → IsPassOf world.now.plan loads self.old → IsPassOf world.now.plan (loads ++ h ∷ []) self.new) }
    {
        let waiting = self.waiting[self.row];
        let p = self.awaited[self.column];
        let found = world.phase(p, waiting.t);
        self.keep_phase(p, found)?;
        if self.column == self.awaited.len() {
            self.end_row(alloc, waiting)?;
        }
        Ok(())
    }

    /// The statuses that it has found, once it is full.
    pub(crate) fn into_statuses(self) -> List<Status>
        ensures found { (plan : PlanValue) (loads : PassLoads) → IsPassOf plan loads self → length loads ≡ loads_of plan loads → result ≡ statuses_found plan loads }
    {
        self.statuses
    }
}
