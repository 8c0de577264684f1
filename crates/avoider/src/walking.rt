// The cycle of a refusal, found by walks over the published tasks of a world.
ghost use Rattle.std.specs.Prelude.{◌≡◌, ℕ, ◌<◌, ◌∷◌, ◌++◌, [], Contains, IfOk, IfSome, MatchBool, MatchOption, OnOk, length, slice_index_or, true, false};
ghost use Rattle.armus_base.specs.CheckedPlans.{IsCheckedPlan};
ghost use Rattle.armus_base.specs.Deadlocks.{IsDeadBy, NobodyDead};
ghost use Rattle.armus_base.specs.Runs.{IsReachable};
ghost use Rattle.armus_base.specs.States.{if_published};
ghost use Rattle.armus_base.specs.declared.event.Event.{Event};
ghost use Rattle.armus_base.specs.declared.ids.TaskId.{TaskId};
ghost use Rattle.pl_core.specs.calls.HighestPhases.{IsPublishedImpeder};
ghost use Rattle.pl_core.specs.calls.Stands.{IsAtAwaitOf};
ghost use Rattle.pl_core.specs.calls.Worlds.{places_of, state_of};
ghost use Rattle.verdict.specs.calls.Cycles.{HaveEvents};
ghost use Rattle.avoider.specs.calls.Decisions.{IsOutcome, supposed_statuses};
ghost use Rattle.avoider.specs.inside.Walks.{AreAlive, ArePassed, GoesTo, IsAwaiting, IsOnItsWay, IsUnder};

use crate::waiting::published;
use armus_base::{Event, List, NoMemory, TaskId};
use pl_core::World;
use std::alloc::{AllocError, Global};
use verdict::Cycle;

// For how many tasks at most a walk looks who impedes their events.
const MOST_LOOKS: usize = 12;

// For how many tasks at most the walk looks that finds the cycle of a refusal: where there are many phasers it may be longer, since it takes longer to make the
// statuses, which have a phase on each awaited phaser.
fn most_looks_on_cycle(world: &World) -> usize {
    MOST_LOOKS.max(2 * world.plan().phasers() as usize)
}

/// A walk from the least task that may be dead, each time to the least one that may be dead and impedes the event of the task before it.
#[derive(Drop)]
pub(crate) struct ImpederWalk {
    // for each task whether it is known that it is not dead
    pub(crate) alive: Vec<bool>,
    // the tasks that were passed
    pub(crate) path: Vec<TaskId>,
    // where it has come to
    pub(crate) at: TaskId,
}

// The least published task that impedes an event and may be dead.
fn least_impeder(
    world: &World,
    alive: &[bool],
    awaited: Event,
    t: TaskId,
    event: Event,
) -> Option<TaskId>
    requires sized { length alive.now ≡ length world.now.plan.parents }
    requires awaited { awaited.p.0 < length world.now.plan.makers }
    ensures { MatchOption result
        (ArePassed (if_published (state_of world.now) t.0 event) awaited alive.now (length world.now.plan.parents))
        (λ u. (u.0 < length world.now.plan.parents) × IsPublishedImpeder (if_published (state_of world.now) t.0 event) awaited u.0
        × ArePassed (if_published (state_of world.now) t.0 event) awaited alive.now u.0) }
{
    let _plan = world.plan();
    let mut next = 0;
    'impeding: while let Some(u) = world.next_impeder(awaited, TaskId(next), t, event) {
        if !alive[u.0 as usize] {
            return Some(u);
        }
        next = u.0 + 1;
    }
    None
}

// The least task that may be dead and impedes the event of a task; None only where this is not dead.
fn next_of(world: &World, alive: &[bool], at: TaskId, t: TaskId, event: Event) -> Option<TaskId>
    requires task { t.0 < length world.now.plan.parents }
    requires at { at.0 < length world.now.plan.parents }
    requires phaser { event.p.0 < length world.now.plan.makers }
    requires alive { AreAlive (supposed_statuses world.now t.0 event) (length world.now.plan.parents) alive.now }
    ensures { MatchOption result (IsDeadBy (supposed_statuses world.now t.0 event) at.0 → ⊥)
        (λ u. (u.0 < length world.now.plan.parents) × GoesTo (supposed_statuses world.now t.0 event) at u) }
{
    let _plan = world.plan();
    match published(world, at, t, event) {
        Some(awaited) => least_impeder(world, alive, awaited, t, event),
        None => None,
    }
}

// Whether a task is published and may be dead.
fn may_be_dead(world: &World, alive: &[bool], u: TaskId, t: TaskId, event: Event) -> bool
    requires task { t.0 < length world.now.plan.parents }
    requires other { u.0 < length world.now.plan.parents }
    requires phaser { event.p.0 < length world.now.plan.makers }
    requires alive { AreAlive (supposed_statuses world.now t.0 event) (length world.now.plan.parents) alive.now }
    ensures { result ≡ false → IsDeadBy (supposed_statuses world.now t.0 event) u.0 → ⊥ }
{
    let _plan = world.plan();
    if alive[u.0 as usize] {
        return false;
    }
    published(world, u, t, event).is_some()
}

// The least published task that may be dead.
fn least_published(world: &World, alive: &[bool], t: TaskId, event: Event) -> Option<TaskId>
    requires task { t.0 < length world.now.plan.parents }
    requires phaser { event.p.0 < length world.now.plan.makers }
    requires alive { AreAlive (supposed_statuses world.now t.0 event) (length world.now.plan.parents) alive.now }
    ensures { MatchOption result (IsUnder (supposed_statuses world.now t.0 event) (length world.now.plan.parents))
        (λ u. (u.0 < length world.now.plan.parents) × IsUnder (supposed_statuses world.now t.0 event) u.0) }
{
    for u in 0..world.plan().tasks() {
        if may_be_dead(world, alive, TaskId(u), t, event) {
            return Some(TaskId(u));
        }
    }
    None
}

// Where a task stands in a path, if it does.
fn place_in(path: &[TaskId], t: TaskId) -> Option<usize>
    ensures { MatchOption result (Contains path.now t → ⊥) (λ k. (k < length path.now) × ((d : TaskId) → slice_index_or path.now k d ≡ t)) }
{
    for k in 0..path.len() {
        if path[k].0 == t.0 {
            return Some(k);
        }
    }
    None
}

// The events that tasks await.
fn events_of(
    alloc: Global,
    world: &World,
    tasks: &[TaskId],
    t: TaskId,
    event: Event,
) -> Result<Vec<Event>, AllocError>
    requires task { t.0 < length world.now.plan.parents }
    requires phaser { event.p.0 < length world.now.plan.makers }
    requires awaiting { (u : TaskId) → Contains tasks.now u → IsAwaiting (supposed_statuses world.now t.0 event) u }
    ensures { IfOk result (λ events. HaveEvents (supposed_statuses world.now t.0 event) tasks.now events.items) }
{
    let _plan = world.plan();
    let mut events = Vec::new(alloc);
    for u in tasks {
        match published(world, *u, t, event) {
            Some(awaited) => events.push(awaited)?,
            None => unreachable!(),
        }
    }
    Ok(events)
}

// The cycle of these tasks, with the events that they await.
fn cycle_of(
    alloc: Global,
    world: &World,
    tasks: &[TaskId],
    t: TaskId,
    event: Event,
) -> Result<Cycle, AllocError>
    requires task { t.0 < length world.now.plan.parents }
    requires phaser { event.p.0 < length world.now.plan.makers }
    requires awaiting { (u : TaskId) → Contains tasks.now u → IsAwaiting (supposed_statuses world.now t.0 event) u }
    ensures { IfOk result (λ c. (c.tasks ≡ tasks.now) × HaveEvents (supposed_statuses world.now t.0 event) tasks.now c.events) }
{
    let events = events_of(alloc, world, tasks, t, event)?;
    let tasks = Vec::from_slice(alloc, tasks)?;
    Ok(Cycle {
        tasks: List::from_vec(tasks),
        events: List::from_vec(events),
    })
}

impl ImpederWalk {
    // Whether a few looks that begin at task t itself tell that it is not dead. Who is found not to be dead on the way is marked.
    fn tells_alive(&mut self, world: &World, t: TaskId, event: Event) -> bool
        requires task { t.0 < length world.now.plan.parents }
        requires phaser { event.p.0 < length world.now.plan.makers }
        requires alive { AreAlive (supposed_statuses world.now t.0 event) (length world.now.plan.parents) self.old.alive.items }
        ensures marked { AreAlive (supposed_statuses world.now t.0 event) (length world.now.plan.parents) self.new.alive.items }
        ensures told { result ≡ true → IsDeadBy (supposed_statuses world.now t.0 event) t.0 → ⊥ }
    {
        let _plan = world.plan();
        let mut at = t;
        for _ in 0..MOST_LOOKS {
            if let Some(next) = next_of(world, &self.alive, at, t, event) {
                at = next;
            } else if at.0 == t.0 {
                return true;
            } else {
                self.alive[at.0 as usize] = true;
                at = t;
            }
        }
        false
    }

    // The walk begins anew, at the least published task that may be dead; false only where nobody is dead.
    fn begin(&mut self, alloc: Global, world: &World, t: TaskId, event: Event) -> bool
        requires task { t.0 < length world.now.plan.parents }
        requires phaser { event.p.0 < length world.now.plan.makers }
        requires alive { AreAlive (supposed_statuses world.now t.0 event) (length world.now.plan.parents) self.old.alive.items }
        ensures { MatchBool result (IsOnItsWay (supposed_statuses world.now t.0 event) (length world.now.plan.parents) self.new) (IsDeadBy (supposed_statuses world.now t.0 event) t.0 → ⊥) }
    {
        self.path = Vec::new(alloc);
        match least_published(world, &self.alive, t, event) {
            Some(start) => {
                self.at = start;
                true
            }
            None => false,
        }
    }

    // The task to which the walk has come is alive, so it begins anew; false only where task t is not dead.
    fn turn_back(&mut self, alloc: Global, world: &World, t: TaskId, event: Event) -> bool
        requires task { t.0 < length world.now.plan.parents }
        requires phaser { event.p.0 < length world.now.plan.makers }
        requires walk { IsOnItsWay (supposed_statuses world.now t.0 event) (length world.now.plan.parents) self.old }
        requires alive { IsDeadBy (supposed_statuses world.now t.0 event) self.old.at.0 → ⊥ }
        ensures { MatchBool result (IsOnItsWay (supposed_statuses world.now t.0 event) (length world.now.plan.parents) self.new) (IsDeadBy (supposed_statuses world.now t.0 event) t.0 → ⊥) }
    {
        if self.at.0 == t.0 {
            return false;
        }
        self.alive[self.at.0 as usize] = true;
        self.begin(alloc, world, t, event)
    }

    // The walk goes on by one task, or begins anew; false only where task t is not dead.
    fn go_on(
        &mut self,
        alloc: Global,
        world: &World,
        t: TaskId,
        event: Event,
    ) -> Result<bool, NoMemory>
        requires task { t.0 < length world.now.plan.parents }
        requires phaser { event.p.0 < length world.now.plan.makers }
        requires walk { IsOnItsWay (supposed_statuses world.now t.0 event) (length world.now.plan.parents) self.old }
        requires is_new { Contains self.old.path.items self.old.at → ⊥ }
        ensures { IfOk result (λ goes_on. MatchBool goes_on (IsOnItsWay (supposed_statuses world.now t.0 event) (length world.now.plan.parents) self.new) (IsDeadBy (supposed_statuses world.now t.0 event) t.0 → ⊥)) }
    {
        match next_of(world, &self.alive, self.at, t, event) {
            Some(next) => {
                self.path.push(self.at)?;
                self.at = next;
                Ok(true)
            }
            None => Ok(self.turn_back(alloc, world, t, event)),
        }
    }
}

/// What walks tell of task `t`, were it published on the event, in a world where nobody is dead: the cycle of the statuses where it is dead by them, and no
/// cycle where it is not. None where the walks are longer than what is looked at: the impeders of at most twelve tasks are looked for from the task itself, which
/// tells of most tasks that they are not dead, and those of as many again, or of twice as many as there are phasers, from the least task that may be dead, where
/// the cycle of a refusal begins.
pub(crate) fn told_by_walks(
    alloc: Global,
    world: &World,
    t: TaskId,
    event: Event,
) -> Result<Option<Option<Cycle>>, NoMemory>
    requires task { t.0 < length world.now.plan.parents }
    requires phaser { event.p.0 < length world.now.plan.makers }
    requires before { IsAtAwaitOf world.now t.0 event }
    requires nobody { NobodyDead (state_of world.now) }
    ensures { IfOk result (λ told. IfSome told (IsOutcome (supposed_statuses world.now t.0 event) t.0)) }
{
    let _plan = world.plan();
    let mut walk = ImpederWalk {
        alive: vec![in alloc; false; world.plan().tasks() as usize]?,
        path: Vec::new(alloc),
        at: t,
    };
    if walk.tells_alive(world, t, event) || !walk.begin(alloc, world, t, event) {
        return Ok(Some(None));
    }
    for _ in 0..most_looks_on_cycle(world) {
        if let Some(k) = place_in(&walk.path, walk.at) {
            let cycle = cycle_of(alloc, world, &walk.path[k..], t, event)?;
            return Ok(Some(Some(cycle)));
        }
        if !walk.go_on(alloc, world, t, event)? {
            return Ok(Some(None));
        }
    }
    Ok(None)
}
