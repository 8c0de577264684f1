// The step of a task that stands at an await, in a world where nobody is dead.
ghost use Rattle.std.specs.Prelude.{◌≡◌, ℕ, ◌<◌, ◌≤◌, length, IfOk, IsTrue, MatchOption, OnErr};
ghost use Rattle.armus_base.specs.CheckedPlans.{IsCheckedPlan};
ghost use Rattle.armus_base.specs.Deadlocks.{NobodyDead, WouldBeDead};
ghost use Rattle.armus_base.specs.Runs.{IsReachable};
ghost use Rattle.armus_base.specs.calls.Statuses.{IsInOrder};
ghost use Rattle.armus_base.specs.declared.event.Event.{Event};
ghost use Rattle.pl_core.specs.calls.Stands.{IsAtAwaitOf};
ghost use Rattle.pl_core.specs.calls.Worlds.{places_of, state_of};
ghost use Rattle.avoider.specs.calls.Decisions.{IsBeforeStep, IsDecision, IsOutcome, IsPublished, supposed_statuses};
ghost use Rattle.avoider.specs.inside.GoingOn.{GoOnBesideFrom, GoesOnBeside, ImpedersGoOn};
ghost use Rattle.avoider.specs.declared.decision.Decision.TheVariants.{Published, Refused};

use crate::Decision;
use crate::walking::told_by_walks;
use adaptive::{Wanted, dead_by};
use armus_base::{Event, NoMemory, Status, TaskId};
use dep_state::task_place;
use pl_core::{Stand, World};
use std::alloc::Global;
use verdict::{Cycle, cycle};

// So many tasks behind an impeder are looked at before the next impeder is looked for.
const FEW_TASKS: u32 = 16;

/// Decides on the await at which task `t` stands, in a world where nobody is dead: it is refused exactly where the task would be dead if it were
/// published, and published otherwise, and nobody is dead after. A refusal has the cycle that a report would show with the task published. No
/// clause depends on `wanted`, which is the graph that is asked. After `NoMemory` the world is as before.
///
/// Only where the task may lie on a cycle, which no look at the phasers alone excludes, walks over the published tasks are made, and statuses made and searched
/// only where they come to no end soon.
pub fn avoid_step(
    alloc: Global,
    world: &mut World,
    t: TaskId,
    wanted: Wanted,
) -> Result<Decision, NoMemory>
    requires before { IsBeforeStep world.old t.0 }
    ensures decision { IfOk result (IsDecision world.old world.new t.0) }
    ensures nobody { NobodyDead (state_of world.new) }
    ensures same { OnErr result (world.new ≡ world.old) }
{
    if let Some(event) = publish_on_no_cycle(world, t) {
        return Ok(Decision::Published(event));
    }
    let event = event_before(world, t);
    let found = death_if(alloc, world, t, event, wanted)?;
    Ok(carry_out(world, t, event, found))
}

/// Publishes the await at which task `t` stands, in a world where nobody is dead, where a look at the phasers shows that the task would lie on no cycle, and
/// answers its event; else the world stays as it is.
pub(crate) fn publish_on_no_cycle(world: &mut World, t: TaskId) -> Option<Event>
    requires before { IsBeforeStep world.old t.0 }
    ensures published { MatchOption result (world.new ≡ world.old) (IsPublished world.old world.new t.0) }
    ensures nobody { NobodyDead (state_of world.new) }
{
    let event = event_before(world, t);
    if is_on_no_cycle(world, t, event) {
        world.step(t);
        return Some(event);
    }
    None
}

// The cycle of the supposed statuses where the task is dead by them: as walks tell it, and else by the statuses themselves.
fn death_if(
    alloc: Global,
    world: &World,
    t: TaskId,
    event: Event,
    wanted: Wanted,
) -> Result<Option<Cycle>, NoMemory>
    requires task { t.0 < length world.now.plan.parents }
    requires before { IsAtAwaitOf world.now t.0 event }
    requires nobody { NobodyDead (state_of world.now) }
    ensures { IfOk result (IsOutcome (supposed_statuses world.now t.0 event) t.0) }
{
    let _ = world.stand(t);
    match told_by_walks(alloc, world, t, event)? {
        Some(found) => Ok(found),
        None => {
            let list = world.statuses_if(alloc, t, event)?;
            death_of(alloc, list.as_slice(), t, wanted)
        }
    }
}

// Whether a look at the phasers shows that the task, were it published on the event, would lie on no cycle: its event is reached, or it impedes
// no event that a task awaits, or each published task that impedes its event may go on. Where nobody is dead, a dead task would lie on a cycle through itself.
// The one look goes over the phasers of the plan, the other over the members of the event's phaser: that which may take longer comes last.
fn is_on_no_cycle(world: &World, t: TaskId, event: Event) -> bool
    requires task { t.0 < length world.now.plan.parents }
    requires phaser { event.p.0 < length world.now.plan.makers }
    requires nobody { NobodyDead (state_of world.now) }
    ensures { IsTrue result → WouldBeDead (state_of world.now) t.0 event → ⊥ }
{
    if world.is_reached(event) {
        return true;
    }
    if !has_many_phasers(world) {
        if world.impedes_nobody(t, event) {
            return true;
        }
        return impeders_go_on(world, t, event);
    }
    if impeders_go_on(world, t, event) {
        return true;
    }
    world.impedes_nobody(t, event)
}

// Whether a look at each phaser takes longer than one at each task as a member of one of them. To look for the phase of a task takes as long as to pass four members.
fn has_many_phasers(world: &World) -> bool {
    world.plan().phasers() > world.plan().tasks() / 4
}

// Whether each published task that impedes the event, with task `t` counted as published on it, waits on an event that is reached.
fn impeders_go_on(world: &World, t: TaskId, event: Event) -> bool
    requires task { t.0 < length world.now.plan.parents }
    requires phaser { event.p.0 < length world.now.plan.makers }
    ensures { IsTrue result → (n : ℕ) → ImpedersGoOn (state_of world.now) t.0 event n }
{
    // the plan is checked
    let _plan = world.plan();
    let mut next = 0;
    'impeders: while let Some(u) = world.next_impeder(event, TaskId(next), t, event) {
        if !goes_on(world, u, t) {
            return false;
        }
        next = behind_those_that_go_on(world, u.0 + 1, t);
    }
    true
}

// The first of a few tasks from `from` on that does not go on, or else the first one behind them. Where many tasks come to an await one behind the other, most
// of those behind an impeder impede too, and may go on.
fn behind_those_that_go_on(world: &World, from: u32, t: TaskId) -> u32
    requires from { from ≤ length world.now.plan.parents }
    ensures from { from ≤ result }
    ensures inside { result ≤ length world.now.plan.parents }
    ensures go_on { GoOnBesideFrom (state_of world.now) t.0 from result }
{
    // the plan is checked
    let _plan = world.plan();
    let end = world.plan().tasks().min(from.saturating_add(FEW_TASKS));
    for u in from..end {
        if !goes_on(world, TaskId(u), t) {
            return u;
        }
    }
    end
}

// Whether task `u`, which is not task `t`, waits on an event that is reached.
fn goes_on(world: &World, u: TaskId, t: TaskId) -> bool
    requires task { u.0 < length world.now.plan.parents }
    ensures { IsTrue result → GoesOnBeside (state_of world.now) t.0 u.0 }
{
    if u == t {
        return false;
    }
    match world.published(u) {
        Some(event) => world.is_reached(event),
        None => false,
    }
}

// The event of the await at which a task stands.
pub(crate) fn event_before(world: &World, t: TaskId) -> Event
    requires task { t.0 < length world.now.plan.parents }
    requires before { (e : Event) × IsAtAwaitOf world.now t.0 e }
    ensures before { IsAtAwaitOf world.now t.0 result }
    ensures checked { IsCheckedPlan world.now.plan }
    ensures reachable { IsReachable world.now.plan (places_of world.now) }
{
    if let Stand::Await(event) = world.stand(t) {
        event
    } else {
        unreachable!()
    }
}

// Refuses the await at which a task stands where this cycle was found, and publishes it where none was.
pub(crate) fn carry_out(
    world: &mut World,
    t: TaskId,
    event: Event,
    found: Option<Cycle>,
) -> Decision
    requires task { t.0 < length world.old.plan.parents }
    requires before { IsAtAwaitOf world.old t.0 event }
    requires nobody { NobodyDead (state_of world.old) }
    requires told { IsOutcome (supposed_statuses world.old t.0 event) t.0 found }
    ensures decision { IsDecision world.old world.new t.0 result }
    ensures nobody { NobodyDead (state_of world.new) }
    ensures as_found { MatchOption found (result ≡ Published event) (λ c. result ≡ Refused c) }
{
    let _ = world.stand(t);
    match found {
        Some(cycle) => {
            world.refuse(t);
            Decision::Refused(cycle)
        }
        None => {
            world.step(t);
            Decision::Published(event)
        }
    }
}

// The cycle of the statuses, where the task is dead by them.
pub(crate) fn death_of(
    alloc: Global,
    list: &[Status],
    t: TaskId,
    wanted: Wanted,
) -> Result<Option<Cycle>, NoMemory>
    requires { IsInOrder list.now }
    ensures { IfOk result (IsOutcome list.now t.0) }
{
    let dead = dead_by(alloc, list, wanted)?;
    let dead = dead.as_slice();
    match task_place(dead, t) {
        Some(_) => cycle(alloc, list, dead),
        None => Ok(None),
    }
}
