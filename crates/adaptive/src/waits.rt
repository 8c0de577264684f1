// How many pairs the wait-for graph has, without the graph.
ghost use Rattle.std.specs.Prelude.{◌≡◌, ◌<◌, ◌≤◌, ◌^◌, ℕ, IfOk, MatchBool, count_by, length, map, sum_by};
ghost use Rattle.armus_base.specs.Counts.{IsCount};
ghost use Rattle.armus_base.specs.Graphs.{WaitsFor};
ghost use Rattle.armus_base.specs.calls.Statuses.{IsInOrder};
ghost use Rattle.armus_base.specs.declared.ids.TaskId.{TaskId};
ghost use Rattle.armus_base.specs.declared.status.Status.{Status};
ghost use Rattle.dep_state.specs.inside.Made.{NeverFalls, NotAfter};
ghost use Rattle.adaptive.specs.inside.Waits.{AreAwaited, IsFirstPast, IsFirstOnLater, is_later, waits_on};

use armus_base::{Event, Member, NoMemory, PhaserId, Status};
use std::alloc::{AllocError, Global};

// The events that the statuses await, by phaser and then by phase, one for each status.
fn awaited(alloc: Global, list: &[Status]) -> Result<Vec<Event>, AllocError>
    ensures { IfOk result (λ events. events.items ≡ map (λ s. s.event) list.now) }
{
    list.iter().map(|status| status.event).collect(alloc)
}

// The same, in order.
fn awaited_in_order(alloc: Global, list: &[Status]) -> Result<Vec<Event>, AllocError>
    ensures { IfOk result (λ events. AreAwaited list.now events.items) }
{
    let mut events = awaited(alloc, list)?;
    events.sort_unstable();
    Ok(events)
}

// Whether an event is before this phase of this phaser, or at it.
fn is_not_after(event: Event, member: Member) -> bool
    ensures { MatchBool result (NotAfter event (record { p = member.p; n = member.n })) (NotAfter event (record { p = member.p; n = member.n }) → ⊥) }
{
    event.p.0 < member.p.0 || (event.p.0 == member.p.0 && event.n <= member.n)
}

// The index of the first event behind this phase of this phaser.
fn first_past(events: &[Event], member: Member) -> usize
    requires { NeverFalls events.now }
    ensures { IsFirstPast events.now member result }
{
    events.partition_point(|event| is_not_after(*event, member))
}

// The index of the first event of a later phaser.
fn first_on_later(events: &[Event], p: PhaserId) -> usize
    requires { NeverFalls events.now }
    ensures { IsFirstOnLater events.now p.0 result }
{
    events.partition_point(|event| event.p.0 <= p.0)
}

// How many events a member impedes.
fn later(events: &[Event], member: Member) -> usize
    requires { NeverFalls events.now }
    ensures { result ≡ count_by (is_later member) events.now }
{
    first_on_later(events, member.p) - first_past(events, member)
}

// How many events a task with these phases impedes.
fn waits_on(events: &[Event], phases: &[Member]) -> u64
    requires ordered { NeverFalls events.now }
    requires few { length events.now < 2 ^ 31 }
    requires few_phases { length phases.now < 2 ^ 31 }
    ensures { result ≡ waits_on events.now phases.now }
{
    let mut waits = 0;
    for k in 0..phases.len() {
        waits += later(events, phases[k]) as u64;
    }
    waits
}

/// The number of pairs of the wait-for graph: two binary searches among the awaited events for each phase.
pub(crate) fn count_waits(alloc: Global, list: &[Status]) -> Result<u64, NoMemory>
    requires order { IsInOrder list.now }
    ensures { IfOk result (IsCount (λ (p : TaskId × TaskId). WaitsFor list.now p.0 p.1)) }
{
    let events = awaited_in_order(alloc, list)?;
    let mut waits = 0;
    for k in 0..list.len() {
        waits += waits_on(&events, list[k].phases.as_slice());
    }
    Ok(waits)
}
