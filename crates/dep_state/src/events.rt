// The events that the statuses await, each once and in order, and where each one's event stands.
ghost use Rattle.std.specs.Prelude.{◌≡◌, ◌<◌, ◌^◌, length, map, IfOk, AllPairs, Contains, slice_index_or, MatchBool};
ghost use Rattle.armus_base.specs.Statuses.{IsAwaited};
ghost use Rattle.armus_base.specs.calls.Statuses.{IsInOrder};
ghost use Rattle.armus_base.specs.declared.status.Status.{Status};
ghost use Rattle.dep_state.specs.calls.Deps.{IsEventBefore};
ghost use Rattle.dep_state.specs.inside.Made.{NeverFalls, NotAfter, IsFirstAfter, IsFresh, IsDistinctOf, IsEventsOf, IsPlacesOf};

use armus_base::{Event, Status, TaskId};
use std::alloc::{AllocError, Global};

/// The tasks of the statuses, in order.
pub fn tasks(alloc: Global, list: &[Status]) -> Result<Vec<TaskId>, AllocError>
    ensures { IfOk result (λ tasks. tasks.items ≡ map (λ s. s.t) list.now) }
{
    list.iter().map(|status| status.t).collect(alloc)
}

// The events that the statuses await, in the order of the statuses.
fn awaited(alloc: Global, list: &[Status]) -> Result<Vec<Event>, AllocError>
    ensures { IfOk result (λ events. events.items ≡ map (λ s. s.event) list.now) }
{
    list.iter().map(|status| status.event).collect(alloc)
}

// Whether an event is before another.
fn is_before(a: Event, b: Event) -> bool
    ensures { MatchBool result (IsEventBefore a b) (¬ IsEventBefore a b) }
{
    a.p.0 < b.p.0 || (a.p.0 == b.p.0 && a.n < b.n)
}

// Whether the event at a place is another than the one ahead of it.
fn is_new(all: &[Event], i: usize) -> bool
    requires { i < length all.now }
    ensures { MatchBool result (IsFresh all.now i) (¬ IsFresh all.now i) }
{
    i == 0 || is_before(all[i - 1], all[i])
}

// The events of a list that never falls, each once.
fn distinct(alloc: Global, all: &[Event]) -> Result<Vec<Event>, AllocError>
    requires { NeverFalls all.now }
    ensures { IfOk result (λ events. IsDistinctOf all.now events.items) }
{
    let mut events = Vec::new(alloc);
    for i in 0..all.len() {
        if is_new(all, i) {
            events.push(all[i])?;
        }
    }
    Ok(events)
}

/// The events that the statuses await, each once and in order.
pub fn awaited_events(alloc: Global, list: &[Status]) -> Result<Vec<Event>, AllocError>
    ensures { IfOk result (λ events. IsEventsOf list.now events.items) }
{
    let mut all = awaited(alloc, list)?;
    all.sort_unstable();
    distinct(alloc, &all)
}

// Whether an event is before another, or equal to it.
fn is_not_after(a: Event, b: Event) -> bool
    ensures { MatchBool result (NotAfter a b) (¬ NotAfter a b) }
{
    a.p.0 < b.p.0 || (a.p.0 == b.p.0 && a.n <= b.n)
}

/// The place of the first event after a given one, which need not stand there.
pub fn first_after(events: &[Event], event: Event) -> usize
    requires { AllPairs IsEventBefore events.now }
    ensures { IsFirstAfter events.now event result }
{
    events.partition_point(|other| is_not_after(*other, event))
}

/// Where an event stands: ahead of the first one after it.
pub fn event_place(events: &[Event], event: Event) -> usize
    requires ordered { AllPairs IsEventBefore events.now }
    requires there { Contains events.now event }
    ensures inside { result < length events.now }
    ensures there { slice_index_or events.now result event ≡ event }
{
    first_after(events, event) - 1
}

/// The place of the event that each status awaits, by a search among the events.
pub fn places(alloc: Global, list: &[Status], events: &[Event]) -> Result<Vec<u32>, AllocError>
    requires events { IsEventsOf list.now events.now }
    requires few { length list.now < 2 ^ 31 }
    ensures { IfOk result (λ places. IsPlacesOf list.now events.now (length list.now) places.items) }
{
    let mut places = Vec::new(alloc);
    for k in 0..list.len() {
        let at = event_place(events, list[k].event);
        places.push(at as u32)?;
    }
    Ok(places)
}
