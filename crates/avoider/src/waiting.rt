// Who waits for whom in a world, where few events are awaited.
ghost use Rattle.std.specs.Prelude.{◌≡◌, ◌↔◌, ◌⊎◌, ℕ, ◌<◌, ◌≤◌, Option, All, Contains, IfOk, IfSome, MatchBool, OnOk, Some, length};
ghost use Rattle.armus_base.specs.CheckedPlans.{IsCheckedPlan};
ghost use Rattle.armus_base.specs.Graphs.{WaitsFor};
ghost use Rattle.armus_base.specs.Runs.{IsReachable};
ghost use Rattle.armus_base.specs.States.{if_published};
ghost use Rattle.armus_base.specs.declared.event.Event.{Event};
ghost use Rattle.armus_base.specs.declared.ids.TaskId.{TaskId};
ghost use Rattle.order_graph.specs.calls.Waits.{AreWaitsAmong, Awaits};
ghost use Rattle.pl_core.specs.calls.HighestPhases.{IsPublishedImpeder};
ghost use Rattle.pl_core.specs.calls.Worlds.{places_of, state_of};
ghost use Rattle.avoider.specs.calls.Decisions.{supposed_statuses};
ghost use Rattle.avoider.specs.inside.Waiting.{AreImpederSets, AreImpeders, ArePlaces, IsPlaceOfEvent};

use armus_base::{Event, NoMemory, TaskId};
use order_graph::{TaskSet, Waits};
use pl_core::World;
use std::alloc::{AllocError, Global};

// How many events may be awaited, so that the members of the phaser of each are looked at.
const FEW: usize = 16;

/// The awaited events, and for each task one more than the place of its own; 0 for one that awaits none.
#[derive(Drop)]
pub(crate) struct Places {
    pub(crate) events: Vec<Event>,
    pub(crate) own: Vec<u32>,
}

// The event on which a task is published, where one task counts as published on an event.
pub(crate) fn published(world: &World, u: TaskId, t: TaskId, event: Event) -> Option<Event>
    requires task { u.0 < length world.now.plan.parents }
    requires phaser { event.p.0 < length world.now.plan.makers }
    ensures event { result ≡ (if_published (state_of world.now) t.0 event).published u.0 }
    ensures phaser { IfSome result (λ e. e.p.0 < length world.now.plan.makers) }
{
    if u == t {
        return Some(event);
    }
    world.published(u)
}

// One more than the place of an event, which is added where it is not there yet.
fn place_of(events: &mut Vec<Event>, event: Event) -> Result<u32, AllocError>
    requires few { length events.old.items ≤ 16 }
    ensures few { length events.new.items ≤ 17 }
    ensures place { IfOk result (IsPlaceOfEvent events.new.items (Some event)) }
    ensures grows { (o : Option Event) (n : ℕ) → IsPlaceOfEvent events.old.items o n → IsPlaceOfEvent events.new.items o n }
    ensures within { (e : Event) → Contains events.new.items e → Contains events.old.items e ⊎ (e ≡ event) }
{
    for at in 0..events.len() {
        if events[at] == event {
            return Ok(at as u32 + 1);
        }
    }
    events.push(event)?;
    Ok(events.len() as u32)
}

// The same of the event on which a task is published, and 0 where it is on none.
fn place_if(events: &mut Vec<Event>, awaited: Option<Event>) -> Result<u32, AllocError>
    requires few { length events.old.items ≤ 16 }
    ensures few { length events.new.items ≤ 17 }
    ensures place { IfOk result (IsPlaceOfEvent events.new.items awaited) }
    ensures grows { (o : Option Event) (n : ℕ) → IsPlaceOfEvent events.old.items o n → IsPlaceOfEvent events.new.items o n }
    ensures within { (e : Event) → Contains events.new.items e → Contains events.old.items e ⊎ (awaited ≡ Some e) }
{
    match awaited {
        Some(event) => place_of(events, event),
        None => Ok(0),
    }
}

// The awaited events and each task's own, where one task counts as published on an event; None where there are more than a few.
fn places_if(
    alloc: Global,
    world: &World,
    t: TaskId,
    event: Event,
) -> Result<Option<Places>, NoMemory>
    requires phaser { event.p.0 < length world.now.plan.makers }
    ensures places { IfOk result (λ places. IfSome places (ArePlaces world.now.plan (if_published (state_of world.now) t.0 event))) }
    ensures checked { IsCheckedPlan world.now.plan }
    ensures reachable { IsReachable world.now.plan (places_of world.now) }
{
    let tasks = world.plan().tasks();
    let mut events = Vec::new(alloc);
    let mut own = Vec::with_capacity(alloc, tasks as usize)?;
    for u in 0..tasks {
        let place = place_if(&mut events, published(world, TaskId(u), t, event))?;
        own.push(place)?;
        if events.len() > FEW {
            return Ok(None);
        }
    }
    Ok(Some(Places { events, own }))
}

// The published tasks that impede an awaited event, where one task counts as published on an event.
fn impeders(
    alloc: Global,
    world: &World,
    awaited: Event,
    t: TaskId,
    event: Event,
) -> Result<TaskSet, AllocError>
    requires phaser { awaited.p.0 < length world.now.plan.makers }
    ensures { IfOk result (AreImpeders (if_published (state_of world.now) t.0 event) (length world.now.plan.parents) awaited) }
{
    let _plan = world.plan();
    let mut row = TaskSet::none(alloc);
    let mut next = 0;
    'impeding: while let Some(u) = world.next_impeder(awaited, TaskId(next), t, event) {
        row.put(u)?;
        next = u.0 + 1;
    }
    Ok(row)
}

// Behind an empty set, for each event the published tasks that impede it, where one task counts as published on an event.
fn impeder_sets(
    alloc: Global,
    world: &World,
    events: &[Event],
    t: TaskId,
    event: Event,
) -> Result<Vec<TaskSet>, AllocError>
    requires phasers { All (λ e. e.p.0 < length world.now.plan.makers) events.now }
    ensures { IfOk result (λ sets. AreImpederSets (if_published (state_of world.now) t.0 event) (length world.now.plan.parents) events.now sets.items) }
{
    let mut sets = Vec::new(alloc);
    sets.push(TaskSet::none(alloc))?;
    for awaited in events {
        let set = impeders(alloc, world, *awaited, t, event)?;
        sets.push(set)?;
    }
    Ok(sets)
}

/// For whom each task would wait if a task were published on an event; None where more than a few events would be awaited.
pub(crate) fn waits_if(
    alloc: Global,
    world: &World,
    t: TaskId,
    event: Event,
) -> Result<Option<Waits>, NoMemory>
    requires task { t.0 < length world.now.plan.parents }
    requires phaser { event.p.0 < length world.now.plan.makers }
    ensures among { IfOk result (λ waits. IfSome waits (AreWaitsAmong (length world.now.plan.parents))) }
    ensures pairs { IfOk result (λ waits. IfSome waits (λ w. (a b : TaskId) → Awaits w a b ↔ WaitsFor (supposed_statuses world.now t.0 event) a b)) }
{
    let found = places_if(alloc, world, t, event)?;
    match found {
        Some(places) => {
            let sets = impeder_sets(alloc, world, &places.events, t, event)?;
            let Places { events: _, own } = places;
            Ok(Some(Waits { sets, own }))
        }
        None => Ok(None),
    }
}
