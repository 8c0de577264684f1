// The sentence that tells why a task is stuck.
ghost use Rattle.std.specs.Prelude.{◌≡◌, ◌<◌, All, IfOk, List as Seq, length, map};
ghost use Rattle.std.specs.Option.{option_copied};
ghost use Rattle.monitor_words.specs.Words.{waited_event};
ghost use Rattle.monitor_words.specs.calls.Values.{placed_task, reason_shown, sentence_shown, shown_circle};
ghost use Rattle.monitor_words.specs.Stops.{waited_for};
ghost use Rattle.monitor_state.specs.Values.{condition_value};
ghost use Rattle.monitor_reasons.specs.Found.{ArePlacesOfList, participant_at, reason_value};
ghost use Rattle.monitor_reasons.specs.inside.Listings.{missing_at, shown_places};

use crate::FoundReason;
use armus_base::{List, NoMemory};
use monitor_state::{ListedCondition, ListedParticipant, MonitorState};
use monitor_words::{PlacedTask, StuckReason, StuckSentence};
use std::alloc::Global;

// Bytes in memory of their own.
fn owned(alloc: Global, bytes: &[u8]) -> Result<List<u8>, NoMemory>
    ensures { IfOk result (λ l. l ≡ bytes.now) }
{
    Ok(List::from_vec(Vec::from_slice(alloc, bytes)?))
}

// A place, where there is one.
fn owned_place(alloc: Global, place: Option<&[u8]>) -> Result<Option<List<u8>>, NoMemory>
    ensures { IfOk result (λ p. p ≡ option_copied place.entry) }
{
    match place {
        None => Ok(None),
        Some(bytes) => {
            let kept = owned(alloc, bytes)?;
            Ok(Some(kept))
        }
    }
}

// A task with its place.
fn placed_task(alloc: Global, u: &ListedParticipant) -> Result<PlacedTask, NoMemory>
    ensures { IfOk result (λ t. t ≡ placed_task u.now) }
{
    let name = owned(alloc, u.name())?;
    let place = owned_place(alloc, u.place())?;
    Ok(PlacedTask { name, place })
}

// The tasks at these places.
fn placed_tasks(
    alloc: Global,
    list: &[ListedParticipant],
    places: &[usize],
) -> Result<List<PlacedTask>, NoMemory>
    requires { All (λ i. i < length list.now) places.now }
    ensures { IfOk result (λ l. l ≡ shown_places list.now places.now) }
{
    let mut tasks = List::new(alloc);
    for place in places {
        tasks.push(placed_task(alloc, &list[*place])?)?;
    }
    Ok(tasks)
}

// The circle of a task with those at these places.
fn shown_circle(
    alloc: Global,
    list: &[ListedParticipant],
    places: &[usize],
) -> Result<StuckReason, NoMemory>
    requires { All (λ i. i < length list.now) places.now }
    ensures { IfOk result (λ r. r ≡ shown_circle (map (participant_at list.now) places.now)) }
{
    if places.len() <= 7 {
        let tasks = placed_tasks(alloc, list, places)?;
        return Ok(StuckReason::InCircle(tasks, 0));
    }
    let left = places.len() - 6;
    if left > u32::MAX as usize {
        return Err(NoMemory);
    }
    let tasks = placed_tasks(alloc, list, &places[..6])?;
    Ok(StuckReason::InCircle(tasks, left as u32))
}

// For what somebody is missing of whom a task in this condition waits.
fn missing(alloc: Global, condition: &ListedCondition) -> Result<StuckReason, NoMemory>
    ensures { IfOk result (λ r. r ≡ missing_at (waited_for (condition_value condition.now))) }
{
    match condition {
        ListedCondition::Waiting(p, n) => {
            let phaser = owned(alloc, p)?;
            Ok(StuckReason::SomebodyMissing(phaser, *n))
        }
        ListedCondition::Running => Ok(StuckReason::SomebodyMissing(List::new(alloc), 0)),
        ListedCondition::Ended => Ok(StuckReason::SomebodyMissing(List::new(alloc), 0)),
        ListedCondition::AnyTask => Ok(StuckReason::SomebodyMissing(List::new(alloc), 0)),
        ListedCondition::OneOf(_, _) => Ok(StuckReason::SomebodyMissing(List::new(alloc), 0)),
    }
}

// Why f is stuck, as it is told.
fn reason_shown(
    alloc: Global,
    list: &[ListedParticipant],
    f: &ListedParticipant,
    found: &FoundReason,
) -> Result<StuckReason, NoMemory>
    requires { ArePlacesOfList list.now found.now }
    ensures { IfOk result (λ r. r ≡ reason_shown f.now (reason_value list.now found.now)) }
{
    match found {
        FoundReason::InCircle(places) => shown_circle(alloc, list, places),
        FoundReason::EndedKeeps(place) => {
            let task = placed_task(alloc, &list[*place])?;
            Ok(StuckReason::EndedKeeps(task))
        }
        FoundReason::StuckStops(place) => {
            let task = placed_task(alloc, &list[*place])?;
            Ok(StuckReason::StuckStops(task))
        }
        FoundReason::SomebodyMissing => missing(alloc, f.condition()),
    }
}

/// The sentence on the task at a place, with the reason that was found. `NoMemory` comes where memory is wanting, and where a circle has so many tasks that
/// those left behind the shown ones are no `u32`.
pub fn sentence_of(
    alloc: Global,
    state: &MonitorState,
    task: usize,
    found: &FoundReason,
) -> Result<StuckSentence, NoMemory>
    requires task { task < length state.now.list }
    requires places { ArePlacesOfList state.now.list found.now }
    ensures { IfOk result (λ s. s ≡ sentence_shown (participant_at state.now.list task) (reason_value state.now.list found.now)) }
{
    let list = state.participants();
    let f = &list[task];
    let shown = placed_task(alloc, f)?;
    let reason = reason_shown(alloc, list, f, found)?;
    Ok(StuckSentence {
        task: shown,
        reason,
    })
}
