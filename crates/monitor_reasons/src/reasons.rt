// Why a task is stuck.
ghost use Rattle.std.specs.Prelude.{◌≡◌, ◌<◌, All, false, IfOk, IfSome, IfNone, length};
ghost use Rattle.std.specs.List.{list_any};
ghost use Rattle.monitor_words.specs.Reasons.{IsStuckBecause, ended_keeps, has_ended};
ghost use Rattle.monitor_words.specs.Stops.{stands_for, stops};
ghost use Rattle.monitor_state.specs.Values.{condition_value};
ghost use Rattle.monitor_state.specs.inside.FirstPlaces.{IsFirstAt};
ghost use Rattle.monitor_search.specs.Known.{has_stuck_number};
ghost use Rattle.monitor_reasons.specs.Found.{ArePlacesOfList, participant_at, reason_value};
ghost use Rattle.monitor_reasons.specs.inside.ListReasons.{IsReasonIn};
ghost use Rattle.monitor_reasons.specs.inside.Listings.{AreKeepers, IsFoundStopper, listing};

use crate::FoundReason;
use crate::circles::circle_of;
use crate::stopping::{keeps_waiting, stands_for};
use armus_base::NoMemory;
use monitor_search::StuckTasks;
use monitor_state::{ListedCondition, ListedParticipant, MonitorState};
use std::alloc::Global;

// Whether a task has ended, or a wildcard is gone.
fn has_ended(condition: &ListedCondition) -> bool
    ensures { result ≡ has_ended (condition_value condition.now) }
{
    !(condition.is_live_task() || condition.is_live_wildcard())
}

// Whether u has ended and keeps f waiting.
fn ended_keeps(f: &ListedParticipant, u: &ListedParticipant) -> bool
    ensures { result ≡ ended_keeps f.now u.now }
{
    has_ended(u.condition()) && keeps_waiting(u, f)
}

// Where the first who has ended and keeps f waiting stands.
fn ended_keeper(list: &[ListedParticipant], f: &ListedParticipant) -> Option<usize>
    ensures at { IfSome result (IsFirstAt (ended_keeps f.now) list.now) }
    ensures none { IfNone result (list_any (ended_keeps f.now) list.now ≡ false) }
{
    for (at, u) in list.iter().enumerate() {
        if ended_keeps(f, u) {
            return Some(at);
        }
    }
    None
}

// The places of those who keep f waiting.
fn keepers_of(
    alloc: Global,
    list: &[ListedParticipant],
    f: &ListedParticipant,
) -> Result<Vec<usize>, NoMemory>
    ensures { IfOk result (λ places. AreKeepers list.now f.now places.items) }
{
    let mut places = Vec::new(alloc);
    for (at, w) in list.iter().enumerate() {
        if keeps_waiting(w, f) {
            places.push(at)?;
        }
    }
    Ok(places)
}

// Whether somebody at these places stands for u.
fn is_stood_for(list: &[ListedParticipant], places: &[usize], u: &ListedParticipant) -> bool
    requires { All (λ i. i < length list.now) places.now }
    ensures { result ≡ list_any (λ i. stands_for (participant_at list.now i) u.now) places.now }
{
    for place in places {
        if stands_for(&list[*place], u) {
            return true;
        }
    }
    false
}

// Whether u stops f, whom those at these places keep waiting. Whether it is stuck is asked last, since that costs most.
fn is_stopper(
    list: &[ListedParticipant],
    stuck: &StuckTasks,
    keepers: &[usize],
    f: &ListedParticipant,
    u: &ListedParticipant,
) -> bool
    requires { AreKeepers list.now f.now keepers.now }
    ensures { result ≡ stops (listing list.now) (has_stuck_number stuck.now) u.now f.now }
{
    is_stood_for(list, keepers, u) && stuck.has_number(u.number())
}

// Where the first task that stops f stands.
fn stopper(
    alloc: Global,
    list: &[ListedParticipant],
    stuck: &StuckTasks,
    f: &ListedParticipant,
) -> Result<Option<usize>, NoMemory>
    ensures { IfOk result (IsFoundStopper list.now (has_stuck_number stuck.now) f.now) }
{
    let keepers = keepers_of(alloc, list, f)?;
    for (at, u) in list.iter().enumerate() {
        if is_stopper(list, stuck, &keepers, f, u) {
            return Ok(Some(at));
        }
    }
    Ok(None)
}

// Why f is stuck, which stands in no circle.
fn reason_without_circle(
    alloc: Global,
    list: &[ListedParticipant],
    stuck: &StuckTasks,
    f: &ListedParticipant,
) -> Result<FoundReason, NoMemory>
    ensures reason { IfOk result (λ found. IsReasonIn list.now (has_stuck_number stuck.now) f.now found) }
    ensures places { IfOk result (λ found. ArePlacesOfList list.now found) }
{
    match ended_keeper(list, f) {
        Some(at) => Ok(FoundReason::EndedKeeps(at)),
        None => match stopper(alloc, list, stuck, f)? {
            Some(at) => Ok(FoundReason::StuckStops(at)),
            None => Ok(FoundReason::SomebodyMissing),
        },
    }
}

/// Why the task at a place is stuck, where these are the stuck tasks: the first of the four reasons that is so. Its places are below the length of the list.
/// `NoMemory` comes only where memory is wanting.
pub fn reason_of(
    alloc: Global,
    state: &MonitorState,
    stuck: &StuckTasks,
    task: usize,
) -> Result<FoundReason, NoMemory>
    requires { task < length state.now.list }
    ensures reason { IfOk result (λ found. IsStuckBecause state.now (has_stuck_number stuck.now) (participant_at state.now.list task) (reason_value state.now.list found)) }
    ensures places { IfOk result (λ found. ArePlacesOfList state.now.list found) }
{
    match circle_of(alloc, state, stuck, task)? {
        Some(places) => Ok(FoundReason::InCircle(places)),
        None => {
            let list = state.participants();
            let found = reason_without_circle(alloc, list, stuck, &list[task])?;
            Ok(found)
        }
    }
}
