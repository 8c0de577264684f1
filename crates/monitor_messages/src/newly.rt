// Those who become stuck by a line, by their places in the list.
ghost use Rattle.std.specs.Prelude.{◌≡◌, ◌<◌, ◌&&◌, [], false, All, IfNone, IfOk, IfSome, filter, find, length, map, unwrap_or};
ghost use Rattle.std.specs.List.{list_any};
ghost use Rattle.monitor_laws.specs.States.{is_there_as};
ghost use Rattle.monitor_words.specs.Messages.{those_only_in};
ghost use Rattle.monitor_state.specs.inside.FirstPlaces.{IsFirstAt};
ghost use Rattle.monitor_search.specs.Known.{has_stuck_number};
ghost use Rattle.monitor_reasons.specs.Found.{participant_at};
ghost use Rattle.trace_lines.specs.Values.{line_value, said_value};
ghost use Rattle.monitor_messages.specs.inside.Newly.{AreNewlyStuck, IsFirstTold, IsFoundAt, is_newly_stuck, says_wait, waits_by};

use armus_base::NoMemory;
use monitor_search::StuckTasks;
use monitor_state::{ListedParticipant, MonitorState};
use std::alloc::Global;
use trace_lines::{Announcement, TraceLine};

/// Tasks that become stuck by a line.
#[derive(Drop)]
pub(crate) struct NewlyStuck {
    /// Their places in the list, in its order.
    pub(crate) places: Vec<usize>,
    /// The place of the task on which the message on them is.
    pub(crate) first: usize,
}

// Whether u is stuck now and was not before.
fn is_newly_stuck(u: &ListedParticipant, was: &StuckTasks, stuck: &StuckTasks) -> bool
    ensures { result ≡ is_newly_stuck (has_stuck_number was.now) (has_stuck_number stuck.now) u.now }
{
    stuck.has_number(u.number()) && !was.has_number(u.number())
}

// The places of those who are stuck now and were not before.
fn newly_places(
    alloc: Global,
    list: &[ListedParticipant],
    was: &StuckTasks,
    stuck: &StuckTasks,
) -> Result<Vec<usize>, NoMemory>
    ensures are { IfOk result (λ places. map (participant_at list.now) places.items ≡ filter (is_newly_stuck (has_stuck_number was.now) (has_stuck_number stuck.now)) list.now) }
    ensures within { IfOk result (λ places. All (λ i. i < length list.now) places.items) }
{
    let mut places = Vec::new(alloc);
    for (at, u) in list.iter().enumerate() {
        if is_newly_stuck(u, was, stuck) {
            places.push(at)?;
        }
    }
    Ok(places)
}

// Where the first who is there with the name t stands.
fn place_there(list: &[ListedParticipant], t: &[u8]) -> Option<usize>
    ensures at { IfSome result (IsFirstAt (is_there_as t.now) list.now) }
    ensures none { IfNone result (list_any (is_there_as t.now) list.now ≡ false) }
{
    for (at, u) in list.iter().enumerate() {
        if u.is_there_as(t) {
            return Some(at);
        }
    }
    None
}

// Whether a task says that it waits.
fn says_wait(what: &Announcement) -> bool
    ensures { result ≡ says_wait (said_value what.now) }
{
    match what {
        Announcement::Joins(_, _) => false,
        Announcement::Arrives(_) => false,
        Announcement::Leaves(_) => false,
        Announcement::Waits(_, _) => true,
        Announcement::Goes => false,
        Announcement::Ends => false,
        Announcement::Stands => false,
    }
}

// Where who is there with the name t stands, if it says that it waits.
fn place_of_said(list: &[ListedParticipant], t: &[u8], what: &Announcement) -> Option<usize>
    ensures { IsFoundAt (λ u. says_wait (said_value what.now) && is_there_as t.now u) list.now result }
{
    if !says_wait(what) {
        return None;
    }
    place_there(list, t)
}

// Where the task stands that waits by the line, if one does.
fn place_of_wait(list: &[ListedParticipant], line: &TraceLine) -> Option<usize>
    ensures { IsFoundAt (waits_by (line_value line.now)) list.now result }
{
    match line {
        TraceLine::SaysNothing => None,
        TraceLine::AsksReport => None,
        TraceLine::AsksList => None,
        TraceLine::AreGone(_) => None,
        TraceLine::Announces(t, what, _) => place_of_said(list, t, what),
        TraceLine::PlaysAny(_) => None,
        TraceLine::PlaysOneOf(_, _) => None,
    }
}

// Where the task stands that waits by the line, and else this place.
fn place_told(list: &[ListedParticipant], line: &TraceLine, first: usize) -> usize
    requires { first < length list.now }
    ensures within { result < length list.now }
    ensures told { participant_at list.now result ≡ unwrap_or (find (waits_by (line_value line.now)) list.now) (participant_at list.now first) }
{
    match place_of_wait(list, line) {
        None => first,
        Some(at) => at,
    }
}

// Where the task stands on which the message on those at these places is, if there are any.
fn first_told(list: &[ListedParticipant], line: &TraceLine, places: &[usize]) -> Option<usize>
    requires { All (λ i. i < length list.now) places.now }
    ensures none { IfNone result (places.now ≡ []) }
    ensures some { IfSome result (IsFirstTold (waits_by (line_value line.now)) list.now places.now) }
{
    match places {
        [] => None,
        [first, ..] => {
            let told = place_told(list, line, *first);
            Some(told)
        }
    }
}

/// Those who are stuck now and were not before, if there are any. The state is the one behind the line.
pub(crate) fn newly_stuck(
    alloc: Global,
    state: &MonitorState,
    line: &TraceLine,
    was: &StuckTasks,
    stuck: &StuckTasks,
) -> Result<Option<NewlyStuck>, NoMemory>
    ensures none { IfOk result (λ found. IfNone found (those_only_in state.now (has_stuck_number stuck.now) (has_stuck_number was.now) ≡ [])) }
    ensures some { IfOk result (λ found. IfSome found (AreNewlyStuck (line_value line.now) state.now (has_stuck_number was.now) (has_stuck_number stuck.now))) }
{
    let list = state.participants();
    let places = newly_places(alloc, list, was, stuck)?;
    match first_told(list, line, &places) {
        None => Ok(None),
        Some(first) => Ok(Some(NewlyStuck { places, first })),
    }
}
