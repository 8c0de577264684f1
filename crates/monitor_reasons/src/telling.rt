// Whether a reason names a task that was stuck before.
ghost use Rattle.std.specs.Prelude.{◌≡◌, All, ◌<◌, length, map};
ghost use Rattle.std.specs.List.{list_any};
ghost use Rattle.monitor_words.specs.Messages.{others_told};
ghost use Rattle.monitor_search.specs.Known.{has_stuck_number};
ghost use Rattle.monitor_reasons.specs.Found.{ArePlacesOfList, participant_at, reason_value};

use crate::FoundReason;
use monitor_search::StuckTasks;
use monitor_state::{ListedParticipant, MonitorState};

// Whether one of these places has a task that was stuck.
fn is_any_old(list: &[ListedParticipant], was: &StuckTasks, places: &[usize]) -> bool
    requires { All (λ i. i < length list.now) places.now }
    ensures { result ≡ list_any (λ i. has_stuck_number was.now (participant_at list.now i).number) places.now }
{
    for place in places {
        if was.has_number(list[*place].number()) {
            return true;
        }
    }
    false
}

/// Whether another of the circle, or the stuck task that the reason names, was stuck before.
pub fn tells_old(state: &MonitorState, was: &StuckTasks, found: &FoundReason) -> bool
    requires { ArePlacesOfList state.now.list found.now }
    ensures { result ≡ list_any (λ u. has_stuck_number was.now u.number) (others_told (reason_value state.now.list found.now)) }
{
    let list = state.participants();
    match found {
        FoundReason::InCircle(places) => is_any_old(list, was, places),
        FoundReason::EndedKeeps(_) => false,
        FoundReason::StuckStops(place) => was.has_number(list[*place].number()),
        FoundReason::SomebodyMissing => false,
    }
}
