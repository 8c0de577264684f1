// Who of a list has a number.
ghost use Rattle.std.specs.Prelude.{◌≡◌, ◌<◌, true, Contains, IfNone, IfSome, length, slice_index_or};
ghost use Rattle.monitor_laws.specs.Lawful.{AreAscending};
ghost use Rattle.monitor_laws.specs.States.{Participant as Listed};
ghost use Rattle.monitor_search.specs.inside.Numbers.{IsFirstListed};

use monitor_state::{ListedParticipant, MonitorState};

// Where who has this number stands, if nobody behind the first one was taken out.
fn likely_place(list: &[ListedParticipant], number: u64) -> usize {
    match list.first() {
        None => 0,
        Some(first) => number.saturating_sub(first.number()) as usize,
    }
}

// Whether who stands at this place has this number.
fn is_numbered_at(list: &[ListedParticipant], number: u64, at: usize) -> bool
    ensures within { result ≡ true → at < length list.now }
    ensures number { result ≡ true → (u : Listed) → (slice_index_or list.now at u).number ≡ number }
{
    at < list.len() && list[at].number() == number
}

// The first place from which on nobody has a lower number.
fn first_listed(list: &[ListedParticipant], number: u64) -> usize
    requires { AreAscending list.now }
    ensures { IsFirstListed list.now number result }
{
    let likely = likely_place(list, number);
    if is_numbered_at(list, number, likely) {
        return likely;
    }
    list.partition_point(|u| u.number() < number)
}

/// Who of the list has this number.
pub(crate) fn numbered(state: &MonitorState, number: u64) -> Option<&ListedParticipant>
    ensures listed { IfSome result (λ u. Contains state.now.list u.now) }
    ensures number { IfSome result (λ u. u.now.number ≡ number) }
    ensures one { IfSome result (λ u. (v : Listed) → Contains state.now.list v → v.number ≡ number → v ≡ u.now) }
    ensures none { IfNone result ((u : Listed) → Contains state.now.list u → u.number ≡ number → ⊥) }
{
    let list = state.participants();
    let at = first_listed(list, number);
    if at >= list.len() {
        return None;
    }
    let u = &list[at];
    if u.number() != number {
        return None;
    }
    Some(u)
}
