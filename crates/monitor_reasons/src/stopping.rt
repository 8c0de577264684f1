// Who stops whom.
ghost use Rattle.std.specs.Prelude.{◌≡◌, ◌<◌, ◌&&◌, ◌==◌, ℕ, Contains, true, false, length};
ghost use Rattle.std.specs.List.{list_any};
ghost use Rattle.monitor_laws.specs.Stuck.{has_phase_below};
ghost use Rattle.monitor_words.specs.Stops.{impedes_wait, keeps_waiting, lone_task, stands_for, waited_for};
ghost use Rattle.monitor_state.specs.NumberedLists.{AreAscending};
ghost use Rattle.monitor_state.specs.Values.{condition_value};
ghost use Rattle.monitor_search.specs.Known.{has_stuck_number};
ghost use Rattle.monitor_reasons.specs.Found.{participant_at};
ghost use Rattle.monitor_reasons.specs.inside.Distances.{stops_at};
ghost use Rattle.monitor_reasons.specs.inside.Listings.{is_one_word, listing};
ghost use Rattle.monitor_reasons.specs.inside.PhaserPlaces.{ArePlayedBy};

use monitor_search::StuckTasks;
use monitor_state::{ListedCondition, ListedParticipant};

// Whether it is a member of phaser p with a phase below n.
fn has_phase_below(u: &ListedParticipant, p: &[u8], n: u32) -> bool
    ensures { result ≡ has_phase_below u.now p.now n }
{
    match u.phase_on(p) {
        Some(m) => m < n,
        None => false,
    }
}

// Whether it keeps whoever is in this condition waiting.
fn impedes(u: &ListedParticipant, condition: &ListedCondition) -> bool
    ensures { result ≡ impedes_wait u.now (waited_for (condition_value condition.now)) }
{
    match condition {
        ListedCondition::Waiting(p, n) => has_phase_below(u, p, *n),
        ListedCondition::Running => false,
        ListedCondition::Ended => false,
        ListedCondition::AnyTask => false,
        ListedCondition::OneOf(_, _) => false,
    }
}

/// Whether u keeps t waiting.
pub(crate) fn keeps_waiting(u: &ListedParticipant, t: &ListedParticipant) -> bool
    ensures { result ≡ keeps_waiting u.now t.now }
{
    impedes(u, t.condition())
}

// Whether the names are one name.
fn is_one_name(names: &[u8]) -> bool
    ensures { result ≡ is_one_word names.now }
{
    !names.contains(&b' ')
}

/// The number of the task of a wildcard in this condition whose last line has one name; none of any other.
pub(crate) fn lone_task(condition: &ListedCondition) -> &[u64]
    ensures { result.now ≡ lone_task (condition_value condition.now) }
{
    match condition {
        ListedCondition::OneOf(names, tasks) => { if is_one_name(names) { tasks } else { &[] } }
        ListedCondition::Running => &[],
        ListedCondition::Waiting(_, _) => &[],
        ListedCondition::Ended => &[],
        ListedCondition::AnyTask => &[],
    }
}

// Whether the task with this number is the task of a wildcard in this condition, whose last line has one name.
fn is_lone_task(condition: &ListedCondition, number: u64) -> bool
    ensures { result ≡ list_any (λ k. k == number) (lone_task (condition_value condition.now)) }
{
    lone_task(condition).contains(&number)
}

/// Whether w is u, or a wildcard whose task u is.
pub(crate) fn stands_for(w: &ListedParticipant, u: &ListedParticipant) -> bool
    ensures { result ≡ stands_for w.now u.now }
{
    w.number() == u.number() || is_lone_task(w.condition(), u.number())
}

// Whether w stands for u and keeps t waiting.
fn keeps_for(w: &ListedParticipant, u: &ListedParticipant, t: &ListedParticipant) -> bool
    ensures { result ≡ (stands_for w.now u.now && keeps_waiting w.now t.now) }
{
    stands_for(w, u) && keeps_waiting(w, t)
}

// Whether who stands at this place stands for the task at u, and keeps the one at t waiting.
fn keeps_at(list: &[ListedParticipant], place: usize, u: usize, t: usize) -> bool
    requires from { t < length list.now }
    requires to { u < length list.now }
    ensures on { result ≡ true → list_any (λ w. stands_for w (participant_at list.now u) && keeps_waiting w (participant_at list.now t)) list.now ≡ true }
    ensures off { result ≡ false → place < length list.now → (stands_for (participant_at list.now place) (participant_at list.now u) && keeps_waiting (participant_at list.now place) (participant_at list.now t)) ≡ false }
{
    place < list.len() && keeps_for(&list[place], &list[u], &list[t])
}

// Whether somebody at these places stands for the task at u, and keeps the one at t waiting.
fn some_keeps_for(list: &[ListedParticipant], places: &[usize], u: usize, t: usize) -> bool
    requires from { t < length list.now }
    requires to { u < length list.now }
    ensures on { result ≡ true → list_any (λ w. stands_for w (participant_at list.now u) && keeps_waiting w (participant_at list.now t)) list.now ≡ true }
    ensures off { result ≡ false → (i : ℕ) → Contains places.now i → i < length list.now → (stands_for (participant_at list.now i) (participant_at list.now u) && keeps_waiting (participant_at list.now i) (participant_at list.now t)) ≡ false }
{
    for place in places {
        if keeps_at(list, *place, u, t) {
            return true;
        }
    }
    false
}

// Whether somebody of the list who stands for the task at u keeps the one at t waiting. The wildcards of the one at u stand at these places; mostly it keeps t
// waiting itself.
fn is_kept_for(list: &[ListedParticipant], played: &[usize], u: usize, t: usize) -> bool
    requires from { t < length list.now }
    requires to { u < length list.now }
    requires ascending { AreAscending list.now }
    requires played { ArePlayedBy list.now (participant_at list.now u).number played.now }
    ensures { result ≡ list_any (λ w. stands_for w (participant_at list.now u) && keeps_waiting w (participant_at list.now t)) list.now }
{
    keeps_waiting(&list[u], &list[t]) || some_keeps_for(list, played, u, t)
}

/// Whether the task at u stops the one at t: it is stuck, and somebody of the list who stands for it keeps the one at t waiting. The wildcards of the one at u
/// stand at these places.
pub(crate) fn stops(
    list: &[ListedParticipant],
    stuck: &StuckTasks,
    played: &[usize],
    u: usize,
    t: usize,
) -> bool
    requires from { t < length list.now }
    requires to { u < length list.now }
    requires ascending { AreAscending list.now }
    requires played { ArePlayedBy list.now (participant_at list.now u).number played.now }
    ensures { result ≡ stops_at (listing list.now) (has_stuck_number stuck.now) u t }
{
    stuck.has_number(list[u].number()) && is_kept_for(list, played, u, t)
}
