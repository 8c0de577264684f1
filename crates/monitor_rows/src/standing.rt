// How a waiting task stands.
ghost use Rattle.std.specs.Prelude.{◌≡◌, Contains};
ghost use Rattle.std.specs.List.{list_any};
ghost use Rattle.monitor_laws.specs.Stuck.{has_phase_below};
ghost use Rattle.monitor_words.specs.Messages.{is_kept_waiting};
ghost use Rattle.monitor_words.specs.Stops.{keeps_waiting};
ghost use Rattle.monitor_words.specs.calls.Values.{wait_standing};
ghost use Rattle.monitor_search.specs.Known.{has_stuck_number};
ghost use Rattle.monitor_rows.specs.inside.LeastPhases.{AreLeastAwaited};

use crate::least_phases::is_kept_by_least;
use monitor_search::StuckTasks;
use monitor_state::{ListedCondition, ListedParticipant, MonitorState};
use monitor_words::WaitStanding;
use std::collections::HashMap;

// Whether it is a member of phaser p with a phase below n.
fn has_phase_below(u: &ListedParticipant, p: &[u8], n: u32) -> bool
    ensures { result ≡ has_phase_below u.now p.now n }
{
    match u.phase_on(p) {
        Some(m) => m < n,
        None => false,
    }
}

/// Whether u keeps t waiting.
pub(crate) fn keeps_waiting(u: &ListedParticipant, t: &ListedParticipant) -> bool
    ensures { result ≡ keeps_waiting u.now t.now }
{
    match t.condition() {
        ListedCondition::Waiting(p, n) => has_phase_below(u, p, *n),
        _ => false,
    }
}

// Whether somebody of the list keeps t waiting.
fn is_kept_by(list: &[ListedParticipant], t: &ListedParticipant) -> bool
    ensures { result ≡ list_any (λ u. keeps_waiting u t.now) list.now }
{
    t.condition().waits() && list.iter().any(|u| keeps_waiting(u, t))
}

// Whether somebody of the state keeps t waiting.
fn is_kept_in(state: &MonitorState, t: &ListedParticipant) -> bool
    ensures { result ≡ is_kept_waiting state.now t.now }
{
    is_kept_by(state.participants(), t)
}

/// Whether a task of the state is kept waiting.
pub fn is_anybody_kept_waiting(state: &MonitorState) -> bool
    ensures { result ≡ list_any (is_kept_waiting state.now) state.now.list }
{
    state.participants().iter().any(|t| is_kept_in(state, t))
}

/// How t stands in the state, if it waits.
pub(crate) fn standing_in(
    state: &MonitorState,
    stuck: &StuckTasks,
    least: &HashMap<&[u8], u32>,
    t: &ListedParticipant,
) -> WaitStanding
    requires least { AreLeastAwaited state.now.list least.now }
    requires listed { Contains state.now.list t.now }
    ensures { result ≡ wait_standing state.now (has_stuck_number stuck.now) t.now }
{
    if stuck.has_number(t.number()) {
        return WaitStanding::Stuck;
    }
    if is_kept_by_least(state, least, t) {
        return WaitStanding::Held;
    }
    WaitStanding::Free
}
