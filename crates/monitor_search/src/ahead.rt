// Lines of which it is known before they are taken that the same are stuck behind them.
ghost use Rattle.std.specs.Prelude.{◌≡◌, true};
ghost use Rattle.monitor_laws.specs.Lines.{Ends};
ghost use Rattle.trace_lines.specs.Values.{line_value, said_value};
ghost use Rattle.monitor_search.specs.calls.Ahead.{KeepsWhoeverIsStuck};
ghost use Rattle.monitor_search.specs.inside.Keeping.{IsFreedWildcard};

use crate::leaving::is_freed;
use monitor_state::MonitorState;
use trace_lines::{Announcement, TraceLine};

// Whether somebody says that it ends.
fn says_end(what: &Announcement) -> bool
    ensures { result ≡ true → said_value what.now ≡ Ends }
{
    match what {
        Announcement::Ends => true,
        Announcement::Joins(_, _)
        | Announcement::Arrives(_)
        | Announcement::Leaves(_)
        | Announcement::Waits(_, _)
        | Announcement::Goes
        | Announcement::Stands => false,
    }
}

// Whether who is there with the name t is a wildcard that somebody who runs may play.
fn is_freed_wildcard(state: &MonitorState, t: &[u8]) -> bool
    ensures { result ≡ true → IsFreedWildcard state.now.list t.now }
{
    match state.participant_there(t) {
        None => false,
        Some(u) => u.condition().is_live_wildcard() && is_freed(state, u.condition()),
    }
}

// Whether what t says is the end of a wildcard that somebody who runs may play.
fn ends_freed(state: &MonitorState, t: &[u8], what: &Announcement) -> bool
    ensures end { result ≡ true → said_value what.now ≡ Ends }
    ensures freed { result ≡ true → IsFreedWildcard state.now.list t.now }
{
    says_end(what) && is_freed_wildcard(state, t)
}

/// Whether it is known before this line is taken that the same are stuck behind it: a wildcard ends that somebody who runs may play.
pub fn keeps_stuck_ahead(state: &MonitorState, line: &TraceLine) -> bool
    ensures { result ≡ true → KeepsWhoeverIsStuck state.now (line_value line.now) }
{
    let list = state.participants();
    if list.is_empty() {
        return false;
    }
    match line {
        TraceLine::Announces(t, what, _) => ends_freed(state, t, what),
        TraceLine::SaysNothing
        | TraceLine::AsksReport
        | TraceLine::AsksList
        | TraceLine::AreGone(_)
        | TraceLine::PlaysAny(_)
        | TraceLine::PlaysOneOf(_, _) => false,
    }
}
