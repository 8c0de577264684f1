// Lines by which one task becomes stuck, and nobody else.
ghost use Rattle.std.specs.Prelude.{◌≡◌, IfOk, IfSome, true};
ghost use Rattle.trace_lines.specs.Values.{line_value};
ghost use Rattle.monitor_search.specs.Known.{AreStuckAfter};
ghost use Rattle.monitor_search.specs.inside.Joining.{JoinsAlone, JoinsAloneBy, known_with};

use crate::StuckTasks;
use crate::waits::waits_inside;
use armus_base::NoMemory;
use monitor_state::{ListedParticipant, MonitorState};
use std::alloc::Global;
use trace_lines::TraceLine;

// Whether u was not stuck, waits for somebody who may have stood in a closed set, or for itself, and nobody else needs it.
fn joins_alone(state: &MonitorState, was: &StuckTasks, u: &ListedParticipant) -> bool
    ensures { result ≡ true → JoinsAlone state.now.list was.now u.now }
{
    if was.has_number(u.number()) {
        return false;
    }
    waits_inside(state, was, u)
}

// Of the list those who were stuck, and who has this number.
fn stuck_with(
    alloc: Global,
    state: &MonitorState,
    was: &StuckTasks,
    number: u64,
) -> Result<StuckTasks, NoMemory>
    ensures { IfOk result (λ known. known ≡ known_with state.now.list was.now number) }
{
    let mut known = StuckTasks::none(alloc);
    for u in state.participants() {
        if was.has_number(u.number()) || u.number() == number {
            known.push(alloc, u)?;
        }
    }
    Ok(known)
}

// The stuck tasks after a line of t, where it becomes stuck and surely nobody else does.
fn joined_by(
    alloc: Global,
    state: &MonitorState,
    was: &StuckTasks,
    t: &[u8],
) -> Result<Option<StuckTasks>, NoMemory>
    ensures { IfOk result (λ found. IfSome found (JoinsAloneBy state.now.list was.now t.now)) }
{
    match state.participant_there(t) {
        None => Ok(None),
        Some(u) => {
            if !joins_alone(state, was, u) {
                return Ok(None);
            }
            let known = stuck_with(alloc, state, was, u.number())?;
            Ok(Some(known))
        }
    }
}

/// The stuck tasks after this line, where one task becomes stuck by it and surely nobody else does.
pub(crate) fn stuck_with_one(
    alloc: Global,
    state: &MonitorState,
    line: &TraceLine,
    was: &StuckTasks,
) -> Result<Option<StuckTasks>, NoMemory>
    ensures stuck { IfOk result (λ found. IfSome found (AreStuckAfter state.now (line_value line.now) was.now)) }
    ensures differs { IfOk result (λ found. IfSome found (λ known. known ≡ was.now → ⊥)) }
{
    match line {
        TraceLine::Announces(t, _, _) => {
            let found = joined_by(alloc, state, was, t)?;
            Ok(found)
        }
        TraceLine::SaysNothing
        | TraceLine::AsksReport
        | TraceLine::AsksList
        | TraceLine::AreGone(_)
        | TraceLine::PlaysAny(_)
        | TraceLine::PlaysOneOf(_, _) => Ok(None),
    }
}
