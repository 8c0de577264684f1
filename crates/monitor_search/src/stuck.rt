// Who is stuck in a state.
ghost use Rattle.std.specs.Prelude.{◌≡◌, IfNone, IfOk, IfSome};
ghost use Rattle.std.specs.List.{list_any};
ghost use Rattle.monitor_laws.specs.Faults.{waits_now};
ghost use Rattle.trace_lines.specs.Values.{line_value};
ghost use Rattle.monitor_search.specs.Known.{AreStuckAfter, AreStuckTasks, KeepsStuck};

use crate::StuckTasks;
use crate::joining::stuck_with_one;
use crate::leaving::keeps_stuck;
use crate::parting::{closed_parting, waiting_of};
use armus_base::NoMemory;
use monitor_state::{ListedParticipant, MonitorState};
use std::alloc::Global;
use trace_lines::TraceLine;

/// Whether a task of the list waits.
pub(crate) fn somebody_waits(list: &[ListedParticipant]) -> bool
    ensures { result ≡ list_any (λ u. waits_now u.condition) list.now }
{
    list.iter().any(|u| u.condition().waits())
}

// The stuck tasks of a state, in list order.
fn stuck_tasks(alloc: Global, state: &MonitorState) -> Result<StuckTasks, NoMemory>
    ensures { IfOk result (λ known. AreStuckTasks state.now known) }
{
    if !somebody_waits(state.participants()) {
        return Ok(StuckTasks::none(alloc));
    }
    let parting = closed_parting(alloc, state)?;
    let known = waiting_of(alloc, &parting.inside)?;
    Ok(known)
}

/// The stuck tasks of the state after a line that is legal, in list order, where `was` are those of the state before it; `None` where they are the same.
pub fn stuck_after(
    alloc: Global,
    state: &MonitorState,
    line: &TraceLine,
    was: &StuckTasks,
) -> Result<Option<StuckTasks>, NoMemory>
    ensures same { IfOk result (λ found. IfNone found (KeepsStuck state.now (line_value line.now) was.now)) }
    ensures found { IfOk result (λ found. IfSome found (AreStuckAfter state.now (line_value line.now) was.now)) }
    ensures differs { IfOk result (λ found. IfSome found (λ known. known ≡ was.now → ⊥)) }
{
    if keeps_stuck(state, line, was) {
        return Ok(None);
    }
    if let Some(known) = stuck_with_one(alloc, state, line, was)? {
        return Ok(Some(known));
    }
    let known = stuck_tasks(alloc, state)?;
    if known.is_same(was) {
        return Ok(None);
    }
    Ok(Some(known))
}
