// The report of a state.
ghost use Rattle.std.specs.Prelude.{◌≡◌, ◌++◌, OnOk};
ghost use Rattle.monitor_words.specs.Messages.{report_words};
ghost use Rattle.monitor_search.specs.Known.{has_stuck_number};

use crate::counts::counts_of_state;
use crate::rows::report_rows;
use armus_base::NoMemory;
use monitor_search::StuckTasks;
use monitor_state::MonitorState;
use monitor_words::put_report;
use std::alloc::Global;

/// Appends the report of a state: how many tasks run, wait, are stuck and have ended, and the rows of those that are kept waiting.
pub fn put_state_report(
    alloc: Global,
    out: &mut Vec<u8>,
    state: &MonitorState,
    stuck: &StuckTasks,
) -> Result<(), NoMemory>
    ensures { OnOk result (out.new.items ≡ out.old.items ++ report_words state.now (has_stuck_number stuck.now)) }
{
    let rows = report_rows(alloc, state, stuck)?;
    put_report(alloc, out, counts_of_state(state, stuck), &rows)?;
    Ok(())
}
