// The message on those that become stuck by a line, and on those that are stuck no more.
ghost use Rattle.std.specs.Prelude.{◌≡◌, ◌++◌, ℕ, IfOk, OnOk, List};
ghost use Rattle.monitor_laws.specs.States.{TraceState};
ghost use Rattle.trace_lines.specs.Values.{line_value};
ghost use Rattle.monitor_words.specs.Messages.{those_only_in};
ghost use Rattle.monitor_search.specs.Known.{has_stuck_number};
ghost use Rattle.monitor_rows.specs.KnownNames.{known_only_in, names_of_known};
ghost use Rattle.monitor_messages.specs.inside.Changes.{TakesTo, TellsChange};
ghost use Rattle.monitor_messages.specs.inside.Newly.{TellsNewly, gone_words, waits_by};

use crate::newly::newly_stuck;
use crate::telling::put_newly_stuck;
use armus_base::NoMemory;
use monitor_rows::names_of_known;
use monitor_search::StuckTasks;
use monitor_state::MonitorState;
use monitor_words::put_resolved;
use std::alloc::Global;
use trace_lines::TraceLine;

// Appends the message on those that were stuck and are not now, if there are any.
fn put_gone(
    alloc: Global,
    out: &mut Vec<u8>,
    was: &StuckTasks,
    stuck: &StuckTasks,
) -> Result<(), NoMemory>
    ensures { OnOk result (out.new.items ≡ out.old.items ++ gone_words (names_of_known (known_only_in was.now stuck.now))) }
{
    match names_of_known(alloc, was, stuck)? {
        None => Ok(()),
        Some(names) => {
            put_resolved(alloc, out, &names)?;
            Ok(())
        }
    }
}

// Appends the message on those that become stuck by the line, if there are any, and answers whether there are.
fn put_newly(
    alloc: Global,
    out: &mut Vec<u8>,
    state: &MonitorState,
    line: &TraceLine,
    was: &StuckTasks,
    stuck: &StuckTasks,
) -> Result<bool, NoMemory>
    ensures { IfOk result (λ told. (words : List ℕ) × (out.new.items ≡ out.old.items ++ words) × TellsNewly (waits_by (line_value line.now)) state.now (has_stuck_number was.now) (has_stuck_number stuck.now) (those_only_in state.now (has_stuck_number stuck.now) (has_stuck_number was.now)) words told) }
{
    match newly_stuck(alloc, state, line, was, stuck)? {
        None => Ok(false),
        Some(newly) => {
            put_newly_stuck(alloc, out, state, was, stuck, &newly)?;
            Ok(true)
        }
    }
}

/// Appends the message on those that are stuck no more behind the line, and then the one on those that become stuck by it, and answers whether somebody does. The
/// state is the one behind the line, and `was` are those that were stuck before.
pub(crate) fn put_change(
    alloc: Global,
    out: &mut Vec<u8>,
    state: &MonitorState,
    line: &TraceLine,
    was: &StuckTasks,
    stuck: &StuckTasks,
) -> Result<bool, NoMemory>
    ensures { IfOk result (λ told. (s : TraceState) → TakesTo s (line_value line.now) was.now state.now stuck.now → TellsChange s (line_value line.now) was.now state.now stuck.now out.old.items out.new.items told) }
{
    put_gone(alloc, out, was, stuck)?;
    let told = put_newly(alloc, out, state, line, was, stuck)?;
    Ok(told)
}
