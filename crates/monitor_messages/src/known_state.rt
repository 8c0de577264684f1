// A state of which it is known who is stuck in it.
ghost use Rattle.std.specs.Prelude.{◌≡◌, ◌++◌, ℕ, Bool, false, true, IfNone, IfOk, IfSome, OnOk};
ghost use Rattle.std.specs.Option.{option_map};
ghost use Rattle.monitor_laws.specs.Faults.{first_fault};
ghost use Rattle.monitor_laws.specs.States.{TraceState, after_line, nobody_named};
ghost use Rattle.monitor_laws.specs.Lawful.{IsLawfulState};
ghost use Rattle.monitor_search.specs.calls.Ahead.{KeepsWhoeverIsStuck};
ghost use Rattle.monitor_search.specs.Known.{AreStuckAfter, AreStuckTasks, KeepsStuck, has_stuck_number};
ghost use Rattle.monitor_words.specs.Messages.{asked_words, report_words};
ghost use Rattle.monitor_words.specs.Stops.{TellsStuck};
ghost use Rattle.trace_lines.specs.Values.{line_value};
ghost use Rattle.monitor_messages.specs.Runs.{has_kept_waiting};
ghost use Rattle.monitor_messages.specs.inside.Changes.{IsKnownBefore, TellsChange};
ghost use Rattle.monitor_messages.specs.inside.Taken.{IsTaken};

use crate::changes::put_change;
use armus_base::NoMemory;
use monitor_rows::{is_anybody_kept_waiting, put_state_report, put_wait_list};
use monitor_search::{StuckTasks, keeps_stuck_ahead, stuck_after};
use monitor_state::MonitorState;
use monitor_words::FaultOfLine;
use std::alloc::Global;
use std::marker::Model;
use std::mem;
use trace_lines::TraceLine;

/// A state, and those that are stuck in it.
#[derive(Drop)]
pub(crate) struct KnownState {
    pub(crate) state: MonitorState,
    pub(crate) stuck: StuckTasks,
}

impl Model for KnownState {
    ghost use Rattle.monitor_laws.specs.States.{TraceState};
    ghost use Rattle.monitor_laws.specs.Lawful.{IsLawfulState};
    ghost use Rattle.monitor_search.specs.Known.{AreStuckTasks};

    ghost Value = { TraceState };

    ghost view = { λ k. k.state };

    ghost invariant = { λ k. IsLawfulState k.state × AreStuckTasks k.state k.stuck };
}

/// Appends what is told of those that become stuck by the line and of those that are stuck no more, where these were found, or the same as before. Answers who is
/// stuck now, and whether somebody became so.
pub(crate) fn told_by(
    alloc: Global,
    out: &mut Vec<u8>,
    state: &MonitorState,
    line: &TraceLine,
    was: StuckTasks,
    found: Option<StuckTasks>,
) -> Result<(StuckTasks, bool), NoMemory>
    requires same { IfNone found (KeepsStuck state.now (line_value line.now) was) }
    requires found { IfSome found (AreStuckAfter state.now (line_value line.now) was) }
    ensures { IfOk result (λ r. (s : TraceState) → IsKnownBefore s (line_value line.now) was state.now → AreStuckTasks state.now r.0 × TellsChange s (line_value line.now) was state.now r.0 out.old.items out.new.items r.1) }
{
    match found {
        None => Ok((was, false)),
        Some(stuck) => {
            let told = put_change(alloc, out, state, line, &was, &stuck)?;
            Ok((stuck, told))
        }
    }
}

/// The same, where they are to be found, or it is known that the same are stuck.
pub(crate) fn told_change(
    alloc: Global,
    out: &mut Vec<u8>,
    state: &MonitorState,
    line: &TraceLine,
    was: StuckTasks,
    keeps: bool,
) -> Result<(StuckTasks, bool), NoMemory>
    ensures { IfOk result (λ r. (s : TraceState) → IsKnownBefore s (line_value line.now) was state.now → (keeps ≡ true → KeepsWhoeverIsStuck s (line_value line.now)) → AreStuckTasks state.now r.0 × TellsChange s (line_value line.now) was state.now r.0 out.old.items out.new.items r.1) }
{
    if keeps {
        return Ok((was, false));
    }
    let found = stuck_after(alloc, state, line, &was)?;
    told_by(alloc, out, state, line, was, found)
}

// Appends what the line asks for: a report, a list, or nothing.
fn put_asked(
    alloc: Global,
    out: &mut Vec<u8>,
    state: &MonitorState,
    stuck: &StuckTasks,
    line: &TraceLine,
) -> Result<(), NoMemory>
    ensures { OnOk result (out.new.items ≡ out.old.items ++ asked_words state.now (has_stuck_number stuck.now) (line_value line.now)) }
{
    match line {
        TraceLine::AsksReport => put_state_report(alloc, out, state, stuck),
        TraceLine::AsksList => put_wait_list(alloc, out, state, stuck),
        _ => Ok(()),
    }
}

// Takes a line in a state of which it is known who is stuck, appends the message that it calls for, and answers whether somebody is told; or its first fault.
// Where memory is wanting, nothing is said of what is known.
fn take_known<'a>(
    alloc: Global,
    out: &mut Vec<u8>,
    state: &mut MonitorState,
    stuck: &mut StuckTasks,
    line: &TraceLine<'a>,
) -> Result<Result<bool, FaultOfLine<'a>>, NoMemory>
    requires { IsLawfulState state.old × AreStuckTasks state.old stuck.old }
    ensures known { OnOk result (IsLawfulState state.new × AreStuckTasks state.new stuck.new) }
    ensures taken { IfOk result (λ end. IsTaken false state.old (line_value line.now) state.new out.old.items out.new.items end) }
{
    let keeps = keeps_stuck_ahead(state, line);
    if let Some(fault) = state.take_line(alloc, line)? {
        return Ok(Err(fault));
    }
    let was = mem::replace(stuck, StuckTasks::none(alloc));
    let (found, told) = told_change(alloc, out, state, line, was, keeps)?;
    *stuck = found;
    put_asked(alloc, out, state, stuck, line)?;
    Ok(Ok(told))
}

impl KnownState {
    /// Nobody was named.
    pub(crate) fn new(alloc: Global) -> KnownState
        ensures { result ≡ nobody_named }
    {
        KnownState {
            state: MonitorState::new(alloc),
            stuck: StuckTasks::none(alloc),
        }
    }

    /// Appends the report of the state.
    pub(crate) fn put_report(&self, alloc: Global, out: &mut Vec<u8>) -> Result<(), NoMemory>
        ensures { OnOk result ((stuck : ℕ → Bool) × TellsStuck self.now stuck × (out.new.items ≡ out.old.items ++ report_words self.now stuck)) }
    {
        put_state_report(alloc, out, &self.state, &self.stuck)
    }

    /// Whether somebody is kept waiting.
    pub(crate) fn has_kept_waiting(&self) -> bool
        ensures { result ≡ has_kept_waiting self.now }
    {
        is_anybody_kept_waiting(&self.state)
    }

    /// Takes a line, appends the message that it calls for, and answers whether somebody is told; or its first fault.
    pub(crate) fn take_line<'a>(
        &mut self,
        alloc: Global,
        out: &mut Vec<u8>,
        line: &TraceLine<'a>,
    ) -> Result<Result<bool, FaultOfLine<'a>>, NoMemory>
        ensures { IfOk result (λ end. IsTaken false self.old (line_value line.now) self.new out.old.items out.new.items end) }
    {
        match take_known(alloc, out, &mut self.state, &mut self.stuck, line) {
            Ok(end) => Ok(end),
            Err(wanting) => {
                *self = KnownState::new(alloc);
                Err(wanting)
            }
        }
    }
}
