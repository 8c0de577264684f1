// The command `replay`.
ghost use Rattle.std.specs.Prelude.{◌≡◌, ◌≤◌, ◌<◌, ◌+◌, ◌↔◌, IfErr, IfOk, IsTrue, length};
ghost use Rattle.armus_top.specs.Replays.{IsReplayFault, IsReplayOf, IsReplayedBy, IsShort};
ghost use Rattle.armus_top.specs.declared.replaying.TheConstants.{MAX_REPLAY_BYTES};
ghost use Rattle.armus_top.specs.inside.Answers.{IsEnd, IsEndOf};
ghost use Rattle.command_line.specs.declared.command.Command.TheVariants.{Replay};
ghost use Rattle.program_io.specs.calls.ExitNumbers.{number_of_status};

use crate::output::{InputEnd, Output};
use crate::programs::checked_in;
use pl_syntax::MAX_PARSED_BYTES;
use program_io::{MAX_TEXT_BYTES, status_of};
use report::Refusal;
use schedule::{ReplayEnd, Replayed, ScheduleFault, read_lines, replay_text, split_input};
use std::alloc::Global;

/// The most bytes of the input of `replay`: a text and a schedule.
pub const MAX_REPLAY_BYTES: usize = 16_777_216;

const _: () = prove!(MAX_TEXT_BYTES + 1 <= MAX_PARSED_BYTES);

// Whether the text is no longer than a text may be, where one last LF is not counted.
fn is_short(text: &[u8]) -> bool
    ensures short { IsTrue result ↔ IsShort text.now }
    ensures few { IsTrue result → length text.now ≤ MAX_TEXT_BYTES + 1 }
{
    match text.split_last() {
        Some((last, front)) => {
            if *last == b'\n' {
                front.len() <= MAX_TEXT_BYTES
            } else {
                text.len() <= MAX_TEXT_BYTES
            }
        }
        None => true,
    }
}

// The refusal of a line at fault.
fn line_refused(fault: ScheduleFault) -> Refusal
    ensures { result ≡ Refusal.Schedule (record { line = fault.line; kind = fault.kind }) }
{
    let ScheduleFault { line, kind } = fault;
    Refusal::Schedule(report::ScheduleFault { line, kind })
}

// What the schedule leads to over the text's plan, or why there is no answer.
fn replayed_in(alloc: Global, text: &[u8], schedule: &[u8]) -> Result<Replayed, InputEnd>
    requires short { length text.now + length schedule.now ≤ MAX_REPLAY_BYTES }
    ensures done { IfOk result (IsReplayedBy text.now schedule.now) }
    ensures refused { IfErr result (IsEnd (IsReplayFault text.now schedule.now)) }
{
    if !is_short(text) {
        return Err(InputEnd::Refused(Refusal::Length));
    }
    let checked = match checked_in(alloc, text) {
        Ok(checked) => checked,
        Err(end) => return Err(end),
    };
    let lines = read_lines(alloc, schedule)?;
    match schedule::replay(alloc, &checked.plan, lines.as_slice()) {
        Ok(done) => Ok(done),
        Err(ReplayEnd::Schedule(fault)) => Err(InputEnd::Refused(line_refused(fault))),
        Err(ReplayEnd::NoMemory) => Err(InputEnd::NoMemory),
    }
}

// Whether a task is dead in the state at the end.
fn has_dead(done: &Replayed) -> bool
    ensures { IsTrue result ↔ (0 < length done.now.dead) }
{
    !done.dead.as_slice().is_empty()
}

/// What the passes and the end of the replay of a text with a schedule say, or why there is no answer.
pub(crate) fn replay(alloc: Global, input: &[u8]) -> Result<Output, InputEnd>
    requires short { length input.now ≤ MAX_REPLAY_BYTES }
    ensures answer { IfOk result (λ o. IsReplayOf input.now (number_of_status o.status) o.text) }
    ensures refused { IfErr result (IsEndOf Replay input.now) }
{
    let (text, schedule) = split_input(input);
    let done = replayed_in(alloc, text, schedule)?;
    let text = replay_text(alloc, &done)?;
    Ok(Output {
        text,
        status: status_of(has_dead(&done)),
    })
}
