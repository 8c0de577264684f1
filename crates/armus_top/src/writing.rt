// Writing what a command answers.
ghost use Rattle.std.specs.Prelude.{◌≡◌, ◌≢◌};
ghost use Rattle.command_line.specs.declared.command.Command.{Command as Asked};
ghost use Rattle.program_io.specs.Texts.{Text};
ghost use Rattle.program_io.specs.calls.Passages.{passage};
ghost use Rattle.armus_top.specs.inside.Answers.{AnswersBy, IsEndOf};
ghost use Rattle.program_io.specs.calls.ExitNumbers.{number_of_status};
ghost use Rattle.armus_top.specs.inside.Writing.{Answered, TellsRefusal, RefusesClocks};

use crate::output::{InputEnd, Output};
use armus_base::Sink;
use clock_pl::{ClockFault, clock_line};
use program_io::{ExitStatus, finish};
use report::{Refusal, refusal_line};
use std::alloc::Global;

/// Writes the line that says why an input is refused.
pub(crate) fn refuse<K: Sink>(alloc: Global, why: &Refusal, out: &mut K) -> ExitStatus
    ensures done { TellsRefusal why.now (passage K.taken K.faults out.old out.new) (number_of_status result) }
    ensures silent { number_of_status result ≢ 4 }
    ensures unwritten { number_of_status result ≡ 6 → out.new ≡ out.old }
{
    match refusal_line(alloc, why) {
        Ok(line) => finish(out, line.as_slice(), ExitStatus::Refused),
        Err(_) => ExitStatus::OutOfMemory,
    }
}

// Writes the line of a fault of the unfolding of a clock text.
fn refuse_clocks<K: Sink>(alloc: Global, fault: &ClockFault, out: &mut K) -> ExitStatus
    ensures done { RefusesClocks fault.now (passage K.taken K.faults out.old out.new) (number_of_status result) }
    ensures silent { number_of_status result ≢ 4 }
    ensures unwritten { number_of_status result ≡ 6 → out.new ≡ out.old }
{
    match clock_line(alloc, fault) {
        Ok(line) => finish(out, line.as_slice(), ExitStatus::Refused),
        Err(_) => ExitStatus::OutOfMemory,
    }
}

// Writes the line that says why a command has no answer.
fn write_end<K: Sink>(alloc: Global, end: InputEnd, out: &mut K) -> ExitStatus
    ensures done { (command : Asked) (input : Text) → IsEndOf command input end
        → Answered command input (passage K.taken K.faults out.old out.new) (number_of_status result) }
    ensures silent { number_of_status result ≢ 4 }
    ensures unwritten { number_of_status result ≡ 6 → out.new ≡ out.old }
{
    match end {
        InputEnd::Refused(why) => refuse(alloc, &why, out),
        InputEnd::Clock(fault) => refuse_clocks(alloc, &fault, out),
        InputEnd::NoMemory => ExitStatus::OutOfMemory,
    }
}

/// Writes what a command answers: its output, or the line that says why there is none. Where memory is wanting nothing is written.
pub(crate) fn write_answer<K: Sink>(
    alloc: Global,
    answer: Result<Output, InputEnd>,
    out: &mut K,
) -> ExitStatus
    ensures done { (command : Asked) (input : Text) → AnswersBy command input answer
        → Answered command input (passage K.taken K.faults out.old out.new) (number_of_status result) }
    ensures silent { (command : Asked) (input : Text) → AnswersBy command input answer → number_of_status result ≢ 4 }
    ensures unwritten { (command : Asked) (input : Text) → AnswersBy command input answer → number_of_status result ≡ 6 → out.new ≡ out.old }
{
    match answer {
        Ok(output) => finish(out, output.text.as_slice(), output.status),
        Err(end) => write_end(alloc, end, out),
    }
}
