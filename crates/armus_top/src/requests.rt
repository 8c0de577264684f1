// The command that words mean, and its input.
ghost use Rattle.std.specs.Prelude.{◌≡◌, IfErr, IfOk, None, Some, map, string_bytes};
ghost use Rattle.armus_top.specs.Commands.{limit_of};
ghost use Rattle.armus_top.specs.Headline.{Ends, IsCall};
ghost use Rattle.program_io.specs.calls.Passages.{passage};
ghost use Rattle.command_line.specs.Commands.{Means};
ghost use Rattle.armus_top.specs.inside.Reading.{EndsUnread, IsRead, IsReadFor};
ghost use Rattle.program_io.specs.calls.ExitNumbers.{number_of_status};

use crate::replaying::MAX_REPLAY_BYTES;
use crate::writing::refuse;
use armus_base::{List, ReadEnd, Sink, Source, read_all};
use command_line::{Command, command_in};
use program_io::{ExitStatus, MAX_TEXT_BYTES, finish};
use report::Refusal;
use std::alloc::Global;

const USAGE: &str = "usage: armus check|run|avoid|record|replay|gen|clock|pool\n";

/// A command with its input.
#[derive(Drop)]
pub(crate) struct CommandInput {
    pub(crate) command: Command,
    pub(crate) input: List<u8>,
}

// The most bytes of the input of a command, where it reads one.
fn limit_of(command: &Command) -> Option<usize>
    ensures { result ≡ limit_of command.now }
{
    match command {
        Command::Gen { .. } => None,
        Command::Replay => Some(MAX_REPLAY_BYTES),
        Command::Check { .. }
        | Command::Run { .. }
        | Command::Avoid { .. }
        | Command::Record { .. }
        | Command::Clock { .. }
        | Command::Pool { .. } => Some(MAX_TEXT_BYTES),
    }
}

// The whole input, of at most `limit` bytes, or how a call ends that cannot have it. An input that is longer is told in a line.
fn input_of<S: Source, K: Sink>(
    alloc: Global,
    limit: usize,
    src: &mut S,
    out: &mut K,
) -> Result<List<u8>, ExitStatus>
    ensures read { IfOk result (IsRead limit (passage S.left S.faults src.old src.new)) }
    ensures unwritten { IfOk result (λ _. out.new ≡ out.old) }
    ensures ends { IfErr result (λ status. EndsUnread limit (passage S.left S.faults src.old src.new) (passage K.taken K.faults out.old out.new) (number_of_status status)) }
    ensures silent { IfErr result (λ status. number_of_status status ≡ 4 → out.new ≡ out.old) }
    ensures short { IfErr result (λ status. number_of_status status ≡ 6 → out.new ≡ out.old) }
{
    match read_all(alloc, src, limit) {
        Ok(input) => Ok(input),
        Err(ReadEnd::Fault) => Err(ExitStatus::ReadFailed),
        Err(ReadEnd::TooLong) => Err(refuse(alloc, &Refusal::Length, out)),
        Err(ReadEnd::NoMemory) => Err(ExitStatus::OutOfMemory),
    }
}

// The input of a command, which is empty where it reads none, or how the call ends.
fn input_for<S: Source, K: Sink>(
    alloc: Global,
    command: &Command,
    src: &mut S,
    out: &mut K,
) -> Result<List<u8>, ExitStatus>
    ensures read { IfOk result (IsReadFor command.now (passage S.left S.faults src.old src.new)) }
    ensures same { limit_of command.now ≡ None → src.new ≡ src.old }
    ensures unwritten { IfOk result (λ _. out.new ≡ out.old) }
    ensures ends { IfErr result (λ status. Ends (Some command.now) (passage S.left S.faults src.old src.new) (passage K.taken K.faults out.old out.new) (number_of_status status)) }
    ensures silent { IfErr result (λ status. number_of_status status ≡ 4 → out.new ≡ out.old) }
    ensures short { IfErr result (λ status. number_of_status status ≡ 6 → out.new ≡ out.old) }
{
    match limit_of(command) {
        Some(limit) => input_of(alloc, limit, src, out),
        None => Ok(List::from_vec(Vec::new(alloc))),
    }
}

/// The command that the words mean, with its input, or how the call ends: where they mean none, with the usage line.
pub(crate) fn request_of<S: Source, K: Sink>(
    alloc: Global,
    words: &[String],
    src: &mut S,
    out: &mut K,
) -> Result<CommandInput, ExitStatus>
    ensures means { IfOk result (λ r. Means (map string_bytes words.now) (Some r.command)) }
    ensures read { IfOk result (λ r. IsReadFor r.command (passage S.left S.faults src.old src.new) r.input) }
    ensures same { IfOk result (λ r. limit_of r.command ≡ None → src.new ≡ src.old) }
    ensures unwritten { IfOk result (λ _. out.new ≡ out.old) }
    ensures ends { IfErr result (λ status. IsCall (map string_bytes words.now) (passage S.left S.faults src.old src.new)
        (passage K.taken K.faults out.old out.new) (src.new ≡ src.old) (out.new ≡ out.old) (number_of_status status)) }
{
    match command_in(alloc, words) {
        Ok(Some(command)) => match input_for(alloc, &command, src, out) {
            Ok(input) => Ok(CommandInput { command, input }),
            Err(status) => Err(status),
        },
        Ok(None) => Err(finish(out, USAGE.as_bytes(), ExitStatus::Usage)),
        Err(_) => Err(ExitStatus::OutOfMemory),
    }
}
