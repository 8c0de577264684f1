// The top call.
ghost use Rattle.std.specs.Prelude.{◌≡◌};
ghost use Rattle.program_io.specs.calls.Passages.{passage};
ghost use Rattle.program_io.specs.calls.ExitNumbers.{number_of_status};
ghost use Rattle.explain.specs.Outputs.{IsExplainCall};
ghost use Rattle.explain.specs.Requests.{asked};
ghost use Rattle.explain.specs.calls.Requested.{asked_for, form_named};

use crate::answer::{AnswerEnd, WantedOutput};
use crate::answering::answer_source;
use crate::extent::Extent;
use crate::request::{Request, request_of};
use armus_base::{List, Sink, Source};
use program_io::{ExitStatus, finish};
use std::alloc::Global;

const USAGE: &str = "usage: armus_explain [--all|--short] [run|steps|avoid|clock] [FILE]\n";

const VERSION: &str = "armus_explain 2.0.0\n";

const HELP: &str = "\
usage: armus_explain [--all|--short] [run|steps|avoid|clock] [FILE]
Reads a text from FILE, or from standard input where there is none, and tells which
of its tasks wait for ever, where, for whom, and why. A text that begins with a word
of clocks, or whose FILE ends with .clock, is one of clocks: it tells the same of its
activities. Every other text is one of PL.
With steps it first shows the run in which the task with the least number that may
go on makes the next step: a line for each step, and at most 10000 of them.
With avoid it tells which tasks of a PL text are refused, where, in the run of one
worker that avoids deadlock, and which deadlock each of them would have closed.
With clock it reads any text as one of clocks.
Of an explanation at most 60 lines are shown, and at most 499 bytes of each line;
with --all in front all of it is, and with --short its first lines and its hint.
A text that is refused gets the place of its first fault and what is wrong there.
Status: 0 nobody waits for ever, 1 somebody does or is refused, 2 other words,
3 the text is refused, 4 it cannot be read, 5 it cannot be written, 6 no memory.
";

// Writes the explanation or the refusal of what the source gives.
fn explain_source<S: Source, K: Sink>(
    alloc: Global,
    wanted: WantedOutput,
    extent: Extent,
    file: Option<&[u8]>,
    src: &mut S,
    out: &mut K,
) -> ExitStatus
    ensures call { IsExplainCall (asked_for wanted (form_named file.entry extent)) (passage S.left S.faults src.old src.new) (passage K.taken K.faults out.old out.new)
        (src.new ≡ src.old) (out.new ≡ out.old) (number_of_status result) }
{
    match answer_source(alloc, wanted, extent, file, src) {
        Ok(answer) => finish(out, answer.lines.as_slice(), answer.status),
        Err(AnswerEnd::Fault) => ExitStatus::ReadFailed,
        Err(AnswerEnd::NoMemory) => ExitStatus::OutOfMemory,
    }
}

/// The program that explains a text.
///
/// Where the words ask for an explanation, it reads a text of at most `MAX_TEXT_BYTES` bytes from `src`, which is the file that the words name, or else
/// standard input. It runs the text's plan to its end, writes the explanation of how its tasks stand there to `out`, and answers 0 where no task waits and 1
/// where one does. Where they ask for steps, it writes a line for each of the first steps of the serial plain run before. With both, a text that begins as one
/// of clocks, or whose file is named so, is read as one, and it explains how its activities stand; where the words ask for clocks, each text is. Where they ask
/// for the run that avoids deadlock, it explains each refusal of it, and answers 1 also where somebody was refused. Of a text that is refused, or too long, it
/// writes why and where, and answers 3. It writes the lines of help or of the version and answers 0, where the words ask for them, and for all other words the
/// line of usage, and answers 2; nothing is read then. Of an explanation it shows at most 60 lines, unless the words ask for all of it, or for its first lines
/// and its hint alone. It answers 4 and 5 where the source or the sink failed, and 6 for want of memory; after 4 and 6 nothing was written, and after 5 at most
/// first bytes were.
pub fn explain<S: Source, K: Sink>(
    alloc: Global,
    words: &[List<u8>],
    src: &mut S,
    out: &mut K,
) -> u8
    ensures call { IsExplainCall (asked words.now) (passage S.left S.faults src.old src.new) (passage K.taken K.faults out.old out.new)
        (src.new ≡ src.old) (out.new ≡ out.old) result }
{
    match request_of(words) {
        Request::Text {
            wanted,
            extent,
            file,
        } => { explain_source(alloc, wanted, extent, file, src, out).code() }
        Request::Help => finish(out, HELP.as_bytes(), ExitStatus::NoDeadlock).code(),
        Request::Version => finish(out, VERSION.as_bytes(), ExitStatus::NoDeadlock).code(),
        Request::Usage => finish(out, USAGE.as_bytes(), ExitStatus::Usage).code(),
    }
}
