// The whole output for a text, in memory.
ghost use Rattle.std.specs.Prelude.{◌≡◌, ◌≤◌, IfErr, IfOk, length};
ghost use Rattle.pl_syntax.specs.Grammar.{IsText};
ghost use Rattle.pl_syntax.specs.Tree.{count};
ghost use Rattle.program_io.specs.calls.Passages.{passage};
ghost use Rattle.program_io.specs.declared.text_limit.TheConstants.{MAX_TEXT_BYTES};
ghost use Rattle.explain.specs.inside.Ending.{AnswersSource, EndsUnanswered, IsAnswerTo, IsPlAnswerTo, IsWrittenAnswerTo};
ghost use Rattle.explain.specs.calls.Requested.{form_named, form_with, told_file};
ghost use Rattle.program_io.specs.Legible.{legible};
ghost use Rattle.explain_syntax.specs.LengthRefusals.{length_refusal};
ghost use Rattle.program_io.specs.calls.ExitNumbers.{number_of_status};

use crate::answer::{Answer, AnswerEnd, ClockWanted, PlWanted, WantedOutput};
use crate::checked_text::CheckedText;
use crate::clocks::answer_clocks;
use crate::extent::Extent;
use crate::language::is_of_clocks;
use crate::legible::{legible_answer, told_bytes, told_file};
use crate::refusing::{refuse_check, refuse_length, refuse_syntax};
use armus_base::{NoMemory, ReadEnd, Source, read_all};
use pl_plan::{PlanEnd, unfold};
use pl_syntax::{ParseEnd, Program, parse};
use program_io::MAX_TEXT_BYTES;
use source_map::TextPlaces;
use std::alloc::Global;

// The whole output for the text with these places, which is this program.
fn answer_program(
    alloc: Global,
    wanted: PlWanted,
    extent: Extent,
    places: TextPlaces,
    file: Option<&[u8]>,
    program: &Program,
) -> Result<Answer, NoMemory>
    requires short { length places ≤ MAX_TEXT_BYTES }
    requires few { count program.now.body ≤ length places }
    requires reads { IsText places program.now }
    ensures answers { IfOk result (IsPlAnswerTo wanted (form_with file.entry extent) places.entry) }
{
    match unfold(alloc, program) {
        Ok(unfolded) => {
            let checked = CheckedText {
                places: &places,
                file,
                extent,
                program,
                unfolded,
            };
            let answer = checked.answer(alloc, wanted)?;
            Ok(answer)
        }
        Err(PlanEnd::Check(_)) => refuse_check(alloc, places, file, program),
        Err(PlanEnd::NoMemory) => Err(NoMemory),
    }
}

// The whole output for a text of PL.
fn answer_pl(
    alloc: Global,
    wanted: PlWanted,
    extent: Extent,
    file: Option<&[u8]>,
    text: &[u8],
) -> Result<Answer, NoMemory>
    requires short { length text.now ≤ MAX_TEXT_BYTES }
    ensures answers { IfOk result (IsPlAnswerTo wanted (form_with file.entry extent) text.now) }
{
    let places = TextPlaces::new(alloc, text)?;
    match parse(alloc, text) {
        Ok(program) => answer_program(alloc, wanted, extent, places, file, &program),
        Err(ParseEnd::Syntax(fault)) => refuse_syntax(alloc, text, &places, file, fault),
        Err(ParseEnd::NoMemory) => Err(NoMemory),
    }
}

// The whole output for a text.
fn answer_text(
    alloc: Global,
    wanted: WantedOutput,
    extent: Extent,
    file: Option<&[u8]>,
    text: &[u8],
) -> Result<Answer, NoMemory>
    requires short { length text.now ≤ MAX_TEXT_BYTES }
    ensures answers { IfOk result (IsAnswerTo wanted (form_with file.entry extent) text.now) }
{
    match wanted {
        WantedOutput::Explanation => {
            if is_of_clocks(file, text) {
                answer_clocks(alloc, ClockWanted::Explanation, extent, file, text)
            } else {
                answer_pl(alloc, PlWanted::Explanation, extent, file, text)
            }
        }
        WantedOutput::Steps => {
            if is_of_clocks(file, text) {
                answer_clocks(alloc, ClockWanted::Steps, extent, file, text)
            } else {
                answer_pl(alloc, PlWanted::Steps, extent, file, text)
            }
        }
        WantedOutput::Avoided => answer_pl(alloc, PlWanted::Avoided, extent, file, text),
        WantedOutput::Clocks => answer_clocks(alloc, ClockWanted::Explanation, extent, file, text),
    }
}

// What is written for a text of a file with this name, or of none.
fn answer_named(
    alloc: Global,
    wanted: WantedOutput,
    extent: Extent,
    file: Option<&[u8]>,
    text: &[u8],
) -> Result<Answer, NoMemory>
    requires short { length text.now ≤ MAX_TEXT_BYTES }
    ensures answers { IfOk result (IsWrittenAnswerTo wanted (form_named file.entry extent) text.now) }
{
    let told = told_file(alloc, file)?;
    let whole = answer_text(alloc, wanted, extent, told_bytes(&told), text)?;
    let answer = legible_answer(alloc, whole)?;
    Ok(answer)
}

// What is written where a file with this name, or none, has too long a text.
fn refuse_named(alloc: Global, file: Option<&[u8]>) -> Result<Answer, NoMemory>
    ensures lines { IfOk result (λ a. a.lines ≡ legible (length_refusal (told_file file.entry))) }
    ensures status { IfOk result (λ a. number_of_status a.status ≡ 3) }
{
    let told = told_file(alloc, file)?;
    let whole = refuse_length(alloc, told_bytes(&told))?;
    let answer = legible_answer(alloc, whole)?;
    Ok(answer)
}

/// What is written for what the source gives, the text of a file with this name or of none, or why there is nothing.
pub(crate) fn answer_source<S: Source>(
    alloc: Global,
    wanted: WantedOutput,
    extent: Extent,
    file: Option<&[u8]>,
    src: &mut S,
) -> Result<Answer, AnswerEnd>
    ensures answers { IfOk result (AnswersSource wanted (form_named file.entry extent) (passage S.left S.faults src.old src.new)) }
    ensures ends { IfErr result (EndsUnanswered (passage S.left S.faults src.old src.new)) }
{
    match read_all(alloc, src, MAX_TEXT_BYTES) {
        Ok(text) => {
            let answer = answer_named(alloc, wanted, extent, file, text.as_slice())?;
            Ok(answer)
        }
        Err(ReadEnd::TooLong) => {
            let answer = refuse_named(alloc, file)?;
            Ok(answer)
        }
        Err(ReadEnd::Fault) => Err(AnswerEnd::Fault),
        Err(ReadEnd::NoMemory) => Err(AnswerEnd::NoMemory),
    }
}
