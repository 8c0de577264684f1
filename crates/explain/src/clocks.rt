// The explanation of a clock text, with the steps of its run or without, or its refusal.
ghost use Rattle.std.specs.Prelude.{◌≡◌, ◌≤◌, Err, IfOk, length};
ghost use Rattle.clock_syntax.specs.Grammar.{IsClockText};
ghost use Rattle.clock_syntax.specs.Trees.{clock_count};
ghost use Rattle.clock_semantics.specs.Unfolding.{clock_plan_of};
ghost use Rattle.program_io.specs.declared.text_limit.TheConstants.{MAX_TEXT_BYTES};
ghost use Rattle.clock_pl.specs.calls.ClockPlanning.{as_fault};
ghost use Rattle.explain.specs.inside.Ending.{IsClockAnswerTo, IsClockRefusalOf};
ghost use Rattle.explain.specs.calls.Requested.{file_bytes, form_with};

use crate::answer::{Answer, ClockWanted};
use crate::checked_clocks::CheckedClocks;
use crate::extent::Extent;
use crate::refusing::refused;
use armus_base::NoMemory;
use clock_pl::{ClockEnd, ClockFault, ClockProgram, clock_parse, clock_plan};
use explain_clock::{clock_fault_refusal, clock_syntax_refusal};
use pl_syntax::ParseEnd;
use source_map::TextPlaces;
use std::alloc::Global;

// The refusal of the clock text of this program, whose unfolding has this first fault.
fn refuse_unfolding(
    alloc: Global,
    places: &TextPlaces,
    file: Option<&[u8]>,
    program: &ClockProgram,
    fault: ClockFault,
) -> Result<Answer, NoMemory>
    requires reads { IsClockText places.now program.now.body }
    requires fails { clock_plan_of program.now.body ≡ Err (as_fault fault) }
    ensures refusal { IfOk result (IsClockRefusalOf (file_bytes file.entry) places.now) }
{
    let lines = clock_fault_refusal(alloc, places, file, program, fault.kind, fault.statement)?;
    Ok(refused(lines))
}

// The whole output for the clock text of this program.
fn answer_clock_program(
    alloc: Global,
    wanted: ClockWanted,
    extent: Extent,
    places: &TextPlaces,
    file: Option<&[u8]>,
    program: &ClockProgram,
) -> Result<Answer, NoMemory>
    requires short { length places.now ≤ MAX_TEXT_BYTES }
    requires few { clock_count program.now.body ≤ length places.now }
    requires reads { IsClockText places.now program.now.body }
    ensures answers { IfOk result (IsClockAnswerTo wanted (form_with file.entry extent) places.now) }
{
    match clock_plan(alloc, program) {
        Ok(plan) => {
            let checked = CheckedClocks {
                places,
                file,
                extent,
                program,
                plan,
            };
            let answer = checked.answer(alloc, wanted)?;
            Ok(answer)
        }
        Err(ClockEnd::Clock(fault)) => refuse_unfolding(alloc, places, file, program, fault),
        Err(ClockEnd::NoMemory) => Err(NoMemory),
    }
}

/// The whole output for a clock text.
pub(crate) fn answer_clocks(
    alloc: Global,
    wanted: ClockWanted,
    extent: Extent,
    file: Option<&[u8]>,
    text: &[u8],
) -> Result<Answer, NoMemory>
    requires short { length text.now ≤ MAX_TEXT_BYTES }
    ensures answers { IfOk result (IsClockAnswerTo wanted (form_with file.entry extent) text.now) }
{
    let places = TextPlaces::new(alloc, text)?;
    match clock_parse(alloc, text) {
        Ok(program) => answer_clock_program(alloc, wanted, extent, &places, file, &program),
        Err(ParseEnd::Syntax(fault)) => {
            let lines = clock_syntax_refusal(alloc, &places, file, fault)?;
            Ok(refused(lines))
        }
        Err(ParseEnd::NoMemory) => Err(NoMemory),
    }
}
