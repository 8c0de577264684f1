// The lines of a text that is refused.
ghost use Rattle.std.specs.Prelude.{◌≡◌, ◌≤◌, Err, IfOk, length};
ghost use Rattle.explain_check.specs.Scenes.{IsScene};
ghost use Rattle.pl_plan.specs.Unfolding.{plan_of};
ghost use Rattle.pl_plan.specs.declared.fault.CheckFault.{CheckFault as Fault};
ghost use Rattle.pl_syntax.specs.Grammar.{HasFault, IsText};
ghost use Rattle.pl_syntax.specs.Tree.{count};
ghost use Rattle.explain_syntax.specs.LengthRefusals.{length_refusal};
ghost use Rattle.program_io.specs.declared.text_limit.TheConstants.{MAX_TEXT_BYTES};
ghost use Rattle.program_io.specs.calls.ExitNumbers.{number_of_status};
ghost use Rattle.explain.specs.inside.Ending.{IsRefusalOf};
ghost use Rattle.explain.specs.calls.Requested.{file_bytes};

use crate::answer::Answer;
use armus_base::{List, NoMemory};
use explain_check::{Scene, StatementPlaces, check_refusal, scene_of};
use explain_syntax::{length_refusal, syntax_refusal};
use pl_syntax::{Program, SyntaxFault, statement_offsets};
use program_io::ExitStatus;
use source_map::TextPlaces;
use std::alloc::Global;

/// A refusal with these lines.
pub(crate) fn refused(lines: List<u8>) -> Answer
    ensures lines { result.lines ≡ lines }
    ensures status { number_of_status result.status ≡ 3 }
{
    Answer {
        lines,
        status: ExitStatus::Refused,
    }
}

/// The refusal of a text that is too long.
pub(crate) fn refuse_length(alloc: Global, file: Option<&[u8]>) -> Result<Answer, NoMemory>
    ensures lines { IfOk result (λ a. a.lines ≡ length_refusal (file_bytes file.entry)) }
    ensures status { IfOk result (λ a. number_of_status a.status ≡ 3) }
{
    Ok(refused(length_refusal(alloc, file)?))
}

/// The refusal of a text for its first syntax fault.
pub(crate) fn refuse_syntax(
    alloc: Global,
    text: &[u8],
    places: &TextPlaces,
    file: Option<&[u8]>,
    fault: SyntaxFault,
) -> Result<Answer, NoMemory>
    requires short { length text.now ≤ MAX_TEXT_BYTES }
    requires places { places.now ≡ text.now }
    requires fault { HasFault text.now fault }
    ensures refusal { IfOk result (IsRefusalOf (file_bytes file.entry) text.now) }
{
    Ok(refused(syntax_refusal(alloc, text, places, file, fault)?))
}

// The refusal of the text with these places, which is this program, of whose first check fault this is known.
fn refuse_scene(
    alloc: Global,
    places: TextPlaces,
    file: Option<&[u8]>,
    program: &Program,
    scene: &Scene,
) -> Result<Answer, NoMemory>
    requires reads { IsText places program.now }
    requires scene { IsScene program.now scene.now }
    ensures refusal { IfOk result (IsRefusalOf (file_bytes file.entry) places.entry) }
{
    let text = places.text();
    let offsets = statement_offsets(alloc, text, program)?;
    let statements = StatementPlaces {
        places,
        offsets,
        end: text.len() as u32,
    };
    let lines = check_refusal(alloc, text, program, &statements, file, scene)?;
    Ok(refused(lines))
}

/// The refusal of the text with these places, which is this program, for its first check fault.
pub(crate) fn refuse_check(
    alloc: Global,
    places: TextPlaces,
    file: Option<&[u8]>,
    program: &Program,
) -> Result<Answer, NoMemory>
    requires short { length places ≤ MAX_TEXT_BYTES }
    requires few { count program.now.body ≤ length places }
    requires reads { IsText places program.now }
    requires fails { (fault : Fault) × (plan_of program.now ≡ Err fault) }
    ensures refusal { IfOk result (IsRefusalOf (file_bytes file.entry) places.entry) }
{
    match scene_of(alloc, program)? {
        Some(scene) => refuse_scene(alloc, places, file, program, &scene),
        None => unreachable!(),
    }
}
