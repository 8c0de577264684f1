// The lines of a text with a check fault.
ghost use Rattle.std.specs.Prelude.{◌≡◌, ◌≤◌, ◌<◌, ◌^◌, ◌++◌, IfOk, OnOk, length, option_map};
ghost use Rattle.pl_syntax.specs.declared.tree.Program.{Program as ProgramValue};
ghost use Rattle.pl_syntax.specs.Grammar.{IsText};
ghost use Rattle.pl_syntax.specs.Printed.{line};
ghost use Rattle.pl_syntax.specs.StatementOffsets.{AreOffsets};
ghost use Rattle.explain_check.specs.Scenes.{IsScene};
ghost use Rattle.explain_check.specs.CheckRefusals.{IsCheckRefusal, check_fault_line, check_numbers};
ghost use Rattle.explain_check.specs.StatementPlaces.{statement_offset};

use crate::matter::put_matter;
use crate::note::put_note;
use crate::scene::Scene;
use crate::statements::StatementPlaces;
use crate::whereabouts::put_whereabouts;
use armus_base::{List, NoMemory};
use explain_syntax::put_line_and_caret;
use pl_plan::CheckFault;
use pl_syntax::Program;
use source_map::{TextPlace, TextPlaces};
use std::alloc::Global;

// The numbers of a fault.
fn put_numbers(alloc: Global, out: &mut Vec<u8>, fault: CheckFault) -> Result<(), NoMemory>
    ensures { OnOk result (out.new.items ≡ out.old.items ++ line (check_numbers fault)) }
{
    let kind = fault.kind;
    let n = fault.statement;
    let text = format!(in alloc; " (check {kind}, statement {n})\n")?;
    out.extend_from_slice(text.as_bytes())?;
    Ok(())
}

// The first line: a place, what is wrong there, and the numbers.
fn put_first_line(
    alloc: Global,
    out: &mut Vec<u8>,
    places: &TextPlaces,
    file: Option<&[u8]>,
    place: TextPlace,
    scene: &Scene,
) -> Result<(), NoMemory>
    ensures { OnOk result (out.new.items ≡ out.old.items ++ check_fault_line places.now (option_map (λ f. f.now) file.entry) place scene.now) }
{
    places.put_front(alloc, out, file, place)?;
    out.extend_from_slice(b": ")?;
    put_matter(alloc, out, &scene.task, &scene.matter)?;
    put_numbers(alloc, out, scene.fault)
}

/// The lines of a text, of a file or not, that has this program and is refused for its first check fault, of which this is known. The only error is want
/// of memory.
pub fn check_refusal(
    alloc: Global,
    text: &[u8],
    program: &Program,
    statements: &StatementPlaces,
    file: Option<&[u8]>,
    scene: &Scene,
) -> Result<List<u8>, NoMemory>
    requires reads { IsText text.now program.now }
    requires scene { IsScene program.now scene.now }
    requires places { statements.now.places ≡ text.now }
    requires offsets { AreOffsets text.now program.now statements.now.offsets }
    requires end { statements.now.end ≡ length text.now }
    ensures lines { IfOk result (IsCheckRefusal (option_map (λ f. f.now) file.entry) text.now program.now) }
{
    let n = scene.fault.statement;
    let at = statements.offset(n);
    let mut out = Vec::new(alloc);
    put_first_line(
        alloc,
        &mut out,
        &statements.places,
        file,
        statements.place(n),
        scene,
    )?;
    put_line_and_caret(&mut out, text, (at as usize).min(text.len()))?;
    put_whereabouts(
        alloc,
        &mut out,
        statements,
        &scene.task,
        scene.forked,
        scene.turns.as_slice(),
    )?;
    put_note(alloc, &mut out, statements, scene.forked, &scene.matter)?;
    Ok(List::from_vec(out))
}
