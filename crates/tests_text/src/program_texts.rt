// Programs by their texts in rows.
ghost use Rattle.std.specs.Prelude.{◌≤◌, IfOk};
ghost use Rattle.pl_syntax.specs.Tree.{count, height};

use pl_plan::PlanEnd;
use pl_syntax::{MAX_OPEN_BRACES, MAX_PARSED_BYTES, Program, parse};
use std::alloc::Global;
use tests_rows::bytes_of;

// The program of a text; none, as if memory had run out, where it is no program.
pub(crate) fn program_of(alloc: Global, text: &str) -> Result<Program, PlanEnd>
    ensures few { IfOk result (λ program. count program.body ≤ MAX_PARSED_BYTES) }
    ensures shallow { IfOk result (λ program. height program.body ≤ MAX_OPEN_BRACES) }
{
    let bytes = bytes_of(alloc, text)?;
    if bytes.len() > MAX_PARSED_BYTES {
        return Err(PlanEnd::NoMemory);
    }
    match parse(alloc, &bytes) {
        Ok(program) => Ok(program),
        Err(_) => Err(PlanEnd::NoMemory),
    }
}
