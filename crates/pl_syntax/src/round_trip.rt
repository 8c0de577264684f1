// A program, printed and read again.

ghost use Rattle.std.specs.Prelude.{◌≡◌, ◌≤◌, false, length};
ghost use Rattle.pl_syntax.specs.Tree.{height};
ghost use Rattle.pl_syntax.specs.calls.Tree.{AllHere};
ghost use Rattle.pl_syntax.specs.Printed.{printed_of};
ghost use Rattle.pl_syntax.specs.calls.Parsing.{GivesProgram};

use crate::fault::ParseEnd;
use crate::limits::{MAX_OPEN_BRACES, MAX_PARSED_BYTES};
use crate::printer::print;
use crate::reader::parse;
use crate::tree::Program;
use std::alloc::Global;

/// Prints a program and reads the printed text. It is the same program again, unless memory ran out; there is no
/// syntax fault.
///
/// The program has at most 64 open braces at any point, in PL 1 no await looks back or ahead, and its printed form has at most 8,388,608 bytes.
pub fn print_and_parse(alloc: Global, program: &Program) -> Result<Program, ParseEnd>
    requires shallow { height program.now.body ≤ MAX_OPEN_BRACES }
    requires offsets { program.now.two ≡ false → AllHere program.now.body }
    requires short { length (printed_of program.now) ≤ MAX_PARSED_BYTES }
    ensures same { GivesProgram result program.now }
{
    let text = print(alloc, program)?;
    parse(alloc, text.as_slice())
}
