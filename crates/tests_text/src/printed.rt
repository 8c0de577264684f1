// Programs and their printed forms, a line for each.
ghost use Rattle.std.specs.Prelude.{◌≡◌, ◌≤◌, false};
ghost use Rattle.pl_syntax.specs.calls.Tree.{AllHere};
ghost use Rattle.pl_syntax.specs.Tree.{height};

use pl_syntax::{
    MAX_OPEN_BRACES, MAX_PARSED_BYTES, ParseEnd, Program, parse, print, print_and_parse,
};
use std::alloc::Global;
use std::test::Fail;
use tests_rows::{bytes_of, cut};

const ROWS: &str = "\
$\n\
pl 2;$pl 2;~\n\
pl 2;await(p+1);await( p-0 );await(p);$pl 2;~await(p + 1);~await(p - 0);~await(p);~\n\
loop 2{skip;}//x$loop 2 {~  skip;~}~\n\
loop 3{}$loop 3 {~}~\n\
loop 65535 { loop 0 { } }$loop 65535 {~  loop 0 {~  }~}~\n\
p=newPhaser();t=newTid();reg(t,p);fork(t){adv(p);await(p);}dereg(p);$p = newPhaser();~t = newTid();~reg(t, p);~fork(t) {~  adv(p);~  await(p);~}~dereg(p);~\n\
";

// Whether the program is printed so, and alike when what is printed is read again.
pub(crate) fn is_printed_so(
    alloc: Global,
    program: &Program,
    wanted: &[u8],
) -> Result<bool, ParseEnd>
    requires shallow { height program.now.body ≤ MAX_OPEN_BRACES }
    requires offsets { program.now.two ≡ false → AllHere program.now.body }
{
    let lines = print(alloc, program)?;
    if lines.as_slice().len() > MAX_PARSED_BYTES || lines.as_slice() != wanted {
        return Ok(false);
    }
    let again = print_and_parse(alloc, program)?;
    Ok(print(alloc, &again)?.as_slice() == wanted)
}

fn is_met(alloc: Global, text: &[u8], wanted: &[u8]) -> Result<bool, ParseEnd> {
    if text.len() > MAX_PARSED_BYTES {
        return Ok(false);
    }
    let program = parse(alloc, text)?;
    is_printed_so(alloc, &program, wanted)
}

#[test]
fn printed_forms(rt: HostRuntime) -> Result<(), Fail> {
    for row in ROWS.lines() {
        let (text, wanted) = cut(row, "$");
        let text = bytes_of(rt.alloc(), text)?;
        let wanted = bytes_of(rt.alloc(), wanted)?;
        assert!(rt; is_met(rt.alloc(), &text, &wanted)?, "{row}");
    }
    Ok(())
}
