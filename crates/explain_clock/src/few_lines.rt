// Lines of which the first three are written.
ghost use Rattle.std.specs.Prelude.{◌≡◌, ◌++◌, OnOk};
ghost use Rattle.explain_clock.specs.ClockKeepers.{others_line};

use armus_base::{NoMemory, put_words};
use std::alloc::Global;

/// How many lines are written.
pub(crate) const FEW_LINES: usize = 3;

/// Appends the line with the number of those that have none.
pub(crate) fn put_more(alloc: Global, out: &mut Vec<u8>, count: usize) -> Result<(), NoMemory>
    ensures { OnOk result (out.new.items ≡ out.old.items ++ others_line count) }
{
    if count == 0 {
        return Ok(());
    }
    let text = format!(in alloc; "  and {count} more\n")?;
    put_words(out, text.as_bytes())
}
