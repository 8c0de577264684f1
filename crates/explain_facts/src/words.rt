// Words, numbers and awaits behind other words.
ghost use Rattle.std.specs.Prelude.{◌≡◌, ◌++◌, OnOk};
ghost use Rattle.pl_syntax.specs.Printed.{offset_text};
ghost use Rattle.explain_facts.specs.AwaitWords.{await_text};

use armus_base::{NoMemory, Offset, put_number, put_words};
use pl_syntax::Name;
use std::alloc::Global;

// Appends how far an await looks back or ahead.
fn put_offset(alloc: Global, out: &mut Vec<u8>, off: Offset) -> Result<(), NoMemory>
    ensures { OnOk result (out.new.items ≡ out.old.items ++ offset_text off) }
{
    match off {
        Offset::Here => Ok(()),
        Offset::Back(k) => {
            put_words(out, b" - ")?;
            put_number(alloc, out, u64::from(k))
        }
        Offset::Ahead(k) => {
            put_words(out, b" + ")?;
            put_number(alloc, out, u64::from(k))
        }
    }
}

/// Appends an await, without its semicolon.
pub fn put_await(alloc: Global, out: &mut Vec<u8>, x: &Name, off: Offset) -> Result<(), NoMemory>
    ensures { OnOk result (out.new.items ≡ out.old.items ++ await_text x.now off) }
{
    put_words(out, b"await(")?;
    put_words(out, x.as_bytes())?;
    put_offset(alloc, out, off)?;
    put_words(out, b")")
}
