// Places as they are kept.
ghost use Rattle.std.specs.Prelude.{◌≡◌, IfOk, map};
ghost use Rattle.trace_lines.specs.Grammar.{kept_byte};

use armus_base::NoMemory;
use std::alloc::Global;

// A byte of a place as it is kept.
fn kept_byte(byte: u8) -> u8
    ensures { result ≡ kept_byte byte }
{
    if 32 <= byte && byte <= 126 {
        byte
    } else {
        b'?'
    }
}

/// The place of a line, as it is kept.
pub(crate) fn kept_place(alloc: Global, raw: &[u8]) -> Result<Vec<u8>, NoMemory>
    ensures { IfOk result (λ place. place.items ≡ map kept_byte raw.now) }
{
    let mut place = Vec::with_capacity(alloc, raw.len())?;
    for byte in raw {
        place.push(kept_byte(*byte))?;
    }
    Ok(place)
}
