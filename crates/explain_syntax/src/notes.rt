// The notes below a refused line.
ghost use Rattle.std.specs.Prelude.{◌≡◌, ◌++◌, OnOk, codes, option_map};
ghost use Rattle.pl_syntax.specs.Printed.{line};
ghost use Rattle.source_map.specs.PlaceWords.{place_words};
ghost use Rattle.explain_syntax.specs.Hints.{first_fit, hints};
ghost use Rattle.explain_syntax.specs.SyntaxRefusals.{brace_note, hint_line};

use crate::hint::hint_of;
use crate::stand::GrammarStand;
use armus_base::NoMemory;
use source_map::{TextPlace, TextPlaces};
use std::alloc::Global;

// The note on a brace.
fn put_brace(
    alloc: Global,
    out: &mut Vec<u8>,
    places: &TextPlaces,
    place: TextPlace,
) -> Result<(), NoMemory>
    ensures { OnOk result (out.new.items ≡ out.old.items ++ line (codes "  the brace at " ++ place_words places.now place ++ codes " is not closed")) }
{
    out.extend_from_slice(b"  the brace at ")?;
    places.put(alloc, out, place)?;
    out.extend_from_slice(b" is not closed\n")?;
    Ok(())
}

// The note on the innermost brace that is open, where the text has ended.
fn put_open_brace(
    alloc: Global,
    out: &mut Vec<u8>,
    places: &TextPlaces,
    rest: &[u8],
    brace: Option<u32>,
) -> Result<(), NoMemory>
    ensures { OnOk result (out.new.items ≡ out.old.items ++ brace_note places.now rest.now brace) }
{
    match (rest, brace) {
        ([], Some(offset)) => put_brace(alloc, out, places, places.at(offset)),
        _ => Ok(()),
    }
}

// A hint, if there is one.
fn put_hint(out: &mut Vec<u8>, hint: Option<&'static [u8]>) -> Result<(), NoMemory>
    ensures { OnOk result (out.new.items ≡ out.old.items ++ hint_line (option_map (λ x. x.now) hint.entry)) }
{
    if let Some(words) = hint {
        out.extend_from_slice(b"  hint: ")?;
        out.extend_from_slice(words)?;
        out.extend_from_slice(b"\n")?;
    }
    Ok(())
}

/// Appends the notes on a fault of this kind, from whose place on this is left of the text.
pub(crate) fn put_notes(
    alloc: Global,
    out: &mut Vec<u8>,
    places: &TextPlaces,
    kind: u8,
    at: u32,
    rest: &[u8],
    stand: GrammarStand,
) -> Result<(), NoMemory>
    ensures { OnOk result (out.new.items ≡ out.old.items ++ (brace_note places.now rest.now stand.brace ++ hint_line (first_fit (hints kind at rest.now stand)))) }
{
    put_open_brace(alloc, out, places, rest, stand.brace)?;
    put_hint(out, hint_of(kind, at, rest, stand))
}
