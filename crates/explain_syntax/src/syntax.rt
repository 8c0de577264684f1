// The lines of a text with a syntax fault.
ghost use Rattle.std.specs.Prelude.{◌≡◌, ◌<◌, ◌≤◌, ◌-◌, ◌^◌, ◌++◌, OnOk, IfOk, drop, length, option_map};
ghost use Rattle.pl_syntax.specs.Grammar.{HasFault};
ghost use Rattle.pl_syntax.specs.Printed.{line};
ghost use Rattle.explain_syntax.specs.SyntaxRefusals.{IsSyntaxRefusal, front_line, syntax_numbers};

use crate::caret::put_line_and_caret;
use crate::notes::put_notes;
use crate::sentence::put_sentence;
use crate::walk::stand_at;
use crate::wanted::WantedTokens;
use armus_base::{List, NoMemory};
use pl_syntax::SyntaxFault;
use source_map::{TextPlace, TextPlaces};
use std::alloc::Global;

// What is left of a text from a place on.
fn rest_from(text: &[u8], at: usize) -> &[u8]
    requires { at ≤ length text.now }
    ensures { result.now ≡ drop at text.now }
{
    text.split_at(at).1
}

// The numbers of a fault.
fn put_numbers(alloc: Global, out: &mut Vec<u8>, fault: SyntaxFault) -> Result<(), NoMemory>
    ensures { OnOk result (out.new.items ≡ out.old.items ++ line (syntax_numbers fault)) }
{
    let kind = fault.kind;
    let at = fault.at;
    let text = format!(in alloc; " (syntax {kind}, byte {at})\n")?;
    out.extend_from_slice(text.as_bytes())?;
    Ok(())
}

// The first line: a place, what is wrong there, and the numbers.
fn put_first_line(
    alloc: Global,
    out: &mut Vec<u8>,
    places: &TextPlaces,
    file: Option<&[u8]>,
    place: TextPlace,
    fault: SyntaxFault,
    rest: &[u8],
    wanted: WantedTokens,
) -> Result<(), NoMemory>
    ensures { OnOk result (out.new.items ≡ out.old.items ++ front_line places.now (option_map (λ f. f.now) file.entry) place fault rest.now wanted) }
{
    places.put_front(alloc, out, file, place)?;
    out.extend_from_slice(b": ")?;
    put_sentence(alloc, out, fault.kind, rest, wanted)?;
    put_numbers(alloc, out, fault)
}

/// The lines of a text, of a file or not, that is refused for its first syntax fault. `places` are those of the text. The only error is want of memory.
pub fn syntax_refusal(
    alloc: Global,
    text: &[u8],
    places: &TextPlaces,
    file: Option<&[u8]>,
    fault: SyntaxFault,
) -> Result<List<u8>, NoMemory>
    requires short { length text.now < 2 ^ 32 - 1 }
    requires places { places.now ≡ text.now }
    requires fault { HasFault text.now fault }
    ensures lines { IfOk result (IsSyntaxRefusal (option_map (λ f. f.now) file.entry) text.now fault) }
{
    let stand = stand_at(alloc, text, fault)?;
    let at = fault.at as usize;
    let rest = rest_from(text, at);
    let mut out = Vec::new(alloc);
    put_first_line(
        alloc,
        &mut out,
        places,
        file,
        places.at(fault.at),
        fault,
        rest,
        stand.wanted,
    )?;
    put_line_and_caret(&mut out, text, at)?;
    put_notes(alloc, &mut out, places, fault.kind, fault.at, rest, stand)?;
    Ok(List::from_vec(out))
}
