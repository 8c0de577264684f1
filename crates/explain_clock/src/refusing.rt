// The lines of a clock text that is refused.
ghost use Rattle.std.specs.Prelude.{◌≡◌, ◌<◌, ◌^◌, ◌++◌, IfOk, OnOk, length, min, option_copied};
ghost use Rattle.pl_plan.specs.declared.fault.CheckFault.{CheckFault};
ghost use Rattle.pl_plan.specs.Unfolding.{fault};
ghost use Rattle.explain_syntax.specs.QuotedWords.{quoted};
ghost use Rattle.explain_syntax.specs.SyntaxRefusals.{syntax_numbers};
ghost use Rattle.explain_syntax.specs.SyntaxSentences.{found_words};
ghost use Rattle.clock_syntax.specs.Grammar.{IsClockText};
ghost use Rattle.clock_source_map.specs.ClockOffsets.{clock_offsets};
ghost use Rattle.explain_clock.specs.ClockRefusals.{cannot_stand_words, clock_fault_lines, clock_numbers, clock_syntax_lines, fault_lines, fault_words, rest_at, syntax_words, wanted_tokens};

use crate::hints::{hint_of, put_hint};
use crate::stand::{ClockStand, stand_in_front};
use crate::words::offset_of;
use armus_base::{List, NoMemory, put_words};
use clock_source_map::clock_offsets;
use clock_syntax::ClockProgram;
use explain_syntax::{put_line_and_caret, put_quoted, spelled};
use pl_syntax::{CANNOT_STAND, NO_NUMBER, NO_TOKEN, SyntaxFault, TOO_DEEP};
use source_map::TextPlaces;
use std::alloc::Global;

// What is wanted, where one or two tokens alone can stand.
fn wanted_tokens(stand: ClockStand) -> &'static [u8]
    ensures { result.now ≡ wanted_tokens stand }
{
    match stand {
        ClockStand::Statement => b"",
        ClockStand::ClockName => b"a name",
        ClockStand::AsyncOpen => b"'('",
        ClockStand::FirstName => b"a name or ')'",
        ClockStand::ListEnd => b"',' or ')'",
        ClockStand::ListName => b"a name",
        ClockStand::CallOpen => b"'('",
        ClockStand::CallName => b"a name",
        ClockStand::CallEnd => b"')'",
        ClockStand::Turns => b"a number",
        ClockStand::Body => b"'{'",
        ClockStand::Semicolon => b"';'",
    }
}

// Appends a token as it stands in the text, or the end of the text.
fn put_found(out: &mut Vec<u8>, rest: &[u8]) -> Result<(), NoMemory>
    ensures { OnOk result (out.new.items ≡ out.old.items ++ found_words rest.now) }
{
    match rest {
        [] => put_words(out, b"the end of the text"),
        [_, ..] => put_found_word(out, spelled(rest)),
    }
}

// Appends a word that was found.
fn put_found_word(out: &mut Vec<u8>, word: &[u8]) -> Result<(), NoMemory>
    ensures { OnOk result (out.new.items ≡ out.old.items ++ quoted word.now) }
{
    put_quoted(out, word)
}

// Appends that a token cannot stand, where this is wanted.
fn put_cannot_stand(out: &mut Vec<u8>, wanted: &[u8], rest: &[u8]) -> Result<(), NoMemory>
    ensures { OnOk result (out.new.items ≡ out.old.items ++ cannot_stand_words wanted.now rest.now) }
{
    match wanted {
        [] => put_words(out, b"this token cannot stand here"),
        [_, ..] => {
            put_words(out, wanted)?;
            put_words(out, b" is wanted here, not ")?;
            put_found(out, rest)
        }
    }
}

// Appends what is wrong, by the kind of a syntax fault.
fn put_syntax_words(
    out: &mut Vec<u8>,
    kind: u8,
    stand: ClockStand,
    rest: &[u8],
) -> Result<(), NoMemory>
    ensures { OnOk result (out.new.items ≡ out.old.items ++ syntax_words kind stand rest.now) }
{
    match kind {
        NO_TOKEN => put_words(out, b"no token begins here"),
        CANNOT_STAND => put_cannot_stand(out, wanted_tokens(stand), rest),
        NO_NUMBER => put_words(
            out,
            b"this is no number: a number is 0 to 65535, without leading zeros",
        ),
        TOO_DEEP => put_words(
            out,
            b"this brace is the 65th that is open: at most 64 may be",
        ),
        _ => put_words(out, b"this name has more than 32 bytes"),
    }
}

// What is wrong, by the kind of a clock fault.
fn fault_words(kind: u8) -> &'static [u8]
    ensures { result.now ≡ fault_words kind }
{
    match kind {
        1 => b"a name here stands for no clock",
        2 => b"the activity is not registered on a clock that is named here",
        3 => b"a name stands twice in this list",
        4 =>
            b"a clock that is named here is pending: the activity has signalled on it, and not advanced since",
        5 => b"4096 activities are there already: no more may be",
        6 => b"1024 clocks and finishes are there already: no more may be",
        7 => b"the activities times one more than the clocks and finishes may be at most 1048576",
        8 => b"1048576 ops are there already: no more may be",
        _ => b"4194304 visits were made already: no more may be",
    }
}

// Appends the numbers of a syntax fault.
fn put_syntax_numbers(alloc: Global, out: &mut Vec<u8>, fault: SyntaxFault) -> Result<(), NoMemory>
    ensures { OnOk result (out.new.items ≡ out.old.items ++ syntax_numbers fault) }
{
    let kind = fault.kind;
    let at = fault.at;
    let text = format!(in alloc; " (syntax {kind}, byte {at})")?;
    out.extend_from_slice(text.as_bytes())?;
    Ok(())
}

// Appends the numbers of a clock fault.
fn put_clock_numbers(
    alloc: Global,
    out: &mut Vec<u8>,
    kind: u8,
    statement: u32,
) -> Result<(), NoMemory>
    ensures { OnOk result (out.new.items ≡ out.old.items ++ clock_numbers (fault kind statement)) }
{
    let text = format!(in alloc; " (clock {kind}, statement {statement})")?;
    out.extend_from_slice(text.as_bytes())?;
    Ok(())
}

// The lines of what is wrong at a byte.
fn fault_lines(
    alloc: Global,
    places: &TextPlaces<'_>,
    file: Option<&[u8]>,
    at: u32,
    words: &[u8],
) -> Result<Vec<u8>, NoMemory>
    ensures { IfOk result (λ v. v.items ≡ fault_lines (option_copied file.entry) places.now at words.now) }
{
    let text = places.text();
    let mut out = Vec::new(alloc);
    places.put_front(alloc, &mut out, file, places.at(at))?;
    put_words(&mut out, b": ")?;
    put_words(&mut out, words)?;
    put_words(&mut out, b"\n")?;
    put_line_and_caret(&mut out, text, text.len().min(at as usize))?;
    Ok(out)
}

// What is left of a text from a byte on.
fn rest_from(text: &[u8], at: usize) -> &[u8]
    ensures { result.now ≡ rest_at text.now at }
{
    text.split_at(at.min(text.len())).1
}

/// The lines of a clock text that is refused for a syntax fault. `places` are those of the text, and `file` is the name of its file, if it comes from one.
/// The only error is want of memory.
pub fn clock_syntax_refusal(
    alloc: Global,
    places: &TextPlaces<'_>,
    file: Option<&[u8]>,
    fault: SyntaxFault,
) -> Result<List<u8>, NoMemory>
    ensures { IfOk result (λ lines. lines ≡ clock_syntax_lines (option_copied file.entry) places.now fault) }
{
    let stand = stand_in_front(places, fault.at);
    let rest = rest_from(places.text(), fault.at as usize);
    let mut words = Vec::new(alloc);
    put_syntax_words(&mut words, fault.kind, stand, rest)?;
    put_syntax_numbers(alloc, &mut words, fault)?;
    let mut out = fault_lines(alloc, places, file, fault.at, &words)?;
    put_hint(&mut out, hint_of(fault.kind, stand, spelled(rest)))?;
    Ok(List::from_vec(out))
}

/// The lines of a clock text that is refused for a fault of this kind of its program at this statement, or for 0 at the end of the text. The only error is
/// want of memory.
pub fn clock_fault_refusal(
    alloc: Global,
    places: &TextPlaces<'_>,
    file: Option<&[u8]>,
    program: &ClockProgram,
    kind: u8,
    statement: u32,
) -> Result<List<u8>, NoMemory>
    requires reads { IsClockText places.now program.now.body }
    ensures { IfOk result (λ lines. lines ≡ clock_fault_lines (option_copied file.entry) places.now (clock_offsets places.now program.now.body) (fault kind statement)) }
{
    let text = places.text();
    let offsets = clock_offsets(alloc, text, program)?;
    let at = offset_of(offsets.as_slice(), text.len() as u32, statement);
    let mut words = Vec::from_slice(alloc, fault_words(kind))?;
    put_clock_numbers(alloc, &mut words, kind, statement)?;
    let out = fault_lines(alloc, places, file, at, &words)?;
    Ok(List::from_vec(out))
}
