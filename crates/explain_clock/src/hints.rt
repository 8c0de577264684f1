// A hint below the line of a syntax fault.
ghost use Rattle.std.specs.Prelude.{◌≡◌, ◌++◌, OnOk, option_map};
ghost use Rattle.std.specs.Str.{bytes_eq};
ghost use Rattle.explain_syntax.specs.SyntaxRefusals.{hint_line};
ghost use Rattle.explain_syntax.specs.Hints.{first_fit};
ghost use Rattle.explain_clock.specs.ClockHints.{clock_hint, is_async_open, is_body, clock_stand_hints, clock_token_hints};

use crate::stand::ClockStand;
use armus_base::{NoMemory, put_words};
use pl_syntax::{CANNOT_STAND, NO_TOKEN};

// Whether both are one word.
fn is_word(word: &[u8], other: &[u8]) -> bool
    ensures { result ≡ bytes_eq word.now other.now }
{
    word == other
}

// Whether the parenthesis of an async is wanted.
fn is_async_open(stand: ClockStand) -> bool
    ensures { result ≡ is_async_open stand }
{
    matches!(stand, ClockStand::AsyncOpen)
}

// Whether the brace of a body is wanted.
fn is_body(stand: ClockStand) -> bool
    ensures { result ≡ is_body stand }
{
    matches!(stand, ClockStand::Body)
}

// What may help where no token begins.
fn token_hint(word: &[u8]) -> Option<&'static [u8]>
    ensures { option_map (λ x. x.now) result ≡ first_fit (clock_token_hints word.now) }
{
    if is_word(word, b"Clock") {
        return Some(b"clock c; makes a clock, and registers this activity on it");
    }
    None
}

// What may help where a token cannot stand.
fn stand_hint(stand: ClockStand, word: &[u8]) -> Option<&'static [u8]>
    ensures { option_map (λ x. x.now) result ≡ first_fit (clock_stand_hints stand word.now) }
{
    if is_word(word, b"=") || is_word(word, b"val") {
        return Some(b"clock c; makes a clock, and registers this activity on it");
    }
    if is_word(word, b"next") {
        return Some(b"what next does in X10, advance(c); does on one clock");
    }
    if is_word(word, b"clocked") || is_async_open(stand) {
        return Some(
            b"an async names its clocks in parentheses, as in async(c) { .. } or async() { .. }",
        );
    }
    if is_body(stand) && is_word(word, b"async") {
        return Some(b"a body stands in braces, as in finish { async() { .. } }");
    }
    None
}

/// What may help with a fault of this kind, where this is wanted, and the word there is this.
pub(crate) fn hint_of(kind: u8, stand: ClockStand, word: &[u8]) -> Option<&'static [u8]>
    ensures { option_map (λ x. x.now) result ≡ clock_hint kind stand word.now }
{
    match kind {
        NO_TOKEN => token_hint(word),
        CANNOT_STAND => stand_hint(stand, word),
        _ => None,
    }
}

/// Appends the line of a hint.
pub(crate) fn put_hint(out: &mut Vec<u8>, hint: Option<&[u8]>) -> Result<(), NoMemory>
    ensures { OnOk result (out.new.items ≡ out.old.items ++ hint_line (option_map (λ x. x.now) hint.entry)) }
{
    match hint {
        Some(words) => {
            put_words(out, b"  hint: ")?;
            put_words(out, words)?;
            put_words(out, b"\n")
        }
        None => Ok(()),
    }
}
