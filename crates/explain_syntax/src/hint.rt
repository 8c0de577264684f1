// What may help with a fault.
ghost use Rattle.std.specs.Prelude.{◌≡◌, codes, option_map};
ghost use Rattle.std.specs.Str.{bytes_eq};
ghost use Rattle.pl_syntax.specs.Words.{begins_with};
ghost use Rattle.std.specs.Borrow.{Bor};
ghost use Rattle.explain_syntax.specs.Hints.{begins_beyond, begins_call, begins_comment, begins_hash, begins_mark, begins_number, begins_offset, begins_word, first_fit, has_capital, hints, is_clock_word, is_condition, is_header, is_repetition, name_hints, number_hints, stand_hints, token_hints, wanted_hints, wants_close, wants_equals, wants_maker, wants_number, wants_semicolon, wants_statement};

use crate::stand::{Behind, GrammarStand};
use crate::wanted::WantedTokens;
use crate::word::spelled;
use pl_syntax::token::Sign;
use pl_syntax::{CANNOT_STAND, NO_TOKEN};

const NEW: &[u8] = b"new";

fn begins_comment(rest: &[u8]) -> bool
    ensures { result ≡ begins_comment rest.now }
{
    matches!(rest, [b'/', b'*', ..])
}

fn begins_offset(rest: &[u8]) -> bool
    ensures { result ≡ begins_offset rest.now }
{
    matches!(rest, [b'+' | b'-', ..])
}

fn begins_mark(rest: &[u8]) -> bool
    ensures { result ≡ begins_mark rest.now }
{
    matches!(rest, [239, 187, 191, ..])
}

fn begins_hash(rest: &[u8]) -> bool
    ensures { result ≡ begins_hash rest.now }
{
    matches!(rest, [b'#', ..])
}

fn begins_call(rest: &[u8]) -> bool
    ensures { result ≡ begins_call rest.now }
{
    matches!(rest, [b'.', ..])
}

fn begins_beyond(rest: &[u8]) -> bool
    ensures { result ≡ begins_beyond rest.now }
{
    matches!(rest, [128..=255, ..])
}

fn has_capital(word: &[u8]) -> bool
    ensures { result ≡ has_capital word.now }
{
    word.iter().any(|b| matches!(*b, b'A'..=b'Z'))
}

// What may help where no token begins.
fn token_hint(at: u32, rest: &[u8]) -> Option<&'static [u8]>
    ensures { option_map (λ x. x.now) result ≡ first_fit (token_hints at rest.now) }
{
    if begins_comment(rest) || begins_hash(rest) {
        return Some(b"a comment begins with // and ends with its line");
    }
    if begins_call(rest) {
        return Some(b"a phaser stands in parentheses, as in await(b)");
    }
    if begins_offset(rest) {
        return Some(b"+ and - need pl 2; at the beginning of the text");
    }
    if at == 0 && begins_mark(rest) {
        return Some(b"the text begins with a byte order mark");
    }
    if begins_beyond(rest) {
        return Some(b"outside of comments all bytes are ASCII");
    }
    if has_capital(spelled(rest)) {
        return Some(b"only newTid and newPhaser have capitals");
    }
    None
}

// Whether `=` alone is wanted.
fn wants_equals(wanted: WantedTokens) -> bool
    ensures { result ≡ wants_equals wanted }
{
    matches!(wanted, WantedTokens::Sign(Sign::Equals))
}

fn is_clock_word(behind: Behind) -> bool
    ensures { result ≡ is_clock_word behind }
{
    matches!(behind, Behind::ClockWord)
}

fn is_header(behind: Behind) -> bool
    ensures { result ≡ is_header behind }
{
    matches!(behind, Behind::Header)
}

fn is_condition(behind: Behind) -> bool
    ensures { result ≡ is_condition behind }
{
    matches!(behind, Behind::Condition)
}

fn is_repetition(behind: Behind) -> bool
    ensures { result ≡ is_repetition behind }
{
    matches!(behind, Behind::Repetition)
}

fn wants_statement(wanted: WantedTokens) -> bool
    ensures { result ≡ wants_statement wanted }
{
    matches!(
        wanted,
        WantedTokens::StatementOrBrace | WantedTokens::StatementOrEnd
    )
}

fn wants_close(wanted: WantedTokens) -> bool
    ensures { result ≡ wants_close wanted }
{
    matches!(wanted, WantedTokens::Sign(Sign::CloseParen))
}

fn wants_semicolon(wanted: WantedTokens) -> bool
    ensures { result ≡ wants_semicolon wanted }
{
    matches!(wanted, WantedTokens::Sign(Sign::Semicolon))
}

fn wants_number(wanted: WantedTokens) -> bool
    ensures { result ≡ wants_number wanted }
{
    matches!(wanted, WantedTokens::Number)
}

fn wants_maker(wanted: WantedTokens) -> bool
    ensures { result ≡ wants_maker wanted }
{
    matches!(wanted, WantedTokens::Maker)
}

fn begins_number(rest: &[u8]) -> bool
    ensures { result ≡ begins_number rest.now }
{
    matches!(rest, [b'0'..=b'9', ..])
}

fn begins_word(rest: &[u8]) -> bool
    ensures { result ≡ begins_word rest.now }
{
    matches!(rest, [b'a'..=b'z', ..])
}

fn begins_with(byte: u8, rest: &[u8]) -> bool
    ensures { result ≡ begins_with byte rest.now }
{
    match rest {
        [] => false,
        [first, ..] => *first == byte,
    }
}

fn is_new(word: &[u8]) -> bool
    ensures { result ≡ bytes_eq word.now (codes "new") }
{
    word == NEW
}

// What may help where `=` is wanted behind a name.
fn name_hint(rest: &[u8], behind: Behind) -> Option<&'static [u8]>
    ensures { option_map (λ x. x.now) result ≡ first_fit (name_hints rest.now behind) }
{
    if begins_offset(rest) {
        return Some(b"only await takes + or -, as in await(x + 1)");
    }
    if is_clock_word(behind) {
        return Some(b"this may be a text of clocks: armus_explain clock reads those");
    }
    if is_header(behind) {
        return Some(b"pl 2; stands at the beginning of the text only");
    }
    if is_condition(behind) {
        return Some(b"there are no conditions: a kernel has what is done in one case");
    }
    if is_repetition(behind) {
        return Some(b"a loop is loop 3 { .. }, with the number of its turns");
    }
    Some(
        b"a statement is x = newTid(), x = newPhaser(), fork, reg, dereg, adv, await, loop or skip",
    )
}

// What may help where a maker or a number is wanted.
fn number_hint(rest: &[u8], wanted: WantedTokens) -> Option<&'static [u8]>
    ensures { option_map (λ x. x.now) result ≡ first_fit (number_hints rest.now wanted) }
{
    if wants_maker(wanted) && is_new(spelled(rest)) {
        return Some(b"newTid and newPhaser are one word");
    }
    if wants_maker(wanted) && begins_number(rest) {
        return Some(b"a name stands for a task or a phaser, and for no number");
    }
    if wants_number(wanted) && begins_word(rest) {
        return Some(b"a name stands for a task or a phaser, and for no number");
    }
    if wants_number(wanted) && begins_with(b'(', rest) {
        return Some(b"a loop is loop 3 { .. }, with the number of its turns");
    }
    None
}

// What may help where something else than `=` is wanted.
fn stand_hint(rest: &[u8], wanted: WantedTokens) -> Option<&'static [u8]>
    ensures { option_map (λ x. x.now) result ≡ first_fit (stand_hints rest.now wanted) }
{
    if begins_offset(rest) {
        return Some(b"only await takes + or -, as in await(x + 1)");
    }
    if wants_close(wanted) && begins_number(rest) {
        return Some(
            b"the parentheses of newTid() and newPhaser() are empty: reg makes a task a member",
        );
    }
    if wants_close(wanted) && begins_with(b',', rest) {
        return Some(b"each further task or phaser has a statement of its own");
    }
    if wants_statement(wanted) && begins_with(b';', rest) {
        return Some(b"no ; stands behind a } or another ;");
    }
    if wants_semicolon(wanted) {
        return Some(b"a ; ends the statement before");
    }
    number_hint(rest, wanted)
}

// What may help where a token cannot stand.
fn wanted_hint(rest: &[u8], stand: GrammarStand) -> Option<&'static [u8]>
    ensures { option_map (λ x. x.now) result ≡ first_fit (wanted_hints rest.now stand) }
{
    if wants_equals(stand.wanted) {
        name_hint(rest, stand.behind)
    } else {
        stand_hint(rest, stand.wanted)
    }
}

/// What may help with a fault of this kind, from whose place on this is left of the text.
pub(crate) fn hint_of(kind: u8, at: u32, rest: &[u8], stand: GrammarStand) -> Option<&'static [u8]>
    ensures { option_map (λ x. x.now) result ≡ first_fit (hints kind at rest.now stand) }
{
    match kind {
        NO_TOKEN => token_hint(at, rest),
        CANNOT_STAND => wanted_hint(rest, stand),
        _ => None,
    }
}
