// From the bytes of a line to what it says.
ghost use Rattle.std.specs.Prelude.{◌≡◌, ◌++◌, ℕ, List, codes, IfSome, IfNone};
ghost use Rattle.std.specs.Option.{option_copied, option_map};
ghost use Rattle.monitor_laws.specs.Lines.{TraceLine as Line};
ghost use Rattle.trace_lines.specs.Grammar.{IsLine};
ghost use Rattle.trace_lines.specs.Values.{line_value, said_value};
ghost use Rattle.trace_lines.specs.inside.Reading.{announced, gone_line, trace_line_at, named_line, place_part, placed_said, said_part, short_line, behind_word, verb_line, worded_line};

use crate::names::are_names;
use crate::parts::{is_one_word_verb, place_part, said_part, says_nothing};
use crate::words::{behind_word, is_participant_name, word_before_space};
use crate::{Announcement, TraceLine};

// How many bytes a line has at most, its LF not counted.
const MOST_LINE_BYTES: usize = 511;

// What is said of t, with the place that stands behind it.
#[tactic(auto, unfolding(crate::specs::inside::Reading::placed_said))]
fn placed_said<'a>(
    t: &'a [u8],
    what: Announcement<'a>,
    rest: Option<&'a [u8]>,
) -> Option<TraceLine<'a>>
    ensures { option_map line_value result ≡ placed_said t.now (said_value what.entry) (place_part (option_copied rest.entry)) }
{
    match place_part(rest)? {
        None => {
            if says_nothing(&what) {
                None
            } else {
                Some(TraceLine::Announces(t, what, None))
            }
        }
        Some(raw) => Some(TraceLine::Announces(t, what, Some(raw))),
    }
}

// What a verb and the words behind it say of t.
#[tactic(auto, unfolding(crate::specs::inside::Reading::announced))]
fn announced<'a>(t: &'a [u8], verb: &[u8], rest: Option<&'a [u8]>) -> Option<TraceLine<'a>>
    ensures { option_map line_value result ≡ announced t.now (said_part verb.now (option_copied rest.entry)) }
{
    let (what, rest) = said_part(verb, rest)?;
    placed_said(t, what, rest)
}

// A line with the name t, a verb and what stands behind it.
#[tactic(auto, unfolding(crate::specs::inside::Reading::verb_line))]
fn verb_line<'a>(t: &'a [u8], verb: &[u8], rest: Option<&'a [u8]>) -> Option<TraceLine<'a>>
    ensures { option_map line_value result ≡ verb_line t.now verb.now (option_copied rest.entry) }
{
    if verb == b"any".as_slice() {
        return match rest {
            None => Some(TraceLine::PlaysAny(t)),
            Some(_) => None,
        };
    }
    if verb == b"of".as_slice() {
        let names = rest?;
        if are_names(names) {
            return Some(TraceLine::PlaysOneOf(t, names));
        }
        return None;
    }
    announced(t, verb, rest)
}

// A line that begins with `gone` and a space: what stands behind.
#[tactic(auto, unfolding(crate::specs::inside::Reading::gone_line))]
fn gone_line<'a>(gone: &'a [u8], bytes: &'a [u8]) -> Option<TraceLine<'a>>
    requires { gone.now ≡ codes "gone" }
    ensures { option_map line_value result ≡ gone_line bytes.now (behind_word bytes.now) }
{
    let rest = behind_word(bytes);
    if rest.is_none() {
        if is_participant_name(bytes) {
            return Some(TraceLine::AreGone(bytes));
        }
        return None;
    }
    let verb = word_before_space(bytes);
    if is_one_word_verb(verb) {
        return None;
    }
    verb_line(gone, verb, rest)
}

// A line that begins with the word t and a space: what stands behind.
#[tactic(auto, unfolding(crate::specs::inside::Reading::named_line))]
fn named_line<'a>(t: &'a [u8], bytes: &'a [u8]) -> Option<TraceLine<'a>>
    ensures { option_map line_value result ≡ named_line t.now bytes.now }
{
    if !is_participant_name(t) {
        return None;
    }
    if t == b"gone".as_slice() {
        return gone_line(t, bytes);
    }
    verb_line(t, word_before_space(bytes), behind_word(bytes))
}

// A line of one word.
#[tactic(auto, unfolding(crate::specs::inside::Reading::short_line))]
fn short_line(bytes: &[u8]) -> Option<TraceLine<'_>>
    ensures { option_map line_value result ≡ short_line bytes.now }
{
    if bytes == b"report".as_slice() {
        return Some(TraceLine::AsksReport);
    }
    if bytes == b"list".as_slice() {
        return Some(TraceLine::AsksList);
    }
    None
}

// A line that says something, if it is one.
#[tactic(auto, unfolding(crate::specs::inside::Reading::worded_line))]
fn worded_line(bytes: &[u8]) -> Option<TraceLine<'_>>
    ensures { option_map line_value result ≡ worded_line bytes.now (behind_word bytes.now) }
{
    match behind_word(bytes) {
        None => short_line(bytes),
        Some(rest) => named_line(word_before_space(bytes), rest),
    }
}

// What a line says, if it is one.
#[tactic(auto, unfolding(crate::specs::inside::Reading::trace_line_at))]
fn trace_line_at(bytes: &[u8]) -> Option<TraceLine<'_>>
    ensures { option_map line_value result ≡ trace_line_at bytes.now }
{
    if bytes.len() > MOST_LINE_BYTES {
        return None;
    }
    if bytes.is_empty() || bytes[0] == b'#' {
        return Some(TraceLine::SaysNothing);
    }
    worded_line(bytes)
}

/// What a line says, its LF left out; nothing where the bytes are no line.
pub fn read_line(bytes: &[u8]) -> Option<TraceLine<'_>>
    ensures read { IfSome result (λ l. IsLine bytes.now (line_value l)) }
    ensures none { IfNone result ((l : Line) → IsLine bytes.now l → ⊥) }
{
    trace_line_at(bytes)
}

/// The bytes of a line spell one line at most.
pub fn one_line()
    ensures { (bytes : List ℕ) (l m : Line) → IsLine bytes l → IsLine bytes m → l ≡ m }
{}
