// Parts of a line: what is read, and what stands behind it.
ghost use Rattle.std.specs.Prelude.{◌≡◌, ◌&&◌, ◌==◌, bytes_eq, codes, length};
ghost use Rattle.std.specs.Option.{option_copied, option_map};
ghost use Rattle.trace_lines.specs.Grammar.{is_participant_name};
ghost use Rattle.trace_lines.specs.Values.{said_value};
ghost use Rattle.trace_lines.specs.inside.Reading.{is_one_word_verb, is_place, number_part, phase_part, phaser_part, place_part, said_part, says_nothing};

use crate::Announcement;
use crate::words::{behind_word, is_phaser_name, number, word_before_space};

// The name of a phaser.
#[tactic(auto, unfolding(crate::specs::inside::Reading::phaser_part))]
fn phaser_part(rest: Option<&[u8]>) -> Option<(&[u8], Option<&[u8]>)>
    ensures { option_map (λ x. (x.0.now, option_copied x.1)) result ≡ phaser_part (option_copied rest.entry) }
{
    let bytes = rest?;
    let word = word_before_space(bytes);
    if is_phaser_name(word) {
        Some((word, behind_word(bytes)))
    } else {
        None
    }
}

// A number.
#[tactic(auto, unfolding(crate::specs::inside::Reading::number_part))]
fn number_part(rest: Option<&[u8]>) -> Option<(u32, Option<&[u8]>)>
    ensures { option_map (λ x. (x.0, option_copied x.1)) result ≡ number_part (option_copied rest.entry) }
{
    let bytes = rest?;
    let n = number(word_before_space(bytes))?;
    Some((n, behind_word(bytes)))
}

// The name of a phaser and a number.
#[tactic(auto, unfolding(crate::specs::inside::Reading::phase_part))]
fn phase_part(rest: Option<&[u8]>) -> Option<((&[u8], u32), Option<&[u8]>)>
    ensures { option_map (λ x. ((x.0.0.now, x.0.1), option_copied x.1)) result ≡ phase_part (option_copied rest.entry) }
{
    let (p, rest) = phaser_part(rest)?;
    let (n, rest) = number_part(rest)?;
    Some(((p, n), rest))
}

/// What a verb and the words behind it say.
#[tactic(auto, unfolding(crate::specs::inside::Reading::said_part))]
pub(crate) fn said_part<'a>(
    verb: &[u8],
    rest: Option<&'a [u8]>,
) -> Option<(Announcement<'a>, Option<&'a [u8]>)>
    ensures { option_map (λ x. (said_value x.0, option_copied x.1)) result ≡ said_part verb.now (option_copied rest.entry) }
{
    if verb == b"join".as_slice() {
        let ((p, n), rest) = phase_part(rest)?;
        return Some((Announcement::Joins(p, n), rest));
    }
    if verb == b"wait".as_slice() {
        let ((p, n), rest) = phase_part(rest)?;
        return Some((Announcement::Waits(p, n), rest));
    }
    if verb == b"arrive".as_slice() {
        let (p, rest) = phaser_part(rest)?;
        return Some((Announcement::Arrives(p), rest));
    }
    if verb == b"leave".as_slice() {
        let (p, rest) = phaser_part(rest)?;
        return Some((Announcement::Leaves(p), rest));
    }
    if verb == b"go".as_slice() {
        return Some((Announcement::Goes, rest));
    }
    if verb == b"end".as_slice() {
        return Some((Announcement::Ends, rest));
    }
    if verb == b"at".as_slice() {
        return Some((Announcement::Stands, rest));
    }
    None
}

// Whether a place may stand here, behind its sign.
#[tactic(auto, unfolding(crate::specs::inside::Reading::is_place))]
fn is_place(bytes: &[u8]) -> bool
    ensures { result ≡ is_place bytes.now }
{
    2 <= bytes.len() && bytes.len() <= 257 && bytes[0] == b'@'
}

/// A place, or none.
#[tactic(auto, unfolding(crate::specs::inside::Reading::place_part))]
pub(crate) fn place_part(rest: Option<&[u8]>) -> Option<Option<&[u8]>>
    ensures { option_map (λ x. option_copied x) result ≡ place_part (option_copied rest.entry) }
{
    match rest {
        None => Some(None),
        Some(bytes) => {
            if is_place(bytes) {
                Some(Some(&bytes[1..]))
            } else {
                None
            }
        }
    }
}

/// Whether it says nothing, so that it must have a place.
#[tactic(auto, unfolding(crate::specs::inside::Reading::says_nothing))]
pub(crate) fn says_nothing(what: &Announcement) -> bool
    ensures { result ≡ says_nothing (said_value what.now) }
{
    matches!(what, Announcement::Stands)
}

/// A verb that is a line's last word.
#[tactic(auto, unfolding(crate::specs::inside::Reading::is_one_word_verb))]
pub(crate) fn is_one_word_verb(verb: &[u8]) -> bool
    ensures { result ≡ is_one_word_verb verb.now }
{
    verb == b"go".as_slice() || verb == b"end".as_slice() || verb == b"at".as_slice()
}
