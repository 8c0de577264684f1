// Words of a line.
ghost use Rattle.std.specs.Prelude.{◌≡◌, ◌<◌, ◌≤◌, ◌^◌, ◌&&◌, ℕ, IfSome, length, nat_le};
ghost use Rattle.std.specs.List.{list_all, position_or_len};
ghost use Rattle.std.specs.Option.{option_copied};
ghost use Rattle.trace_lines.specs.Grammar.{is_participant_name, is_phaser_name, is_word};
ghost use Rattle.trace_lines.specs.inside.Reading.{are_digits, behind_word, word_before_space, is_space, may_be_number, phase_number_at};

use std::str;

// Where the first space stands, or how long the bytes are.
fn space_at(bytes: &[u8]) -> usize
    ensures at { result ≡ position_or_len is_space bytes.now }
    ensures within { result ≤ length bytes.now }
{
    for (at, byte) in bytes.iter().enumerate() {
        if *byte == b' ' {
            return at;
        }
    }
    bytes.len()
}

/// The first word.
#[tactic(auto, unfolding(crate::specs::inside::Reading::word_before_space))]
pub(crate) fn word_before_space(bytes: &[u8]) -> &[u8]
    ensures { result.now ≡ word_before_space bytes.now }
{
    &bytes[..space_at(bytes)]
}

/// What stands behind the first space, where there is one.
#[tactic(auto, unfolding(crate::specs::inside::Reading::behind_word))]
pub(crate) fn behind_word(bytes: &[u8]) -> Option<&[u8]>
    ensures behind { option_copied result ≡ behind_word bytes.now }
    ensures shorter { IfSome result (λ rest. length rest.now < length bytes.now) }
{
    let at = space_at(bytes);
    if at < bytes.len() {
        Some(&bytes[at + 1..])
    } else {
        None
    }
}

/// The first of words that stand one behind the other, a space between, and what stands behind its space; none where there is no space.
#[tactic(auto, unfolding(crate::specs::inside::Reading::behind_word, crate::specs::inside::Reading::word_before_space))]
pub fn split_word(bytes: &[u8]) -> (&[u8], Option<&[u8]>)
    ensures word { result.0.now ≡ word_before_space bytes.now }
    ensures behind { option_copied result.1 ≡ behind_word bytes.now }
    ensures shorter { IfSome result.1 (λ rest. length rest.now < length bytes.now) }
{
    let at = space_at(bytes);
    let word = &bytes[..at];
    if at < bytes.len() {
        (word, Some(&bytes[at + 1..]))
    } else {
        (word, None)
    }
}

// Whether these are bytes of words alone.
fn are_word_bytes(word: &[u8]) -> bool
    ensures { result ≡ list_all (λ b. nat_le 33 b && nat_le b 126) word.now }
{
    for byte in word {
        if *byte < 33 || *byte > 126 {
            return false;
        }
    }
    true
}

// Whether this is a word: 1 to 64 bytes from 33 to 126.
#[tactic(auto, unfolding(crate::specs::Grammar::is_word))]
fn is_word(word: &[u8]) -> bool
    ensures { result ≡ is_word word.now }
{
    1 <= word.len() && word.len() <= 64 && are_word_bytes(word)
}

/// Whether this may be the name of a phaser.
#[tactic(auto, unfolding(crate::specs::Grammar::is_phaser_name))]
pub(crate) fn is_phaser_name(word: &[u8]) -> bool
    ensures { result ≡ is_phaser_name word.now }
{
    is_word(word) && word[0] != b'@'
}

/// Whether this may be the name of a task or wildcard.
#[tactic(auto, unfolding(crate::specs::Grammar::is_participant_name))]
pub(crate) fn is_participant_name(word: &[u8]) -> bool
    ensures { result ≡ is_participant_name word.now }
{
    is_word(word) && word[0] != b'@' && word[0] != b'#'
}

// Whether these are digits alone.
fn are_digits(word: &[u8]) -> bool
    ensures { result ≡ are_digits word.now }
{
    for byte in word {
        if *byte < b'0' || *byte > b'9' {
            return false;
        }
    }
    true
}

// Whether these are one to ten digits, without a leading zero.
#[tactic(auto, unfolding(crate::specs::inside::Reading::may_be_number))]
fn may_be_number(word: &[u8]) -> bool
    ensures { result ≡ may_be_number word.now }
{
    1 <= word.len() && word.len() <= 10 && (word.len() == 1 || word[0] != b'0') && are_digits(word)
}

/// The number below 2 ^ 32 whose digits these are, without a leading zero.
#[tactic(auto, using(crate::proofs::Numbers::number_is, crate::proofs::Numbers::number_is_none))]
pub(crate) fn number(word: &[u8]) -> Option<u32>
    ensures { result ≡ phase_number_at word.now }
{
    if !may_be_number(word) {
        return None;
    }
    match str::from_utf8(word) {
        Ok(text) => match text.parse::<u32>() {
            Ok(n) => Some(n),
            Err(_) => None,
        },
        Err(_) => None,
    }
}
