// What a word is: a keyword, a number, a name, or at fault.

ghost use Rattle.std.specs.Prelude.{◌≡◌, ◌<◌, ◌≤◌, length, Some, None, true, nat_le, if◌then◌else◌};
ghost use Rattle.std.specs.List.{list_all, list_any};
ghost use Rattle.std.specs.Str.{bytes_eq};
ghost use Rattle.pl_syntax.specs.Words.{is_word_byte, is_name_byte, is_lower, is_digit, keyword_of, clock_keyword_of, keyword_in, has_name_form, has_no_leading_zero, number_of, value_from};
ghost use Rattle.pl_syntax.specs.Tokens.{word_token};
ghost use Rattle.pl_syntax.specs.inside.Seen.{token_seen};

use crate::fault::{NO_NUMBER, NO_TOKEN, TOO_LONG};
use crate::limits::{MAX_DIGITS, MAX_NAME_BYTES, MAX_NUMBER};
use crate::scan::Language;
use crate::token::{Keyword, Token};

// A digit.
fn is_digit(b: u8) -> bool
    ensures { result ≡ is_digit b }
{
    matches!(b, b'0'..=b'9')
}

// A lower-case letter.
fn is_lower(b: u8) -> bool
    ensures { result ≡ is_lower b }
{
    matches!(b, b'a'..=b'z')
}

/// A letter, a digit or `_`.
pub fn is_word_byte(b: u8) -> bool
    ensures { result ≡ is_word_byte b }
{
    is_lower(b) || (matches!(b, b'A'..=b'Z') || (is_digit(b) || b == b'_'))
}

// What a name may go on with.
fn is_name_byte(b: u8) -> bool
    ensures { result ≡ is_name_byte b }
{
    is_lower(b) || (is_digit(b) || b == b'_')
}

fn are_name_bytes(word: &[u8]) -> bool
    ensures { result ≡ list_all is_name_byte word.now }
{
    word.iter().all(|b| is_name_byte(*b))
}

// Lower-case letters, digits and `_`, from a letter on.
fn has_name_form(word: &[u8]) -> bool
    ensures { result ≡ has_name_form word.now }
{
    match word {
        [] => false,
        [b, ..] => is_lower(*b) && are_name_bytes(word),
    }
}

fn is_spelled(word: &[u8], spelling: &[u8]) -> bool
    ensures { result ≡ bytes_eq word.now spelling.now }
{
    word == spelling
}

// The keyword of PL that is spelled so.
#[tactic(auto, unfolding(crate::specs::Words::keyword_of))]
fn keyword_of(word: &[u8]) -> Option<Keyword>
    ensures { result ≡ keyword_of word.now }
{
    if is_spelled(word, b"newTid") {
        return Some(Keyword::NewTid);
    }
    if is_spelled(word, b"newPhaser") {
        return Some(Keyword::NewPhaser);
    }
    if is_spelled(word, b"fork") {
        return Some(Keyword::Fork);
    }
    if is_spelled(word, b"reg") {
        return Some(Keyword::Reg);
    }
    if is_spelled(word, b"dereg") {
        return Some(Keyword::Dereg);
    }
    if is_spelled(word, b"adv") {
        return Some(Keyword::Adv);
    }
    if is_spelled(word, b"await") {
        return Some(Keyword::Await);
    }
    if is_spelled(word, b"loop") {
        return Some(Keyword::Loop);
    }
    if is_spelled(word, b"skip") {
        return Some(Keyword::Skip);
    }
    None
}

// The keyword of the language of clocks that is spelled so.
#[tactic(auto, unfolding(crate::specs::Words::clock_keyword_of))]
fn clock_keyword_of(word: &[u8]) -> Option<Keyword>
    ensures { result ≡ clock_keyword_of word.now }
{
    if is_spelled(word, b"clock") {
        return Some(Keyword::Clock);
    }
    if is_spelled(word, b"async") {
        return Some(Keyword::Async);
    }
    if is_spelled(word, b"finish") {
        return Some(Keyword::Finish);
    }
    if is_spelled(word, b"advance") {
        return Some(Keyword::Advance);
    }
    if is_spelled(word, b"resume") {
        return Some(Keyword::Resume);
    }
    if is_spelled(word, b"drop") {
        return Some(Keyword::Drop);
    }
    if is_spelled(word, b"loop") {
        return Some(Keyword::Loop);
    }
    if is_spelled(word, b"skip") {
        return Some(Keyword::Skip);
    }
    None
}

// The keyword of the language that is spelled so.
fn keyword_in(language: Language, word: &[u8]) -> Option<Keyword>
    ensures { result ≡ keyword_in language word.now }
{
    match language {
        Language::Phasers => keyword_of(word),
        Language::Clocks => clock_keyword_of(word),
    }
}

fn are_digits(word: &[u8]) -> bool
    ensures { result ≡ list_all is_digit word.now }
{
    word.iter().all(|b| is_digit(*b))
}

// The value of a word, where it is a number.
fn number_of(word: &[u8]) -> Option<u16>
    ensures { result ≡ number_of word.now }
{
    if !are_digits(word) {
        return None;
    }
    if word.len() > MAX_DIGITS {
        return None;
    }
    if let [b'0', _, ..] = word {
        return None;
    }
    value_of(word)
}

// The value of digits, where it is not too great.
fn value_of(word: &[u8]) -> Option<u16>
    requires { list_all is_digit word.now ≡ true }
    ensures { result ≡ (if nat_le (value_from 0 word.now) MAX_NUMBER then Some (value_from 0 word.now) else None) }
{
    let mut value: u32 = 0;
    for b in word {
        value = 10 * value + u32::from(*b - 48);
        if value > MAX_NUMBER {
            return None;
        }
    }
    Some(value as u16)
}

/// What a word of the language is, or the kind of its fault.
pub fn word_token(language: Language, word: &[u8]) -> Result<Token, u8>
    ensures { token_seen result ≡ word_token language word.now }
{
    if let [b'0'..=b'9', ..] = word {
        return match number_of(word) {
            Some(k) => Ok(Token::Number(k)),
            None => Err(NO_NUMBER),
        };
    }
    if let Some(k) = keyword_in(language, word) {
        return Ok(Token::Word(k));
    }
    if !has_name_form(word) {
        return Err(NO_TOKEN);
    }
    if word.len() > MAX_NAME_BYTES {
        return Err(TOO_LONG);
    }
    Ok(Token::Name(word))
}
