// From bytes to tokens. A text is passed on as what is left of it, beside how it is read.

ghost use Rattle.std.specs.Prelude.{◌≡◌, ◌+◌, ◌-◌, ◌<◌, ◌≤◌, ◌^◌, ℕ, List as Seq, length, Ok, Err, IfOk};
ghost use Rattle.std.specs.List.{prefix_len};
ghost use Rattle.pl_syntax.specs.Words.{is_word_byte};
ghost use Rattle.pl_syntax.specs.Tokens.{Token as TokenValue, token_here, front, is_blank, after_gap, after_comment, sign_of, sign_token, place};
ghost use Rattle.pl_syntax.specs.inside.Seen.{token_of, token_seen, front_seen, HasForm};

use crate::fault::{NO_TOKEN, SyntaxFault};
use crate::scan::Scan;
use crate::token::{Sign, Token};
use crate::word::{is_word_byte, word_token};

fn is_blank(b: u8) -> bool
    ensures { result ≡ is_blank b }
{
    matches!(b, b' ' | b'\t' | b'\r' | b'\n')
}

// What follows the comment that is open, from its line's end on.
fn after_comment(text: &[u8]) -> &[u8]
    ensures gap { after_gap result.now ≡ after_comment text.now }
    ensures no_longer { length result.now ≤ length text.now }
{
    let mut rest = text;
    while let [b, tail @ ..] = rest {
        rest = tail;
        if *b == b'\n' {
            return rest;
        }
    }
    rest
}

// What follows the blanks and comments at the front.
fn after_gap(text: &[u8]) -> &[u8]
    ensures gap { result.now ≡ after_gap text.now }
    ensures no_longer { length result.now ≤ length text.now }
{
    let mut rest = text;
    loop {
        match rest {
            [b'/', b'/', tail @ ..] => rest = after_comment(tail),
            [b, tail @ ..] if is_blank(*b) => rest = tail,
            _ => return rest,
        }
    }
}

// How long the run of word bytes at the front is.
fn word_len(text: &[u8]) -> usize
    ensures len { result ≡ prefix_len is_word_byte text.now }
    ensures within { result ≤ length text.now }
{
    text.iter().take_while(|b| is_word_byte(**b)).count()
}

// The sign that is this byte, where `+` and `-` are signs or not.
fn sign_of(offsets: bool, b: u8) -> Option<Sign>
    ensures { result ≡ sign_of offsets b }
{
    match b {
        b'=' => Some(Sign::Equals),
        b'(' => Some(Sign::OpenParen),
        b')' => Some(Sign::CloseParen),
        b',' => Some(Sign::Comma),
        b';' => Some(Sign::Semicolon),
        b'{' => Some(Sign::OpenBrace),
        b'}' => Some(Sign::CloseBrace),
        b'+' if offsets => Some(Sign::Plus),
        b'-' if offsets => Some(Sign::Minus),
        _ => None,
    }
}

// A sign, or the kind of the fault of a byte that is none.
fn sign_token(offsets: bool, b: u8) -> Result<Token<'static>, u8>
    ensures { token_seen result ≡ sign_token (sign_of offsets b) }
{
    match sign_of(offsets, b) {
        Some(sign) => Ok(Token::Sign(sign)),
        None => Err(NO_TOKEN),
    }
}

// The token that begins here, where neither a blank nor a comment does.
fn token_here(scan: Scan, text: &[u8]) -> Result<(Token, &[u8]), SyntaxFault>
    requires within { length text.now ≤ scan.total }
    requires small { scan.total < 2 ^ 32 }
    ensures exact { front_seen result ≡ token_here scan text.now }
    ensures no_longer { IfOk result (λ x. length x.1.now ≤ length text.now) }
{
    match text {
        [] => Ok((Token::End, text)),
        [b, ..] if is_word_byte(*b) => {
            let (word, rest) = text.split_at(word_len(text));
            match word_token(scan.language, word) {
                Ok(token) => Ok((token, rest)),
                Err(kind) => Err(SyntaxFault {
                    at: (scan.total - text.len()) as u32,
                    kind,
                }),
            }
        }
        [b, rest @ ..] => match sign_token(scan.offsets, *b) {
            Ok(token) => Ok((token, rest)),
            Err(kind) => Err(SyntaxFault {
                at: (scan.total - text.len()) as u32,
                kind,
            }),
        },
    }
}

/// The next token of a text of which this is left, and the bytes after it.
#[tactic(auto, unfolding(crate::specs::Tokens::front))]
pub fn next(scan: Scan, text: &[u8]) -> Result<(Token, &[u8]), SyntaxFault>
    requires within { length text.now ≤ scan.total }
    requires small { scan.total < 2 ^ 32 }
    ensures exact { front_seen result ≡ front scan text.now }
    ensures no_longer { IfOk result (λ x. length x.1.now ≤ length text.now) }
    ensures name { IfOk result (λ x. HasForm scan.language x.0) }
{
    token_here(scan, after_gap(text))
}

/// The next token of a text in which there is one, and the bytes after it.
pub fn token_at(scan: Scan, text: &[u8]) -> (Token, &[u8])
    requires within { length text.now ≤ scan.total }
    requires small { scan.total < 2 ^ 32 }
    requires some { (token : TokenValue) × (rest : Seq ℕ) × (front scan text.now ≡ Ok (token, rest)) }
    ensures exact { front scan text.now ≡ Ok (token_of result.0, result.1.now) }
    ensures no_longer { length result.1.now ≤ length text.now }
{
    match next(scan, text) {
        Ok(found) => found,
        Err(_) => unreachable!(),
    }
}

/// Where the next token begins.
pub fn place(scan: Scan, text: &[u8]) -> u32
    requires within { length text.now ≤ scan.total }
    requires small { scan.total < 2 ^ 32 }
    ensures { result ≡ place scan text.now }
{
    (scan.total - after_gap(text).len()) as u32
}
