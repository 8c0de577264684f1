// What the grammar of clocks has at a place of a text, by the tokens in front of it.
ghost use Rattle.std.specs.Prelude.{◌≡◌};
ghost use Rattle.pl_syntax.specs.inside.Seen.{token_of};
ghost use Rattle.explain_clock.specs.ClockStands.{stand_after, stand_after_close, stand_after_name, stand_after_open, stand_after_sign, stand_after_word, stand_in_front};

use pl_syntax::lexer::{next, place};
use pl_syntax::scan::{Language, Scan};
use pl_syntax::token::{Keyword, Sign, Token};
use source_map::TextPlaces;

/// What is wanted behind some tokens of a clock text.
#[derive(Clone, Copy, Debug, PartialEq, Eq)]
pub(crate) enum ClockStand {
    /// A statement, the end of a body, or the end of the text.
    Statement,
    /// The name of a new clock.
    ClockName,
    /// The parenthesis of an async.
    AsyncOpen,
    /// The first name of an async, or the end of its list.
    FirstName,
    /// A comma, or the end of the list.
    ListEnd,
    /// A further name of the list.
    ListName,
    /// The parenthesis of an advance, a resume or a drop.
    CallOpen,
    /// The name there.
    CallName,
    /// The end of the parentheses.
    CallEnd,
    /// The number of a loop.
    Turns,
    /// The brace of a body.
    Body,
    /// The semicolon of a statement.
    Semicolon,
}

// Behind the word with which a statement begins.
fn stand_after_word(k: Keyword) -> ClockStand
    ensures { result ≡ stand_after_word k }
{
    match k {
        Keyword::Clock => ClockStand::ClockName,
        Keyword::Async => ClockStand::AsyncOpen,
        Keyword::Finish => ClockStand::Body,
        Keyword::Advance => ClockStand::CallOpen,
        Keyword::Resume => ClockStand::CallOpen,
        Keyword::Drop => ClockStand::CallOpen,
        Keyword::Loop => ClockStand::Turns,
        Keyword::Skip => ClockStand::Semicolon,
        _ => ClockStand::Statement,
    }
}

// Behind a name.
fn stand_after_name(stand: ClockStand) -> ClockStand
    ensures { result ≡ stand_after_name stand }
{
    match stand {
        ClockStand::ClockName => ClockStand::Semicolon,
        ClockStand::FirstName => ClockStand::ListEnd,
        ClockStand::ListName => ClockStand::ListEnd,
        ClockStand::CallName => ClockStand::CallEnd,
        _ => ClockStand::Statement,
    }
}

// Behind `(`.
fn stand_after_open(stand: ClockStand) -> ClockStand
    ensures { result ≡ stand_after_open stand }
{
    match stand {
        ClockStand::AsyncOpen => ClockStand::FirstName,
        ClockStand::CallOpen => ClockStand::CallName,
        _ => ClockStand::Statement,
    }
}

// Behind `)`.
fn stand_after_close(stand: ClockStand) -> ClockStand
    ensures { result ≡ stand_after_close stand }
{
    match stand {
        ClockStand::CallEnd => ClockStand::Semicolon,
        ClockStand::FirstName => ClockStand::Body,
        ClockStand::ListEnd => ClockStand::Body,
        _ => ClockStand::Statement,
    }
}

// Behind a sign.
fn stand_after_sign(stand: ClockStand, sign: Sign) -> ClockStand
    ensures { result ≡ stand_after_sign stand sign }
{
    match sign {
        Sign::OpenParen => stand_after_open(stand),
        Sign::CloseParen => stand_after_close(stand),
        Sign::Comma => ClockStand::ListName,
        _ => ClockStand::Statement,
    }
}

// Behind a token.
fn stand_after(stand: ClockStand, token: &Token) -> ClockStand
    ensures { result ≡ stand_after stand (token_of token.now) }
{
    match token {
        Token::Word(k) => stand_after_word(*k),
        Token::Name(_) => stand_after_name(stand),
        Token::Number(_) => ClockStand::Body,
        Token::Sign(sign) => stand_after_sign(stand, *sign),
        Token::End => ClockStand::Statement,
    }
}

/// What is wanted at byte `at` of a text, by the tokens in front of it.
pub(crate) fn stand_in_front(places: &TextPlaces<'_>, at: u32) -> ClockStand
    ensures { result ≡ stand_in_front places.now at }
{
    let text = places.text();
    let scan = Scan {
        total: text.len(),
        offsets: false,
        language: Language::Clocks,
    };
    let mut rest = text;
    let mut stand = ClockStand::Statement;
    for _ in 0..text.len() {
        if place(scan, rest) >= at {
            return stand;
        }
        let Ok((token, after)) = next(scan, rest) else {
            return stand;
        };
        stand = stand_after(stand, &token);
        rest = after;
    }
    stand
}
