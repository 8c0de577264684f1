// From the beginning of a text to the place of its first fault, token by token.
ghost use Rattle.std.specs.Prelude.{◌≡◌, ◌<◌, ◌≤◌, ◌^◌, ◌↔◌, ℕ, Bool, false, true, [], ◌∷◌, List as Seq, length, reverse, IfOk, OnOk, IfSome, IfNone, IsSome, IsTrue, Ok, Some};
ghost use Rattle.pl_syntax.specs.Grammar.{HasFault, ReadsTokens, header, scan_of};
ghost use Rattle.pl_syntax.specs.Tokens.{Token as TokenValue, Leads, front, sign};
ghost use Rattle.pl_syntax.specs.inside.Reading.{is_pl, is_two};
ghost use Rattle.pl_syntax.specs.inside.Seen.{token_of};
ghost use Rattle.pl_syntax.specs.declared.token.Sign.TheVariants.{Semicolon};
ghost use Rattle.explain_syntax.specs.Stands.{IsStand, StandsBehind, first_as_name};
ghost use Rattle.explain_syntax.specs.inside.OpenBraces.{braces_after, first_brace};
ghost use Rattle.explain_syntax.specs.inside.Shapes.{wanted_by};
ghost use Rattle.explain_syntax.specs.inside.Walking.{WalkComesTo, IsOutside};

use crate::shape::{Shape, shapes_after};
use crate::stand::{Behind, GrammarStand};
use crate::wanted::WantedTokens;
use armus_base::NoMemory;
use pl_syntax::SyntaxFault;
use pl_syntax::lexer::{next, place, token_at};
use pl_syntax::scan::{Language, Scan};
use pl_syntax::token::{Sign, Token};
use std::alloc::Global;

// Which name this token is.
fn behind_of(token: &Token) -> Behind
    ensures { result ≡ first_as_name (token_of token.now ∷ []) }
{
    match token {
        Token::Name(b"clock" | b"async" | b"finish" | b"advance" | b"resume" | b"drop") => {
            Behind::ClockWord
        }
        Token::Name(b"pl") => Behind::Header,
        Token::Name(b"if") => Behind::Condition,
        Token::Name(b"while" | b"for") => Behind::Repetition,
        _ => Behind::Other,
    }
}

// One open brace more, or less.
fn note_brace(braces: &mut Vec<u32>, token: &Token, offset: u32) -> Result<(), NoMemory>
    ensures { OnOk result (braces.new.items ≡ braces_after (token_of token.now) offset braces.old.items) }
{
    match token {
        Token::Sign(Sign::OpenBrace) => braces.push(offset)?,
        Token::Sign(Sign::CloseBrace) => {
            braces.pop();
        }
        _ => {}
    }
    Ok(())
}

// The innermost of these open braces.
fn innermost(braces: &Vec<u32>) -> Option<u32>
    ensures { result ≡ first_brace (reverse braces.now.items) }
{
    braces.last().copied()
}

// What is wanted where these are waited for, and a brace is open or not.
fn wanted_by(offsets: bool, shapes: &[Shape], is_open: bool) -> WantedTokens
    ensures { result ≡ wanted_by offsets shapes.now is_open }
{
    match shapes {
        [] if is_open => WantedTokens::StatementOrBrace,
        [] => WantedTokens::StatementOrEnd,
        [Shape::Sign(sign), ..] => WantedTokens::Sign(*sign),
        [Shape::Name, ..] => WantedTokens::Name,
        [Shape::Number, ..] => WantedTokens::Number,
        [Shape::Maker, ..] => WantedTokens::Maker,
        [Shape::Offset, ..] if offsets => WantedTokens::ParenOrOffset,
        [Shape::Offset, ..] => WantedTokens::Sign(Sign::CloseParen),
    }
}

// How the bytes of a text are read, in PL 1 or in PL 2.
fn scan_of(two: bool, text: &[u8]) -> Scan
    ensures { result ≡ scan_of two text.now }
{
    Scan {
        total: text.len(),
        offsets: two,
        language: Language::Phasers,
    }
}

// What the grammar says of the place behind so many bytes, from the first statement of a text on, which this begins.
fn stand_behind(
    alloc: Global,
    text: &[u8],
    two: bool,
    body: &[u8],
    at: u32,
) -> Result<GrammarStand, NoMemory>
    requires short { length text.now < 2 ^ 32 }
    requires within { length body.now ≤ length text.now }
    requires header { ReadsTokens two text.now [] body.now }
    requires comes { (before : Seq TokenValue) × WalkComesTo text.now two body.now at before }
    ensures stands { IfOk result (λ s. (before : Seq TokenValue) → WalkComesTo text.now two body.now at before → StandsBehind text.now two before s) }
{
    let scan = scan_of(two, text);
    let mut rest = body;
    let mut shapes: &'static [Shape] = &[];
    let mut braces = Vec::new(alloc);
    let mut behind = Behind::Other;
    while place(scan, rest) != at {
        let (token, after) = token_at(scan, rest);
        note_brace(&mut braces, &token, place(scan, rest))?;
        shapes = shapes_after(shapes, &token);
        behind = behind_of(&token);
        rest = after;
    }
    let brace = innermost(&braces);
    Ok(GrammarStand {
        wanted: wanted_by(two, shapes, brace.is_some()),
        behind,
        brace,
    })
}

// Whether the token is the name `pl`.
fn is_pl(token: &Token) -> bool
    ensures { result ≡ is_pl (token_of token.now) }
{
    matches!(token, Token::Name(b"pl"))
}

// Whether the token is the number 2.
fn is_two(token: &Token) -> bool
    ensures { result ≡ is_two (token_of token.now) }
{
    matches!(token, Token::Number(2))
}

// Whether the token is a semicolon.
fn is_semicolon(token: &Token) -> bool
    ensures { IsTrue result ↔ (token_of token.now ≡ sign Semicolon) }
{
    matches!(token, Token::Sign(Sign::Semicolon))
}

// What the grammar says of the place of a fault, where that stands within the header of PL 2.
fn stand_in_header(text: &[u8], fault: SyntaxFault) -> Option<GrammarStand>
    requires short { length text.now < 2 ^ 32 }
    requires fault { HasFault text.now fault }
    ensures inside { IfSome result (IsStand text.now fault) }
    ensures outside { IfNone result (IsOutside text.now fault) }
{
    let scan = scan_of(false, text);
    if place(scan, text) == fault.at {
        return None;
    }
    let (first, rest) = token_at(scan, text);
    if !is_pl(&first) {
        return None;
    }
    if place(scan, rest) == fault.at {
        return Some(GrammarStand {
            wanted: WantedTokens::EqualsOrTwo,
            behind: Behind::Header,
            brace: None,
        });
    }
    let (second, rest) = token_at(scan, rest);
    if !is_two(&second) {
        return None;
    }
    if place(scan, rest) == fault.at {
        return Some(GrammarStand {
            wanted: WantedTokens::Sign(Sign::Semicolon),
            behind: Behind::Other,
            brace: None,
        });
    }
    None
}

// What is left behind the header of PL 2, where the text has one.
fn behind_header(text: &[u8]) -> Option<&[u8]>
    requires short { length text.now < 2 ^ 32 }
    ensures some { IfSome result (λ rest. Leads (scan_of false text.now) text.now header rest.now × (length rest.now ≤ length text.now)) }
    ensures none { IfNone result ((mid : Seq ℕ) → Leads (scan_of false text.now) text.now header mid → ⊥) }
{
    let scan = scan_of(false, text);
    let (first, rest) = next(scan, text).ok()?;
    if !is_pl(&first) {
        return None;
    }
    let (second, rest) = next(scan, rest).ok()?;
    if !is_two(&second) {
        return None;
    }
    let (third, rest) = next(scan, rest).ok()?;
    if !is_semicolon(&third) {
        return None;
    }
    Some(rest)
}

/// What the grammar says of the place of the first fault of a text.
pub(crate) fn stand_at(
    alloc: Global,
    text: &[u8],
    fault: SyntaxFault,
) -> Result<GrammarStand, NoMemory>
    requires short { length text.now < 2 ^ 32 }
    requires fault { HasFault text.now fault }
    ensures stand { IfOk result (IsStand text.now fault) }
{
    if let Some(stand) = stand_in_header(text, fault) {
        return Ok(stand);
    }
    match behind_header(text) {
        Some(body) => stand_behind(alloc, text, true, body, fault.at),
        None => stand_behind(alloc, text, false, text, fault.at),
    }
}
