// From tokens to the statements of the language of clocks.

ghost use Rattle.std.specs.Prelude.{◌≡◌, ℕ, ◌+◌, ◌<◌, ◌≤◌, ◌^◌, length, IfOk, IfErr};
ghost use Rattle.std.specs.List.{sum_by};
ghost use Rattle.pl_syntax.specs.declared.fault.SyntaxFault.{SyntaxFault as Fault};
ghost use Rattle.pl_syntax.specs.declared.scan.Language.TheVariants.{Clocks};
ghost use Rattle.pl_syntax.specs.calls.Words.{IsNameIn};
ghost use Rattle.pl_syntax.specs.inside.Seen.{token_of, HasForm};
ghost use Rattle.pl_syntax.specs.inside.Reading.{Gives, named_at};
ghost use Rattle.clock_syntax.specs.Trees.{ClockTree as Tree, clock_count};
ghost use Rattle.clock_syntax.specs.Grammar.{IsClockText, HasClockFault};
ghost use Rattle.clock_syntax.specs.calls.Parsing.{GivesClockProgram, GivesClockFault, ExplainsClocks};
ghost use Rattle.clock_syntax.specs.inside.ClockReading.{closes_names, comma_name, later_names_at, names_behind, names_at, clock_holding, clock_stmt_count, NameBlock as Names};

use crate::limits::MAX_CLOCK_BYTES;
use crate::name::ClockName;
use crate::tree::{ClockBody, ClockProgram, ClockStmt};
use armus_base::List;
use pl_syntax::ParseEnd;
use pl_syntax::expect::{name_at, named_at, sign_at, unexpected};
use pl_syntax::lexer::next;
use pl_syntax::nested::whole_at;
use pl_syntax::scan::{Language, Scan};
use pl_syntax::statement::{Begun, Statement};
use pl_syntax::token::{Keyword, Sign, Token};
use std::alloc::Global;

/// What stands before the body of a statement of the language of clocks.
#[derive(Drop)]
pub enum ClockHead {
    /// `async(x, y, ..)`
    Async(List<ClockName>),
    /// `finish`
    Finish,
    /// `loop k`
    Loop(u16),
}

// The name in `(x);`, in memory of its own.
fn owned_at(alloc: Global, scan: Scan, text: &[u8]) -> Result<(ClockName, &[u8]), ParseEnd>
    requires within { length text.now ≤ scan.total }
    requires small { scan.total < 2 ^ 32 }
    requires clocks { scan.language ≡ Clocks }
    ensures exact { Gives (λ x. (x.0, x.1.now)) result (named_at scan text.now) }
    ensures no_longer { IfOk result (λ x. length x.1.now ≤ length text.now) }
{
    let (x, rest) = named_at(scan, text)?;
    let x = ClockName::new(alloc, scan.language, x)?;
    Ok((x, rest))
}

// Whether a list of names ends before this token.
fn closes_names(token: &Token) -> bool
    ensures { result ≡ closes_names (token_of token.now) }
{
    match token {
        Token::Sign(Sign::CloseParen) => true,
        _ => false,
    }
}

// The name in `, x`, of which this is the first token. The text before it is that from the token on.
fn comma_name<'a>(
    alloc: Global,
    scan: Scan,
    token: Token,
    before: &[u8],
    text: &'a [u8],
) -> Result<(ClockName, &'a [u8]), ParseEnd>
    requires within { length text.now ≤ scan.total }
    requires before_within { length before.now ≤ scan.total }
    requires small { scan.total < 2 ^ 32 }
    requires clocks { scan.language ≡ Clocks }
    ensures exact { (body : Names) → Gives (λ x. (x.0, x.1.now)) result (comma_name body scan 0 (token_of token.entry) before.now text.now) }
    ensures no_longer { IfOk result (λ x. length x.1.now ≤ length text.now) }
{
    match token {
        Token::Sign(Sign::Comma) => {
            let (x, rest) = name_at(scan, text)?;
            Ok((ClockName::new(alloc, scan.language, x)?, rest))
        }
        _ => Err(ParseEnd::Syntax(unexpected(scan, before))),
    }
}

// The names in `, y, z, ..` up to `)`.
fn later_names_at(
    alloc: Global,
    scan: Scan,
    text: &[u8],
) -> Result<(Vec<ClockName>, &[u8]), ParseEnd>
    requires within { length text.now ≤ scan.total }
    requires small { scan.total < 2 ^ 32 }
    requires clocks { scan.language ≡ Clocks }
    ensures exact { (n : ℕ) → length text.now < n → Gives (λ x. (x.0.items, x.1.now)) result (later_names_at n scan text.now) }
    ensures no_longer { IfOk result (λ x. length x.1.now ≤ length text.now) }
{
    let mut names = Vec::new(alloc);
    let mut rest = text;
    loop {
        let (token, after) = next(scan, rest)?;
        if closes_names(&token) {
            return Ok((names, rest));
        }
        let (name, left) = comma_name(alloc, scan, token, rest, after)?;
        names.push(name)?;
        rest = left;
    }
}

// The names in `x, y, .. )`, of which the first is read.
#[tactic(auto, unfolding(crate::specs::inside::ClockReading::names_behind))]
fn names_behind<'a>(
    alloc: Global,
    scan: Scan,
    x: &[u8],
    text: &'a [u8],
) -> Result<(Vec<ClockName>, &'a [u8]), ParseEnd>
    requires within { length text.now ≤ scan.total }
    requires small { scan.total < 2 ^ 32 }
    requires clocks { scan.language ≡ Clocks }
    requires name { IsNameIn scan.language x.now }
    ensures exact { Gives (λ y. (y.0.items, y.1.now)) result (names_behind x.now scan text.now) }
    ensures no_longer { IfOk result (λ y. length y.1.now ≤ length text.now) }
{
    let (mut names, end) = later_names_at(alloc, scan, text)?;
    let rest = sign_at(scan, Sign::CloseParen, end)?;
    names.insert(0, ClockName::new(alloc, scan.language, x)?)?;
    Ok((names, rest))
}

// The names in `)` or `x, y, .. )`.
#[tactic(auto, unfolding(crate::specs::inside::ClockReading::names_at))]
fn names_at(alloc: Global, scan: Scan, text: &[u8]) -> Result<(Vec<ClockName>, &[u8]), ParseEnd>
    requires within { length text.now ≤ scan.total }
    requires small { scan.total < 2 ^ 32 }
    requires clocks { scan.language ≡ Clocks }
    ensures exact { Gives (λ y. (y.0.items, y.1.now)) result (names_at scan text.now) }
    ensures no_longer { IfOk result (λ y. length y.1.now ≤ length text.now) }
{
    match next(scan, text)? {
        (Token::Sign(Sign::CloseParen), rest) => Ok((Vec::new(alloc), rest)),
        (Token::Name(x), rest) => names_behind(alloc, scan, x, rest),
        _ => Err(ParseEnd::Syntax(unexpected(scan, text))),
    }
}

impl Statement for ClockStmt {
    ghost use Rattle.pl_syntax.specs.declared.scan.Language.TheVariants.{Clocks};
    ghost use Rattle.clock_syntax.specs.inside.ClockReading.{clock_stmt_count, clock_stmts};

    type Head = ClockHead;

    ghost language = { Clocks };

    ghost spoken = { clock_stmts };

    ghost count = { clock_stmt_count };

    fn skip() -> ClockStmt {
        ClockStmt::Skip
    }

    fn looped(k: u16) -> ClockHead {
        ClockHead::Loop(k)
    }

    #[tactic(auto, unfolding(pl_syntax::specs::inside::Statements::named_by, crate::specs::inside::ClockReading::clock_at, crate::specs::inside::ClockReading::async_at))]
    fn begun<'a>(
        alloc: Global,
        scan: Scan,
        token: Token,
        before: &[u8],
        text: &'a [u8],
    ) -> Result<(Begun<ClockStmt, ClockHead>, &'a [u8]), ParseEnd> {
        match token {
            Token::Word(Keyword::Clock) => {
                let (x, after) = name_at(scan, text)?;
                let rest = sign_at(scan, Sign::Semicolon, after)?;
                let x = ClockName::new(alloc, scan.language, x)?;
                Ok((Begun::Whole(ClockStmt::Clock { x }), rest))
            }
            Token::Word(Keyword::Advance) => {
                let (x, rest) = owned_at(alloc, scan, text)?;
                Ok((Begun::Whole(ClockStmt::Advance { x }), rest))
            }
            Token::Word(Keyword::Resume) => {
                let (x, rest) = owned_at(alloc, scan, text)?;
                Ok((Begun::Whole(ClockStmt::Resume { x }), rest))
            }
            Token::Word(Keyword::Drop) => {
                let (x, rest) = owned_at(alloc, scan, text)?;
                Ok((Begun::Whole(ClockStmt::Drop { x }), rest))
            }
            Token::Word(Keyword::Async) => {
                let open = sign_at(scan, Sign::OpenParen, text)?;
                let (names, rest) = names_at(alloc, scan, open)?;
                Ok((Begun::Head(ClockHead::Async(List::from_vec(names))), rest))
            }
            Token::Word(Keyword::Finish) => Ok((Begun::Head(ClockHead::Finish), text)),
            _ => Err(ParseEnd::Syntax(unexpected(scan, before))),
        }
    }

    fn holding(head: ClockHead, items: Vec<ClockStmt>, statements: u32) -> ClockStmt
        requires { statements ≡ sum_by clock_stmt_count items.items }
        ensures is { result ≡ clock_holding head items.items }
        ensures counted { clock_stmt_count result ≡ statements + 1 }
    {
        let body = ClockBody::new(items, statements);
        match head {
            ClockHead::Async(names) => ClockStmt::Async { names, body },
            ClockHead::Finish => ClockStmt::Finish { body },
            ClockHead::Loop(k) => ClockStmt::Loop { k, body },
        }
    }
}

/// The program of a text of the language of clocks, or its first fault. The text has at most 1,048,576 bytes.
///
/// `Syntax` comes exactly where the text is not in the grammar. Memory may run out at any text.
pub fn clock_parse(alloc: Global, text: &[u8]) -> Result<ClockProgram, ParseEnd>
    requires short { length text.now ≤ MAX_CLOCK_BYTES }

    // What is answered is the program of the text, or its first fault, or that memory ran out.
    ensures program { IfOk result (λ p. IsClockText text.now p.body) }
    ensures fault { IfErr result (ExplainsClocks text.now) }

    // Where the text has a program, or a first fault, that is answered, unless memory ran out.
    ensures only_program { (p : Tree) → IsClockText text.now p → GivesClockProgram result p }
    ensures only_fault { (f : Fault) → HasClockFault text.now f → GivesClockFault result f }

    // Each statement takes a byte or more.
    ensures few { IfOk result (λ p. clock_count p.body ≤ length text.now) }
{
    let scan = Scan {
        total: text.len(),
        offsets: false,
        language: Language::Clocks,
    };
    match whole_at(alloc, scan, text) {
        Ok((items, statements)) => Ok(ClockProgram {
            body: ClockBody::new(items, statements),
        }),
        Err(end) => Err(end),
    }
}
