// From tokens to the programs of PL.

ghost use Rattle.std.specs.List.{sum_by};
ghost use Rattle.std.specs.Prelude.{false, ◌≡◌, ◌+◌, ◌<◌, ◌≤◌, ◌^◌, length, IfOk, IfErr};
ghost use Rattle.pl_syntax.specs.declared.scan.Language.TheVariants.{Phasers};
ghost use Rattle.pl_syntax.specs.calls.Words.{IsNameIn};
ghost use Rattle.pl_syntax.specs.declared.tree.Program.{Program as Parsed};
ghost use Rattle.pl_syntax.specs.Tree.{count};
ghost use Rattle.pl_syntax.specs.inside.Statements.{IsOneStatement};
ghost use Rattle.pl_syntax.specs.calls.Tree.{AllHere};
ghost use Rattle.pl_syntax.specs.inside.Seen.{token_of};
ghost use Rattle.pl_syntax.specs.declared.fault.SyntaxFault.{SyntaxFault as Fault};
ghost use Rattle.pl_syntax.specs.Grammar.{IsText, HasFault};
ghost use Rattle.pl_syntax.specs.calls.Parsing.{GivesProgram, GivesFault, IsFirstIfFault};
ghost use Rattle.pl_syntax.specs.inside.Reading.{Gives, named_at, result_seen, is_pl, is_two, header_at};
ghost use Rattle.pl_syntax.specs.inside.PlReading.{drawing_at, await_at, stmt_count, stmt_holding, program_at};

use crate::expect::{
    drawn_at, in_parens_at, name_at, named_at, offset_at, pair_at, sign_at, unexpected,
};
use crate::fault::{ParseEnd, SyntaxFault};
use crate::lexer::next;
use crate::limits::MAX_PARSED_BYTES;
use crate::name::Name;
use crate::nested::whole_at;
use crate::scan::{Language, Scan};
use crate::statement::{Begun, Statement};
use crate::token::{Keyword, Sign, Token};
use crate::tree::{Body, Program, Stmt};
use std::alloc::Global;

/// What stands before the body of a statement of PL.
#[derive(Drop)]
pub enum StmtHead {
    /// `fork(x)`
    Fork(Name),
    /// `loop k`
    Loop(u16),
}

// `x = newTid();` or `x = newPhaser();`, behind its name.
#[tactic(auto, unfolding(crate::specs::inside::PlReading::drawing_at))]
fn drawing_at<'a>(
    alloc: Global,
    scan: Scan,
    x: &[u8],
    text: &'a [u8],
) -> Result<(Begun<Stmt, StmtHead>, &'a [u8]), ParseEnd>
    requires within { length text.now ≤ scan.total }
    requires small { scan.total < 2 ^ 32 }
    requires pl { scan.language ≡ Phasers }
    requires name { IsNameIn scan.language x.now }
    ensures exact { Gives (λ x. (x.0, x.1.now)) result (drawing_at scan x.now text.now) }
    ensures no_longer { IfOk result (λ x. length x.1.now ≤ length text.now) }
    ensures counted { IfOk result (λ x. IsOneStatement stmt_count x.0) }
{
    let (is_task, rest) = drawn_at(scan, text)?;
    let x = Name::new(alloc, scan.language, x)?;
    if is_task {
        Ok((Begun::Whole(Stmt::NewTask { x }), rest))
    } else {
        Ok((Begun::Whole(Stmt::NewPhaser { x }), rest))
    }
}

// The name in `(x);`, in memory of its own.
fn owned_at(alloc: Global, scan: Scan, text: &[u8]) -> Result<(Name, &[u8]), ParseEnd>
    requires within { length text.now ≤ scan.total }
    requires small { scan.total < 2 ^ 32 }
    requires pl { scan.language ≡ Phasers }
    ensures exact { Gives (λ x. (x.0, x.1.now)) result (named_at scan text.now) }
    ensures no_longer { IfOk result (λ x. length x.1.now ≤ length text.now) }
{
    let (x, rest) = named_at(scan, text)?;
    let x = Name::new(alloc, scan.language, x)?;
    Ok((x, rest))
}

// `await(x);`, `await(x - k);` or `await(x + k);`, behind its first word.
#[tactic(auto, unfolding(crate::specs::inside::PlReading::await_at))]
fn await_at(
    alloc: Global,
    scan: Scan,
    text: &[u8],
) -> Result<(Begun<Stmt, StmtHead>, &[u8]), ParseEnd>
    requires within { length text.now ≤ scan.total }
    requires small { scan.total < 2 ^ 32 }
    requires pl { scan.language ≡ Phasers }
    ensures exact { Gives (λ x. (x.0, x.1.now)) result (await_at scan text.now) }
    ensures no_longer { IfOk result (λ x. length x.1.now ≤ length text.now) }
    ensures counted { IfOk result (λ x. IsOneStatement stmt_count x.0) }
{
    let open = sign_at(scan, Sign::OpenParen, text)?;
    let (x, after) = name_at(scan, open)?;
    let (off, close) = offset_at(scan, after)?;
    let rest = sign_at(scan, Sign::Semicolon, close)?;
    let x = Name::new(alloc, scan.language, x)?;
    Ok((Begun::Whole(Stmt::Await { x, off }), rest))
}

impl Statement for Stmt {
    ghost use Rattle.pl_syntax.specs.declared.scan.Language.TheVariants.{Phasers};
    ghost use Rattle.pl_syntax.specs.inside.PlReading.{stmt_count, stmts};

    type Head = StmtHead;

    ghost language = { Phasers };

    ghost spoken = { stmts };

    ghost count = { stmt_count };

    fn skip() -> Stmt {
        Stmt::Skip
    }

    fn looped(k: u16) -> StmtHead {
        StmtHead::Loop(k)
    }

    #[tactic(auto, unfolding(crate::specs::inside::Statements::named_by, crate::specs::inside::PlReading::reg_at, crate::specs::inside::PlReading::fork_at))]
    fn begun<'a>(
        alloc: Global,
        scan: Scan,
        token: Token,
        before: &[u8],
        text: &'a [u8],
    ) -> Result<(Begun<Stmt, StmtHead>, &'a [u8]), ParseEnd> {
        match token {
            Token::Name(x) => drawing_at(alloc, scan, x, text),
            Token::Word(Keyword::Reg) => {
                let (x, y, rest) = pair_at(scan, text)?;
                let x = Name::new(alloc, scan.language, x)?;
                let y = Name::new(alloc, scan.language, y)?;
                Ok((Begun::Whole(Stmt::Reg { x, y }), rest))
            }
            Token::Word(Keyword::Dereg) => {
                let (x, rest) = owned_at(alloc, scan, text)?;
                Ok((Begun::Whole(Stmt::Dereg { x }), rest))
            }
            Token::Word(Keyword::Adv) => {
                let (x, rest) = owned_at(alloc, scan, text)?;
                Ok((Begun::Whole(Stmt::Adv { x }), rest))
            }
            Token::Word(Keyword::Await) => await_at(alloc, scan, text),
            Token::Word(Keyword::Fork) => {
                let (x, rest) = in_parens_at(scan, text)?;
                let x = Name::new(alloc, scan.language, x)?;
                Ok((Begun::Head(StmtHead::Fork(x)), rest))
            }
            _ => Err(ParseEnd::Syntax(unexpected(scan, before))),
        }
    }

    fn holding(head: StmtHead, items: Vec<Stmt>, statements: u32) -> Stmt
        requires { statements ≡ sum_by stmt_count items.items }
        ensures is { result ≡ stmt_holding head items.items }
        ensures counted { stmt_count result ≡ statements + 1 }
    {
        let body = Body::new(items, statements);
        match head {
            StmtHead::Fork(x) => Stmt::Fork { x, body },
            StmtHead::Loop(k) => Stmt::Loop { k, body },
        }
    }
}

// Whether the text is one of PL 2, and what is left behind its header.
#[tactic(auto, unfolding(crate::specs::inside::Reading::header_at))]
fn header_at(scan: Scan, text: &[u8]) -> Result<(bool, &[u8]), SyntaxFault>
    requires within { length text.now ≤ scan.total }
    requires small { scan.total < 2 ^ 32 }
    ensures exact { result_seen (λ x. (x.0, x.1.now)) result ≡ header_at scan text.now }
    ensures no_longer { IfOk result (λ x. length x.1.now ≤ length text.now) }
{
    let (first, after) = next(scan, text)?;
    if !is_pl(&first) {
        return Ok((false, text));
    }
    let (second, after) = next(scan, after)?;
    if !is_two(&second) {
        return Ok((false, text));
    }
    let rest = sign_at(scan, Sign::Semicolon, after)?;
    Ok((true, rest))
}

// Whether the token is the name `pl`.
fn is_pl(token: &Token) -> bool
    ensures { result ≡ is_pl (token_of token.now) }
{
    match token {
        Token::Name(x) => *x == b"pl".as_slice(),
        _ => false,
    }
}

// Whether the token is the number 2.
fn is_two(token: &Token) -> bool
    ensures { result ≡ is_two (token_of token.now) }
{
    match token {
        Token::Number(k) => *k == 2,
        _ => false,
    }
}

// The program of a whole text.
#[tactic(auto, unfolding(crate::specs::inside::PlReading::program_at))]
fn program_at(alloc: Global, text: &[u8]) -> Result<Program, ParseEnd>
    requires { length text.now < 2 ^ 32 }
    ensures exact { Gives (λ x. x) result (program_at text.now) }
    ensures counted { IfOk result (λ p. count p.body ≤ length text.now) }
{
    let mut scan = Scan {
        total: text.len(),
        offsets: false,
        language: Language::Phasers,
    };
    let (two, rest) = header_at(scan, text)?;
    scan.offsets = two;
    let (items, statements) = whole_at(alloc, scan, rest)?;
    let body = Body::new(items, statements);
    Ok(Program { two, body })
}

/// The program of a text, or its first fault. The text has at most 8,388,608 bytes.
///
/// `Syntax` comes exactly where the text is not in the grammar. Memory may run out at any text.
pub fn parse(alloc: Global, text: &[u8]) -> Result<Program, ParseEnd>
    requires short { length text.now ≤ MAX_PARSED_BYTES }

    // What is answered is the program of the text, or its first fault, or that memory ran out.
    ensures program { IfOk result (λ p. IsText text.now p) }
    ensures fault { IfErr result (IsFirstIfFault text.now) }

    // Where the text has a program, or a first fault, that is answered, unless memory ran out.
    ensures only_program { (p : Parsed) → IsText text.now p → GivesProgram result p }
    ensures only_fault { (f : Fault) → HasFault text.now f → GivesFault result f }

    // In PL 1 no await looks back or ahead.
    ensures offsets { IfOk result (λ p. p.two ≡ false → AllHere p.body) }

    // Each statement takes a byte or more.
    ensures few { IfOk result (λ p. count p.body ≤ length text.now) }
{
    match program_at(alloc, text) {
        Ok(program) => Ok(program),
        Err(end) => Err(end),
    }
}
