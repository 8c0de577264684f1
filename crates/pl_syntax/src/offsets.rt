// Where the statements of a text begin.
ghost use Rattle.std.specs.Prelude.{◌≡◌, ◌<◌, ◌≤◌, ◌^◌, ℕ, List as Seq, [], IfOk, Ok, IsTrue, OnOk, ◌↔◌, length};
ghost use Rattle.pl_syntax.specs.Grammar.{IsText, ReadsTokens, header, scan_of, sentence};
ghost use Rattle.pl_syntax.specs.StatementOffsets.{AreOffsets};
ghost use Rattle.pl_syntax.specs.Tokens.{Token as TokenValue, Leads, front, the_end};
ghost use Rattle.pl_syntax.specs.inside.Beginnings.{begins_statement, is_boundary, with_offset};
ghost use Rattle.pl_syntax.specs.inside.Seen.{token_of};

use crate::expect::ends_list;
use crate::lexer::{place, token_at};
use crate::scan::{Language, Scan};
use crate::token::{Sign, Token};
use crate::tree::Program;
use armus_base::{List, NoMemory};
use std::alloc::Global;

// Whether a statement may begin behind this token.
fn is_boundary(token: &Token) -> bool
    ensures { result ≡ is_boundary (token_of token.now) }
{
    match token {
        Token::Sign(Sign::Semicolon) => true,
        Token::Sign(Sign::OpenBrace) => true,
        Token::Sign(Sign::CloseBrace) => true,
        _ => false,
    }
}

// Whether the token is the end of the text.
pub(crate) fn is_end(token: &Token) -> bool
    ensures { IsTrue result ↔ (token_of token.now ≡ the_end) }
{
    matches!(token, Token::End)
}

// What is left behind the header of PL 2.
fn behind_header(scan: Scan, text: &[u8]) -> &[u8]
    requires within { length text.now ≤ scan.total }
    requires small { scan.total < 2 ^ 32 }
    requires header { (mid : Seq ℕ) × Leads scan text.now header mid }
    ensures behind { (mid : Seq ℕ) → Leads scan text.now header mid → result.now ≡ mid }
    ensures no_longer { length result.now ≤ length text.now }
{
    let (_, rest) = token_at(scan, text);
    let (_, rest) = token_at(scan, rest);
    let (_, rest) = token_at(scan, rest);
    rest
}

// Whether the token begins a statement, where one may begin or not.
fn begins_statement(may_begin: bool, token: &Token) -> bool
    ensures { result ≡ begins_statement may_begin (token_of token.now) }
{
    may_begin && !ends_list(token)
}

// One offset more, where there is a statement.
pub(crate) fn push_if(offsets: &mut Vec<u32>, begins: bool, offset: u32) -> Result<(), NoMemory>
    ensures { OnOk result (offsets.new.items ≡ with_offset begins offset offsets.old.items) }
{
    if begins {
        offsets.push(offset)?;
    }
    Ok(())
}

// What is left of a text behind its header, where it has one.
pub(crate) fn body_of<'a>(text: &'a [u8], program: &Program) -> &'a [u8]
    requires short { length text.now < 2 ^ 32 }
    requires is_text { IsText text.now program.now }
    ensures header { ReadsTokens program.now.two text.now [] result.now }
    ensures reads { Leads (scan_of program.now.two text.now) result.now (sentence program.now.body) [] }
    ensures no_longer { length result.now ≤ length text.now }
{
    if !program.two {
        return text;
    }
    let scan = Scan {
        total: text.len(),
        offsets: false,
        language: Language::Phasers,
    };
    behind_header(scan, text)
}

// The offsets of the statements of a text, of which this is left behind its header.
fn offsets_behind(
    alloc: Global,
    text: &[u8],
    program: &Program,
    body: &[u8],
) -> Result<List<u32>, NoMemory>
    requires short { length text.now < 2 ^ 32 }
    requires within { length body.now ≤ length text.now }
    requires header { ReadsTokens program.now.two text.now [] body.now }
    requires reads { Leads (scan_of program.now.two text.now) body.now (sentence program.now.body) [] }
    ensures offsets { IfOk result (AreOffsets text.now program.now) }
{
    let scan = Scan {
        total: text.len(),
        offsets: program.two,
        language: Language::Phasers,
    };
    let mut offsets = Vec::new(alloc);
    let mut may_begin = true;
    let mut rest = body;
    loop {
        let (token, after) = token_at(scan, rest);
        let begins = begins_statement(may_begin, &token);
        push_if(&mut offsets, begins, place(scan, rest))?;
        if is_end(&token) {
            return Ok(List::from_vec(offsets));
        }
        may_begin = is_boundary(&token);
        rest = after;
    }
}

/// How many bytes stand before each statement of a text, in the order of the statements' numbers. A statement begins with its first token.
pub fn statement_offsets(
    alloc: Global,
    text: &[u8],
    program: &Program,
) -> Result<List<u32>, NoMemory>
    requires short { length text.now < 2 ^ 32 }
    requires is_text { IsText text.now program.now }
    ensures offsets { IfOk result (AreOffsets text.now program.now) }
{
    offsets_behind(alloc, text, program, body_of(text, program))
}
