// Where the bodies of a text end.
ghost use Rattle.std.specs.Prelude.{◌≡◌, ◌+◌, ◌<◌, ◌≤◌, ◌^◌, ◌∷◌, ◌++◌, [], IfOk, OnOk, drop, length, slice_get};
ghost use Rattle.std.specs.List.{AllZip};
ghost use Rattle.pl_syntax.specs.BodyEnds.{AreEnds};
ghost use Rattle.pl_syntax.specs.calls.Bodies.{followed_by};
ghost use Rattle.pl_syntax.specs.Grammar.{IsText, ReadsTokens, scan_of, sentence};
ghost use Rattle.pl_syntax.specs.StatementOffsets.{BeginAt};
ghost use Rattle.pl_syntax.specs.Tokens.{Leads, the_end};
ghost use Rattle.pl_syntax.specs.Tree.{done};
ghost use Rattle.pl_syntax.specs.inside.Closings.{bodies, brace_tokens, closes, ends_by};
ghost use Rattle.pl_syntax.specs.inside.Seen.{token_of};

use crate::lexer::{place, token_at};
use crate::offsets::{body_of, is_end, push_if};
use crate::scan::{Language, Scan};
use crate::token::{Sign, Token};
use crate::tree::{Body, Program, Stmt};
use armus_base::{List, NoMemory};
use std::alloc::Global;

// Whether the token closes a body.
fn closes(token: &Token) -> bool
    ensures { result ≡ closes (token_of token.now) }
{
    matches!(token, Token::Sign(Sign::CloseBrace))
}

// The offsets of the closing braces of a text, of which this is left behind its header.
fn braces_behind(
    alloc: Global,
    text: &[u8],
    program: &Program,
    body: &[u8],
) -> Result<Vec<u32>, NoMemory>
    requires short { length text.now < 2 ^ 32 }
    requires within { length body.now ≤ length text.now }
    requires header { ReadsTokens program.now.two text.now [] body.now }
    requires reads { Leads (scan_of program.now.two text.now) body.now (sentence program.now.body) [] }
    ensures braces { IfOk result (λ braces. AllZip (BeginAt text.now program.now) (brace_tokens program.now.body (the_end ∷ [])) braces.items) }
{
    let scan = Scan {
        total: text.len(),
        offsets: program.two,
        language: Language::Phasers,
    };
    let mut braces = Vec::new(alloc);
    let mut rest = body;
    loop {
        let (token, after) = token_at(scan, rest);
        if is_end(&token) {
            return Ok(braces);
        }
        push_if(&mut braces, closes(&token), place(scan, rest))?;
        rest = after;
    }
}

// Notes where the body of a statement ends, and those inside of it; the braces behind it are left.
#[cycle(note)]
fn note_statement<'b>(
    ends: &mut Vec<Option<u32>>,
    braces: &'b [u32],
    stmt: &Stmt,
) -> Result<&'b [u32], NoMemory>
    ensures ends { OnOk result (ends.new.items ≡ ends.old.items ++ ends_by (followed_by stmt.now done) braces.now) }
    ensures rest { IfOk result (λ rest. rest.now ≡ drop (bodies (followed_by stmt.now done)) braces.now) }
{
    match stmt {
        Stmt::Fork { x: _, body } => note_ended(ends, braces, body),
        Stmt::Loop { k: _, body } => note_ended(ends, braces, body),
        _ => {
            ends.push(None)?;
            Ok(braces)
        }
    }
}

// Notes where a statement with this body ends, and the statements in the body.
#[cycle(note)]
fn note_ended<'b>(
    ends: &mut Vec<Option<u32>>,
    braces: &'b [u32],
    body: &Body,
) -> Result<&'b [u32], NoMemory>
    ensures ends { OnOk result (ends.new.items ≡ ends.old.items ++ (slice_get braces.now (bodies body.now) ∷ ends_by body.now braces.now)) }
    ensures rest { IfOk result (λ rest. rest.now ≡ drop (bodies body.now + 1) braces.now) }
{
    let at = ends.len();
    ends.push(None)?;
    match note_body(ends, braces, body)? {
        [] => Ok(&[]),
        [end, rest @ ..] => {
            ends[at] = Some(*end);
            Ok(rest)
        }
    }
}

// Notes the statements of a body.
#[cycle(note)]
fn note_body<'b>(
    ends: &mut Vec<Option<u32>>,
    braces: &'b [u32],
    body: &Body,
) -> Result<&'b [u32], NoMemory>
    ensures ends { OnOk result (ends.new.items ≡ ends.old.items ++ ends_by body.now braces.now) }
    ensures rest { IfOk result (λ rest. rest.now ≡ drop (bodies body.now) braces.now) }
{
    let mut rest = braces;
    for stmt in body.as_slice() {
        rest = note_statement(ends, rest, stmt)?;
    }
    Ok(rest)
}

/// How many bytes stand before the brace that closes the body of each statement of a text, in the order of the statements' numbers: none where a statement has
/// no body.
pub fn body_ends(
    alloc: Global,
    text: &[u8],
    program: &Program,
) -> Result<List<Option<u32>>, NoMemory>
    requires short { length text.now < 2 ^ 32 }
    requires is_text { IsText text.now program.now }
    ensures ends { IfOk result (AreEnds text.now program.now) }
{
    let braces = braces_behind(alloc, text, program, body_of(text, program))?;
    let mut ends = Vec::with_capacity(alloc, program.body.statements() as usize)?;
    note_body(&mut ends, &braces, &program.body)?;
    Ok(List::from_vec(ends))
}
