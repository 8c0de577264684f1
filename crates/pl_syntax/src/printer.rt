// The printed form.

ghost use Rattle.armus_base.specs.Offsets.{IsNear};
ghost use Rattle.std.specs.Prelude.{false, ◌≡◌, ◌+◌, ◌*◌, ◌≤◌, ◌∷◌, [], ◌++◌, replicate, decimal, codes, OnOk, IfOk};
ghost use Rattle.pl_syntax.specs.calls.Words.{IsName};
ghost use Rattle.pl_syntax.specs.Tree.{done, reg, await, height};
ghost use Rattle.pl_syntax.specs.calls.Tree.{AllHere};
ghost use Rattle.pl_syntax.specs.calls.Bodies.{followed_by};
ghost use Rattle.pl_syntax.specs.Grammar.{IsText};
ghost use Rattle.pl_syntax.specs.Printed.{header_text, indented_line, offset_text, plain_text, printed_at, printed_of};
ghost use Rattle.pl_syntax.specs.calls.Printed.{TreeIsWritable};

use crate::limits::MAX_OPEN_BRACES;
use crate::name::Name;
use crate::tree::{Body, Program, Stmt};
use armus_base::{List, NoMemory, Offset};
use std::alloc::{AllocError, Global};

// ---- how much room is made

// A line of so many bytes, behind two spaces for each open brace.
fn line_room(depth: u32, text: usize) -> usize {
    text.saturating_add(2 * depth as usize + 1)
}

// A line with a name and so many other bytes.
fn named_room(depth: u32, x: &Name, others: usize) -> usize {
    line_room(depth, x.as_bytes().len().saturating_add(others))
}

// The lines of a statement.
#[cycle(room)]
fn statement_room(depth: u32, stmt: &Stmt) -> usize
    requires { height (followed_by stmt.now done) + depth ≤ MAX_OPEN_BRACES }
{
    match stmt {
        Stmt::NewTask { x } => named_room(depth, x, 12),
        Stmt::NewPhaser { x } => named_room(depth, x, 15),
        Stmt::Reg { x, y } => named_room(depth, x, y.as_bytes().len().saturating_add(8)),
        Stmt::Dereg { x } => named_room(depth, x, 8),
        Stmt::Adv { x } => named_room(depth, x, 6),
        Stmt::Await { x, off: _ } => named_room(depth, x, 16),
        Stmt::Skip => line_room(depth, 5),
        Stmt::Fork { x, body } => named_room(depth, x, 8)
            .saturating_add(body_room(depth + 1, body))
            .saturating_add(line_room(depth, 1)),
        Stmt::Loop { k: _, body } => line_room(depth, 12)
            .saturating_add(body_room(depth + 1, body))
            .saturating_add(line_room(depth, 1)),
    }
}

// The lines of a body. Where this is no less than what is printed, no buffer grows; nothing else rests on it.
#[cycle(room)]
fn body_room(depth: u32, body: &Body) -> usize
    requires { height body.now + depth ≤ MAX_OPEN_BRACES }
{
    let mut room: usize = 0;
    for stmt in body.as_slice() {
        room = room.saturating_add(statement_room(depth, stmt));
    }
    room
}

// ---- the lines

// Two spaces for each open brace.
fn put_indent(out: &mut Vec<u8>, depth: u32) -> Result<(), AllocError>
    requires { depth ≤ MAX_OPEN_BRACES }
    ensures { OnOk result (out.new.items ≡ out.old.items ++ replicate (2 * depth) 32) }
{
    for _ in 0..2 * depth {
        out.push(b' ')?;
    }
    Ok(())
}

// Bytes behind the indentation.
fn put_text(out: &mut Vec<u8>, depth: u32, text: &[u8]) -> Result<(), AllocError>
    requires { depth ≤ MAX_OPEN_BRACES }
    ensures { OnOk result (out.new.items ≡ out.old.items ++ replicate (2 * depth) 32 ++ text.now) }
{
    put_indent(out, depth)?;
    out.extend_from_slice(text)?;
    Ok(())
}

// A name between other bytes, behind the indentation.
fn put_named(
    out: &mut Vec<u8>,
    depth: u32,
    before: &[u8],
    x: &Name,
    after: &[u8],
) -> Result<(), AllocError>
    requires { depth ≤ MAX_OPEN_BRACES }
    ensures text { OnOk result
        (out.new.items ≡ out.old.items ++ replicate (2 * depth) 32 ++ before.now ++ x.now ++ after.now) }
    ensures form { OnOk result (IsName x.now) }
{
    put_text(out, depth, before)?;
    out.extend_from_slice(x.as_bytes())?;
    out.extend_from_slice(after)?;
    Ok(())
}

// The line of `reg`.
fn put_reg(out: &mut Vec<u8>, depth: u32, x: &Name, y: &Name) -> Result<(), AllocError>
    requires { depth ≤ MAX_OPEN_BRACES }
    ensures text { OnOk result
        (out.new.items ≡ out.old.items ++ indented_line depth (plain_text (reg x.now y.now))) }
    ensures first { OnOk result (IsName x.now) }
    ensures second { OnOk result (IsName y.now) }
{
    put_named(out, depth, b"reg(", x, b", ")?;
    out.extend_from_slice(y.as_bytes())?;
    out.extend_from_slice(b");\n")?;
    Ok(())
}

// How far an await looks back or ahead.
fn put_offset(alloc: Global, out: &mut Vec<u8>, off: Offset) -> Result<(), AllocError>
    ensures text { OnOk result (out.new.items ≡ out.old.items ++ offset_text off) }
    ensures near { OnOk result (IsNear off) }
{
    match off {
        Offset::Here => {}
        Offset::Back(k) => {
            let number = format!(in alloc; " - {k}")?;
            out.extend_from_slice(number.as_bytes())?;
        }
        Offset::Ahead(k) => {
            let number = format!(in alloc; " + {k}")?;
            out.extend_from_slice(number.as_bytes())?;
        }
    }
    Ok(())
}

// The line of `await`.
fn put_await(
    alloc: Global,
    out: &mut Vec<u8>,
    depth: u32,
    x: &Name,
    off: Offset,
) -> Result<(), AllocError>
    requires { depth ≤ MAX_OPEN_BRACES }
    ensures text { OnOk result
        (out.new.items ≡ out.old.items ++ indented_line depth (plain_text (await x.now off))) }
    ensures form { OnOk result (IsName x.now) }
    ensures near { OnOk result (IsNear off) }
{
    put_named(out, depth, b"await(", x, b"")?;
    put_offset(alloc, out, off)?;
    out.extend_from_slice(b");\n")?;
    Ok(())
}

// The first line of `loop`.
fn put_loop(alloc: Global, out: &mut Vec<u8>, depth: u32, k: u16) -> Result<(), AllocError>
    requires { depth ≤ MAX_OPEN_BRACES }
    ensures { OnOk result
        (out.new.items ≡ out.old.items ++ indented_line depth (codes "loop " ++ decimal k ++ codes " {")) }
{
    put_text(out, depth, b"loop ")?;
    let number = format!(in alloc; "{k}")?;
    out.extend_from_slice(number.as_bytes())?;
    out.extend_from_slice(b" {\n")?;
    Ok(())
}

// The lines of a statement.
#[cycle(print)]
fn put_statement(
    alloc: Global,
    out: &mut Vec<u8>,
    depth: u32,
    stmt: &Stmt,
) -> Result<(), AllocError>
    requires { height (followed_by stmt.now done) + depth ≤ MAX_OPEN_BRACES }
    ensures text { OnOk result
        (out.new.items ≡ out.old.items ++ printed_at depth (followed_by stmt.now done)) }
    ensures form { OnOk result (TreeIsWritable (followed_by stmt.now done)) }
{
    match stmt {
        Stmt::NewTask { x } => put_named(out, depth, b"", x, b" = newTid();\n"),
        Stmt::NewPhaser { x } => put_named(out, depth, b"", x, b" = newPhaser();\n"),
        Stmt::Reg { x, y } => put_reg(out, depth, x, y),
        Stmt::Dereg { x } => put_named(out, depth, b"dereg(", x, b");\n"),
        Stmt::Adv { x } => put_named(out, depth, b"adv(", x, b");\n"),
        Stmt::Await { x, off } => put_await(alloc, out, depth, x, *off),
        Stmt::Skip => put_text(out, depth, b"skip;\n"),
        Stmt::Fork { x, body } => {
            put_named(out, depth, b"fork(", x, b") {\n")?;
            put_body(alloc, out, depth + 1, body)?;
            put_text(out, depth, b"}\n")
        }
        Stmt::Loop { k, body } => {
            put_loop(alloc, out, depth, *k)?;
            put_body(alloc, out, depth + 1, body)?;
            put_text(out, depth, b"}\n")
        }
    }
}

// The lines of a body.
#[cycle(print)]
fn put_body(alloc: Global, out: &mut Vec<u8>, depth: u32, body: &Body) -> Result<(), AllocError>
    requires { height body.now + depth ≤ MAX_OPEN_BRACES }
    ensures text { OnOk result (out.new.items ≡ out.old.items ++ printed_at depth body.now) }
    ensures form { OnOk result (TreeIsWritable body.now) }
{
    for stmt in body.as_slice() {
        put_statement(alloc, out, depth, stmt)?;
    }
    Ok(())
}

// The first line of a program of PL 2.
fn put_header(out: &mut Vec<u8>, two: bool) -> Result<(), AllocError>
    ensures { OnOk result (out.new.items ≡ out.old.items ++ header_text two) }
{
    if two {
        out.extend_from_slice(b"pl 2;\n")?;
    }
    Ok(())
}

/// The printed form of a program with at most 64 open braces at any point: in PL 2 the line `pl 2;`, and then one statement a line, two spaces
/// before it for each open brace, and one spelling for each statement. In PL 1 no await looks back or ahead.
///
/// Its only error is want of memory.
pub fn print(alloc: Global, program: &Program) -> Result<List<u8>, NoMemory>
    requires shallow { height program.now.body ≤ MAX_OPEN_BRACES }
    requires offsets { program.now.two ≡ false → AllHere program.now.body }
    ensures text { IfOk result (λ out. out ≡ printed_of program.now) }

    // It is a text of this very program.
    ensures again { IfOk result (λ out. IsText out program.now) }
{
    let mut out = Vec::with_capacity(alloc, body_room(0, &program.body).saturating_add(6))?;
    put_header(&mut out, program.two)?;
    put_body(alloc, &mut out, 0, &program.body)?;
    Ok(List::from_vec(out))
}
