// The statements of a clock program by their numbers.
ghost use Rattle.std.specs.Prelude.{◌≡◌, ◌++◌, OnOk, IfOk, option_map};
ghost use Rattle.explain_facts.specs.Accounts.{numbered};
ghost use Rattle.clock_syntax.specs.Trees.{done};
ghost use Rattle.clock_syntax.specs.calls.Bodies.{clock_followed_by};
ghost use Rattle.explain_steps.specs.OpFacts.{written_parts};
ghost use Rattle.explain_steps.specs.calls.Known.{clock_part_of, kept_parts};

use armus_base::NoMemory;
use clock_syntax::{ClockBody, ClockStmt};
use std::alloc::Global;

// Notes a statement, and those of its body.
#[cycle(note)]
fn note_statement<'p>(rows: &mut Vec<&'p ClockStmt>, stmt: &'p ClockStmt) -> Result<(), NoMemory>
    ensures { OnOk result (kept_parts rows.new.items ≡ kept_parts rows.old.items ++ written_parts (clock_followed_by stmt.now done)) }
{
    rows.push(stmt)?;
    match stmt {
        ClockStmt::Async { names: _, body } => note_body(rows, body),
        ClockStmt::Finish { body } => note_body(rows, body),
        ClockStmt::Loop { k: _, body } => note_body(rows, body),
        _ => Ok(()),
    }
}

// Notes the statements of a body.
#[cycle(note)]
fn note_body<'p>(rows: &mut Vec<&'p ClockStmt>, body: &'p ClockBody) -> Result<(), NoMemory>
    ensures { OnOk result (kept_parts rows.new.items ≡ kept_parts rows.old.items ++ written_parts body.now) }
{
    for stmt in body.as_slice() {
        note_statement(rows, stmt)?;
    }
    Ok(())
}

// The statements of a body and of the bodies in it, in the order of the text.
pub(crate) fn statements_of<'p>(
    alloc: Global,
    body: &'p ClockBody,
) -> Result<Vec<&'p ClockStmt>, NoMemory>
    ensures { IfOk result (λ rows. kept_parts rows.items ≡ written_parts body.now) }
{
    let mut rows = Vec::with_capacity(alloc, body.statements() as usize)?;
    note_body(&mut rows, body)?;
    Ok(rows)
}

// The statement with this number, from 1 on.
pub(crate) fn statement_at<'p>(statements: &[&'p ClockStmt], n: u32) -> Option<&'p ClockStmt>
    ensures { option_map (λ stmt. clock_part_of stmt.now) result ≡ numbered (kept_parts statements.now) n }
{
    if n == 0 || n as usize > statements.len() {
        return None;
    }
    Some(statements[n as usize - 1])
}
