// The statements of a program by their numbers.

ghost use Rattle.std.specs.Prelude.{◌≡◌, ◌+◌, ◌-◌, ◌<◌, ◌^◌, ◌++◌, map, OnOk, IfOk};
ghost use Rattle.pl_syntax.specs.Tree.{count, done};
ghost use Rattle.pl_syntax.specs.calls.Bodies.{followed_by};
ghost use Rattle.source_map.specs.Origins.{written_statements};
ghost use Rattle.source_map.specs.inside.Tables.{kept_comings};

use armus_base::NoMemory;
use pl_syntax::{Body, Stmt};
use std::alloc::Global;

// Notes a statement, and those of its body.
#[cycle(note)]
fn note_statement<'p>(rows: &mut Vec<&'p Stmt>, stmt: &'p Stmt) -> Result<(), NoMemory>
    ensures { OnOk result (kept_comings rows.new.items ≡ kept_comings rows.old.items ++ written_statements (followed_by stmt.now done)) }
{
    rows.push(stmt)?;
    match stmt {
        Stmt::Fork { x: _, body } => note_body(rows, body),
        Stmt::Loop { k: _, body } => note_body(rows, body),
        _ => Ok(()),
    }
}

// Notes the statements of a body.
#[cycle(note)]
fn note_body<'p>(rows: &mut Vec<&'p Stmt>, body: &'p Body) -> Result<(), NoMemory>
    ensures { OnOk result (kept_comings rows.new.items ≡ kept_comings rows.old.items ++ written_statements body.now) }
{
    for stmt in body.as_slice() {
        note_statement(rows, stmt)?;
    }
    Ok(())
}

/// The statements of a body and of the bodies in it, in the order of the text.
pub(crate) fn statements_of<'p>(alloc: Global, body: &'p Body) -> Result<Vec<&'p Stmt>, NoMemory>
    ensures { IfOk result (λ rows. kept_comings rows.items ≡ written_statements body.now) }
{
    let mut rows = Vec::with_capacity(alloc, body.statements() as usize)?;
    note_body(&mut rows, body)?;
    Ok(rows)
}
