// The statements that make phasers, those that draw tasks, and those that make ops.

ghost use Rattle.std.specs.Prelude.{◌≡◌, ◌+◌, ◌<◌, ◌^◌, ◌++◌, [], OnOk, ◌∷◌, if◌then◌else◌, ℕ};
ghost use Rattle.armus_base.specs.Pieces.{times};
ghost use Rattle.pl_syntax.specs.Tree.{count, done};
ghost use Rattle.pl_syntax.specs.calls.Bodies.{followed_by};
ghost use Rattle.pl_plan.specs.Unfolding.{visit, a_turn, visits_of};
ghost use Rattle.source_map.specs.Origins.{comes_to_op, statements_where};
ghost use Rattle.source_map.specs.inside.Tables.{coming_of, makes_it};

use crate::statement::statements_in;
use armus_base::NoMemory;
use pl_syntax::{Body, Stmt};

// What is made.
#[derive(Clone, Copy)]
pub(crate) enum MadeKind {
    APhaser,
    ATask,
    AnOp,
}

// Those of the turns of a loop of which the body's first statement has number n.
#[cycle(push)]
fn push_of_turns(
    made: MadeKind,
    k: u16,
    body: &Body,
    n: u32,
    out: &mut Vec<u32>,
) -> Result<(), NoMemory>
    requires { n + count body.now < 2 ^ 32 }
    ensures { (at : ℕ) → OnOk result (out.new.items ≡ out.old.items ++ statements_where (makes_it made) (times k (visit at a_turn ∷ visits_of n body.now))) }
{
    for _ in 0..k {
        push_of_body(made, body, n, out)?;
    }
    Ok(())
}

// The number of a statement that is no loop, where it makes an op.
fn push_of_op(stmt: &Stmt, n: u32, out: &mut Vec<u32>) -> Result<(), NoMemory>
    ensures { OnOk result (out.new.items ≡ out.old.items ++ (if comes_to_op (coming_of stmt.now) then n ∷ [] else [])) }
{
    match stmt {
        Stmt::NewTask { x: _ } => Ok(()),
        Stmt::Skip => Ok(()),
        Stmt::Loop { k: _, body: _ } => Ok(()),
        _ => {
            out.push(n)?;
            Ok(())
        }
    }
}

// Those of a statement with number n.
#[cycle(push)]
fn push_of_statement(
    made: MadeKind,
    stmt: &Stmt,
    n: u32,
    out: &mut Vec<u32>,
) -> Result<(), NoMemory>
    requires { n + count (followed_by stmt.now done) < 2 ^ 32 }
    ensures { OnOk result (out.new.items ≡ out.old.items ++ statements_where (makes_it made) (visits_of n (followed_by stmt.now done))) }
{
    match (made, stmt) {
        (MadeKind::APhaser, Stmt::NewPhaser { x: _ }) => {
            out.push(n)?;
            Ok(())
        }
        (MadeKind::ATask, Stmt::NewTask { x: _ }) => {
            out.push(n)?;
            Ok(())
        }
        (_, Stmt::Loop { k, body }) => push_of_turns(made, *k, body, n + 1, out),
        (MadeKind::AnOp, _) => push_of_op(stmt, n, out),
        _ => Ok(()),
    }
}

// Those of a body of which the first statement has number n.
#[cycle(push)]
pub(crate) fn push_of_body(
    made: MadeKind,
    body: &Body,
    n: u32,
    out: &mut Vec<u32>,
) -> Result<(), NoMemory>
    requires { n + count body.now < 2 ^ 32 }
    ensures { OnOk result (out.new.items ≡ out.old.items ++ statements_where (makes_it made) (visits_of n body.now)) }
{
    let mut at = n;
    for stmt in body.as_slice() {
        push_of_statement(made, stmt, at, out)?;
        at += statements_in(stmt);
    }
    Ok(())
}
