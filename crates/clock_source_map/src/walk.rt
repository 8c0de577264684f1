// The walk over the statements of an activity, with the bodies of finishes and loops.
ghost use Rattle.std.specs.Prelude.{◌≡◌, ◌+◌, ◌<◌, ◌^◌, ◌∷◌, OnOk};
ghost use Rattle.armus_base.specs.Pieces.{times};
ghost use Rattle.clock_syntax.specs.Trees.{clock_count, done};
ghost use Rattle.clock_syntax.specs.calls.Bodies.{clock_followed_by};
ghost use Rattle.clock_semantics.specs.Unfolding.{a_turn, coming, comings_of};
ghost use Rattle.clock_source_map.specs.inside.VisitNotes.{noted_all};

use crate::notes::VisitNotes;
use armus_base::NoMemory;
use clock_syntax::{ClockBody, ClockStmt};

// The turns of loop `n`.
#[cycle(walk)]
fn walk_turns<'p>(
    notes: &mut VisitNotes<'p>,
    n: u32,
    turns: u16,
    body: &'p ClockBody,
) -> Result<(), NoMemory>
    requires { n + 1 + clock_count body.now < 2 ^ 32 }
    ensures { OnOk result (notes.new ≡ noted_all (times turns (coming n a_turn ∷ comings_of (n + 1) body.now)) notes.old) }
{
    for _ in 0..turns {
        walk_body(notes, n + 1, body)?;
    }
    Ok(())
}

// Statement `n`.
#[cycle(walk)]
fn walk_statement<'p>(
    notes: &mut VisitNotes<'p>,
    n: u32,
    stmt: &'p ClockStmt,
) -> Result<(), NoMemory>
    requires { n + clock_count (clock_followed_by stmt.now done) < 2 ^ 32 }
    ensures { OnOk result (notes.new ≡ noted_all (comings_of n (clock_followed_by stmt.now done)) notes.old) }
{
    match stmt {
        ClockStmt::Clock { x } => notes.clock(n, x),
        ClockStmt::Advance { x } => notes.advance(n, x),
        ClockStmt::Resume { x: _ } | ClockStmt::Drop { x: _ } | ClockStmt::Skip => Ok(()),
        ClockStmt::Async { names: _, body } => notes.start(n, body),
        ClockStmt::Finish { body } => {
            notes.finish(n)?;
            walk_body(notes, n + 1, body)?;
            notes.close(n)
        }
        ClockStmt::Loop { k, body } => walk_turns(notes, n, *k, body),
    }
}

// A body of which the first statement has number n.
#[cycle(walk)]
pub(crate) fn walk_body<'p>(
    notes: &mut VisitNotes<'p>,
    n: u32,
    body: &'p ClockBody,
) -> Result<(), NoMemory>
    requires { n + clock_count body.now < 2 ^ 32 }
    ensures { OnOk result (notes.new ≡ noted_all (comings_of n body.now) notes.old) }
{
    let mut at = n;
    for stmt in body.as_slice() {
        walk_statement(notes, at, stmt)?;
        at += stmt.statements();
    }
    Ok(())
}
