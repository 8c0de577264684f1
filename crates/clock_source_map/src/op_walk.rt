// The walk over the statements of an activity, beside the ops of its code.
ghost use Rattle.std.specs.Prelude.{◌≡◌, ◌+◌, ◌<◌, ◌^◌, ◌∷◌, OnOk};
ghost use Rattle.armus_base.specs.Pieces.{times};
ghost use Rattle.clock_syntax.specs.Trees.{clock_count, done};
ghost use Rattle.clock_syntax.specs.calls.Bodies.{clock_followed_by};
ghost use Rattle.clock_semantics.specs.Unfolding.{a_turn, coming, comings_of};
ghost use Rattle.clock_source_map.specs.inside.OpNotes.{ops_noted};

use crate::op_notes::OpNotes;
use armus_base::NoMemory;
use clock_syntax::{ClockBody, ClockStmt};

// The turns of loop `n`.
#[cycle(note)]
fn note_turns(notes: &mut OpNotes<'_>, n: u32, turns: u16, body: &ClockBody) -> Result<(), NoMemory>
    requires { n + 1 + clock_count body.now < 2 ^ 32 }
    ensures { OnOk result (notes.new ≡ ops_noted (times turns (coming n a_turn ∷ comings_of (n + 1) body.now)) notes.old) }
{
    for _ in 0..turns {
        note_body(notes, n + 1, body)?;
    }
    Ok(())
}

// Statement `n`.
#[cycle(note)]
fn note_statement(notes: &mut OpNotes<'_>, n: u32, stmt: &ClockStmt) -> Result<(), NoMemory>
    requires { n + clock_count (clock_followed_by stmt.now done) < 2 ^ 32 }
    ensures { OnOk result (notes.new ≡ ops_noted (comings_of n (clock_followed_by stmt.now done)) notes.old) }
{
    match stmt {
        ClockStmt::Clock { x: _ } | ClockStmt::Resume { x: _ } | ClockStmt::Drop { x: _ } => {
            notes.note(n)
        }
        ClockStmt::Advance { x: _ } => notes.advance(n),
        ClockStmt::Skip => Ok(()),
        ClockStmt::Async { names: _, body: _ } => notes.start(n),
        ClockStmt::Finish { body } => {
            notes.note(n)?;
            note_body(notes, n + 1, body)?;
            notes.close(n)
        }
        ClockStmt::Loop { k, body } => note_turns(notes, n, *k, body),
    }
}

// A body of which the first statement has number n.
#[cycle(note)]
pub(crate) fn note_body(notes: &mut OpNotes<'_>, n: u32, body: &ClockBody) -> Result<(), NoMemory>
    requires { n + clock_count body.now < 2 ^ 32 }
    ensures { OnOk result (notes.new ≡ ops_noted (comings_of n body.now) notes.old) }
{
    let mut at = n;
    for stmt in body.as_slice() {
        note_statement(notes, at, stmt)?;
        at += stmt.statements();
    }
    Ok(())
}
