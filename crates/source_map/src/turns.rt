// In which turns of loops an op is made.

ghost use Rattle.std.specs.Prelude.{◌≡◌, ◌+◌, ◌*◌, ◌<◌, ◌≤◌, ◌^◌, ◌++◌, MatchOption, OnOk, length};
ghost use Rattle.std.specs.List.{slice_get};
ghost use Rattle.pl_syntax.specs.Tree.{count, done, loop};
ghost use Rattle.pl_syntax.specs.calls.Bodies.{followed_by};
ghost use Rattle.source_map.specs.Turns.{making_op, turned_visits, turns_of};
ghost use Rattle.source_map.specs.inside.Seeking.{IsInTurn};

use crate::seeking::{Sought, seek_in_body, seek_in_statement};
use crate::statement::statements_in;
use armus_base::NoMemory;
use pl_syntax::{Body, Stmt};

/// A turn of a loop.
#[derive(Clone, Copy, Debug, PartialEq, Eq)]
pub struct LoopTurn {
    /// The number of the loop's statement.
    pub statement: u32,
    /// The number of the turn, from 1.
    pub turn: u32,
}

// In which turn of a loop op i is made, counted from 0, and which op of the turn it is; none where the turns make fewer ops. The body's first statement has
// number n.
fn place_in_turns(k: u16, body: &Body, n: u32, i: u32) -> Option<(u32, u32)>
    requires { n + count body.now < 2 ^ 32 }
    ensures { IsInTurn k (length (making_op (turned_visits n body.now))) i result }
{
    if k == 0 {
        return None;
    }
    match seek_in_body(body, n, i) {
        Sought::Found(_) => Some((0, i)),
        Sought::Left(left) => {
            let made = i - left;
            if u64::from(i) < u64::from(k) * u64::from(made) {
                Some((i / made, i % made))
            } else {
                None
            }
        }
    }
}

// Appends the turns of op i of a loop that is statement `at`.
#[cycle(turns)]
fn put_turn(k: u16, body: &Body, at: u32, i: u32, out: &mut Vec<LoopTurn>) -> Result<(), NoMemory>
    requires { at + 1 + count body.now < 2 ^ 32 }
    ensures { OnOk result (out.new.items ≡ out.old.items ++ turns_of (slice_get (making_op (turned_visits at (loop k body.now done))) i)) }
{
    let Some((turn, inner)) = place_in_turns(k, body, at + 1, i) else {
        return Ok(());
    };
    out.push(LoopTurn {
        statement: at,
        turn: turn + 1,
    })?;
    put_turns(body, at + 1, inner, out)
}

// Appends the turns of op i of a body of which the first statement has number n.
#[cycle(turns)]
pub(crate) fn put_turns(
    body: &Body,
    n: u32,
    i: u32,
    out: &mut Vec<LoopTurn>,
) -> Result<(), NoMemory>
    requires { n + count body.now < 2 ^ 32 }
    ensures { OnOk result (out.new.items ≡ out.old.items ++ turns_of (slice_get (making_op (turned_visits n body.now)) i)) }
{
    let mut at = n;
    let mut left = i;
    for stmt in body.as_slice() {
        match seek_in_statement(stmt, at, left) {
            Sought::Found(_) => return put_turns_of_statement(stmt, at, left, out),
            Sought::Left(more) => left = more,
        }
        at += statements_in(stmt);
    }
    Ok(())
}

// Appends the turns of op i of a statement with number n.
#[cycle(turns)]
fn put_turns_of_statement(
    stmt: &Stmt,
    n: u32,
    i: u32,
    out: &mut Vec<LoopTurn>,
) -> Result<(), NoMemory>
    requires { n + count (followed_by stmt.now done) < 2 ^ 32 }
    ensures { OnOk result (out.new.items ≡ out.old.items ++ turns_of (slice_get (making_op (turned_visits n (followed_by stmt.now done))) i)) }
{
    match stmt {
        Stmt::Loop { k, body } => put_turn(*k, body, n, i, out),
        _ => Ok(()),
    }
}
