// The statement from which an op of a body comes.

ghost use Rattle.std.specs.Prelude.{◌≡◌, ◌+◌, ◌<◌, ◌^◌, ◌∷◌, ℕ};
ghost use Rattle.armus_base.specs.Pieces.{times};
ghost use Rattle.pl_syntax.specs.Tree.{count, done};
ghost use Rattle.pl_syntax.specs.calls.Bodies.{followed_by};
ghost use Rattle.pl_plan.specs.Unfolding.{visit, a_turn, visits_of};
ghost use Rattle.source_map.specs.Origins.{comes_to_op, statements_where};
ghost use Rattle.source_map.specs.inside.Seeking.{IsSought};

use crate::statement::statements_in;
use pl_syntax::{Body, Stmt};

// The number of the statement that was sought; or how many ops are left to go behind those of the statements that were looked at.
#[derive(Clone, Copy)]
pub(crate) enum Sought {
    Found(u32),
    Left(u32),
}

// Among the turns of a loop of which the body's first statement has number n. Its body is gone through once to count the ops of a turn, and once more for
// the turn that has the op.
#[cycle(seek)]
fn seek_in_turns(k: u16, body: &Body, n: u32, i: u32) -> Sought
    requires { n + count body.now < 2 ^ 32 }
    ensures { (at : ℕ) → IsSought (statements_where comes_to_op (times k (visit at a_turn ∷ visits_of n body.now))) i result }
{
    if k == 0 {
        return Sought::Left(i);
    }
    match seek_in_body(body, n, i) {
        Sought::Found(s) => Sought::Found(s),
        Sought::Left(left) => {
            let made = i - left;
            let all = u64::from(k) * u64::from(made);
            if u64::from(i) < all {
                seek_in_body(body, n, i % made)
            } else {
                Sought::Left((u64::from(i) - all) as u32)
            }
        }
    }
}

// In a statement with number n.
#[cycle(seek)]
pub(crate) fn seek_in_statement(stmt: &Stmt, n: u32, i: u32) -> Sought
    requires { n + count (followed_by stmt.now done) < 2 ^ 32 }
    ensures { IsSought (statements_where comes_to_op (visits_of n (followed_by stmt.now done))) i result }
{
    match stmt {
        Stmt::NewTask { x: _ } => Sought::Left(i),
        Stmt::Skip => Sought::Left(i),
        Stmt::Loop { k, body } => seek_in_turns(*k, body, n + 1, i),
        _ => {
            if i == 0 {
                Sought::Found(n)
            } else {
                Sought::Left(i - 1)
            }
        }
    }
}

// In a body of which the first statement has number n.
#[cycle(seek)]
pub(crate) fn seek_in_body(body: &Body, n: u32, i: u32) -> Sought
    requires { n + count body.now < 2 ^ 32 }
    ensures { IsSought (statements_where comes_to_op (visits_of n body.now)) i result }
{
    let mut at = n;
    let mut left = i;
    for stmt in body.as_slice() {
        match seek_in_statement(stmt, at, left) {
            Sought::Found(s) => return Sought::Found(s),
            Sought::Left(more) => left = more,
        }
        at += statements_in(stmt);
    }
    Sought::Left(left)
}
