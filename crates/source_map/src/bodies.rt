// The body of a fork, and where a body ends.

ghost use Rattle.std.specs.Prelude.{◌≡◌, ℕ, ◌+◌, ◌<◌, ◌^◌, map, None, Some, MatchOption, option_map};
ghost use Rattle.armus_base.specs.Pieces.{times};
ghost use Rattle.pl_syntax.specs.Tree.{count, done};
ghost use Rattle.pl_syntax.specs.calls.Bodies.{followed_by};
ghost use Rattle.pl_plan.specs.Unfolding.{Visit, visits_of};
ghost use Rattle.source_map.specs.Origins.{last_or, statement_in, written_statements};
ghost use Rattle.source_map.specs.inside.Tables.{body_of, coming_of, kept_comings, forked_body};

use crate::statement::statements_in;
use pl_syntax::{Body, Program, Stmt};

// The statement with this number, from 1 on.
pub(crate) fn statement_at<'p>(statements: &[&'p Stmt], n: u32) -> Option<&'p Stmt>
    ensures { option_map (λ stmt. coming_of stmt.now) result ≡ statement_in (kept_comings statements.now) n }
{
    if n == 0 || n as usize > statements.len() {
        return None;
    }
    Some(statements[n as usize - 1])
}

// The body of a statement, where it is a fork.
fn body_of(stmt: &Stmt) -> Option<&Body>
    ensures { option_map (λ body. body.now) result ≡ body_of (Some (coming_of stmt.now)) }
{
    match stmt {
        Stmt::Fork { x: _, body } => Some(body),
        _ => None,
    }
}

// The body of the fork with this number; for 0 the whole program.
pub(crate) fn body_at<'p>(
    program: &'p Program,
    statements: &[&'p Stmt],
    fork: u32,
) -> Option<&'p Body>
    requires { kept_comings statements.now ≡ written_statements program.now.body }
    ensures { MatchOption result (forked_body program.now.body fork ≡ None) (λ b. forked_body program.now.body fork ≡ Some b.now) }
{
    if fork == 0 {
        return Some(&program.body);
    }
    body_of(statement_at(statements, fork)?)
}

// The statement of the last visit of a statement with number n.
#[cycle(last)]
fn last_of_statement(stmt: &Stmt, n: u32) -> u32
    requires { n + count (followed_by stmt.now done) < 2 ^ 32 }
    ensures { (before : ℕ) → result ≡ last_or before (map (λ (m : Visit). m.statement) (visits_of n (followed_by stmt.now done))) }
{
    match stmt {
        Stmt::Loop { k, body } => {
            if *k == 0 {
                n
            } else {
                last_of_body(body, n + 1, n)
            }
        }
        _ => n,
    }
}

// The statement of the last visit of a body of which the first statement has number n; where it has none, the statement before.
#[cycle(last)]
pub(crate) fn last_of_body(body: &Body, n: u32, before: u32) -> u32
    requires { n + count body.now < 2 ^ 32 }
    ensures { result ≡ last_or before (map (λ (m : Visit). m.statement) (visits_of n body.now)) }
{
    let mut at = n;
    let mut last = before;
    for stmt in body.as_slice() {
        last = last_of_statement(stmt, at);
        at += statements_in(stmt);
    }
    last
}
