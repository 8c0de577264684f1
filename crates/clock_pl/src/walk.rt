// The walk over statements, with the bodies of finishes and loops.

ghost use Rattle.std.specs.Prelude.{◌+◌, ◌<◌, ◌≤◌, ◌^◌, ◌∷◌};
ghost use Rattle.armus_base.specs.Pieces.{times};
ghost use Rattle.clock_syntax.specs.Trees.{clock_count, done};
ghost use Rattle.clock_syntax.specs.calls.Bodies.{clock_followed_by};
ghost use Rattle.clock_semantics.specs.Unfolding.{a_turn, coming, comings_of};
ghost use Rattle.clock_pl.specs.inside.ClockCheckerSteps.{GivesClockChecker, checker_come_all, checker_statement};

use crate::activities::start;
use crate::checker::ClockChecker;
use crate::fault::ClockEnd;
use crate::statements::{advance, begin_finish, count_visit, end_finish, leave, open, resume};
use clock_syntax::{ClockBody, ClockStmt};
use std::alloc::Global;

// The turns of loop `n`.
#[cycle(walk)]
fn walk_turns<'p>(
    alloc: Global,
    checker: &mut ClockChecker<'p>,
    n: u32,
    turns: u16,
    body: &'p ClockBody,
) -> Result<(), ClockEnd>
    requires { n + clock_count body.now < 2 ^ 32 }
    ensures { GivesClockChecker result (checker_come_all (times turns (coming n a_turn ∷ comings_of (n + 1) body.now)) checker.old) checker.new }
{
    for _ in 0..turns {
        count_visit(checker, n)?;
        walk_body(alloc, checker, n, body)?;
    }
    Ok(())
}

// What statement `n` does, after its visit.
#[cycle(walk)]
fn act<'p>(
    alloc: Global,
    checker: &mut ClockChecker<'p>,
    n: u32,
    stmt: &'p ClockStmt,
) -> Result<(), ClockEnd>
    requires { n + clock_count (clock_followed_by stmt.now done) ≤ 2 ^ 32 }
    ensures { GivesClockChecker result (checker_statement n stmt.now checker.old) checker.new }
{
    match stmt {
        ClockStmt::Clock { x } => open(checker, n, x.as_bytes()),
        ClockStmt::Advance { x } => advance(checker, n, x.as_bytes()),
        ClockStmt::Resume { x } => resume(checker, n, x.as_bytes()),
        ClockStmt::Drop { x } => leave(checker, n, x.as_bytes()),
        ClockStmt::Skip => Ok(()),
        ClockStmt::Async { names, body } => start(alloc, checker, n, names.as_slice(), body),
        ClockStmt::Finish { body } => {
            begin_finish(checker, n)?;
            walk_body(alloc, checker, n, body)?;
            end_finish(checker, n)
        }
        ClockStmt::Loop { k, body } => walk_turns(alloc, checker, n, *k, body),
    }
}

// A statement, behind so many.
#[cycle(walk)]
fn walk_statement<'p>(
    alloc: Global,
    checker: &mut ClockChecker<'p>,
    before: u32,
    stmt: &'p ClockStmt,
) -> Result<(), ClockEnd>
    requires { before + clock_count (clock_followed_by stmt.now done) < 2 ^ 32 }
    ensures { GivesClockChecker result (checker_come_all (comings_of (before + 1) (clock_followed_by stmt.now done)) checker.old) checker.new }
{
    let n = before + 1;
    count_visit(checker, n)?;
    act(alloc, checker, n, stmt)
}

// The statements of a body, behind so many.
#[cycle(walk)]
pub(crate) fn walk_body<'p>(
    alloc: Global,
    checker: &mut ClockChecker<'p>,
    before: u32,
    body: &'p ClockBody,
) -> Result<(), ClockEnd>
    requires { before + clock_count body.now < 2 ^ 32 }
    ensures { GivesClockChecker result (checker_come_all (comings_of (before + 1) body.now) checker.old) checker.new }
{
    let mut at = before;
    for stmt in body.as_slice() {
        walk_statement(alloc, checker, at, stmt)?;
        at += stmt.statements();
    }
    Ok(())
}
