// Walkers that make several steps.
ghost use Rattle.std.specs.Prelude.{◌≡◌, IfSome};
ghost use Rattle.board.specs.calls.Seats.{IsOf};

use crate::walker::Walker;
use armus_base::Plan;
use board::Board;
use std::alloc::Global;

/// Whether the walker makes so many steps, none of them a fork.
pub fn steps<'p>(
    walker: &mut Walker<'p>,
    alloc: Global,
    board: &Board,
    plan: &'p Plan,
    count: u32,
) -> bool
    requires made { IsOf walker.old board.now }
    requires plan { board.now.plan ≡ plan.now }
    ensures made { IsOf walker.new board.now }
{
    let mut all = true;
    for _ in 0..count {
        all = matches!(walker.go(alloc, board, plan), Ok(None)) && all;
    }
    all
}

/// The child that the walker forks next.
pub fn forks<'p>(
    walker: &mut Walker<'p>,
    alloc: Global,
    board: &Board,
    plan: &'p Plan,
) -> Option<Walker<'p>>
    requires made { IsOf walker.old board.now }
    requires plan { board.now.plan ≡ plan.now }
    ensures made { IsOf walker.new board.now }
    ensures child { IfSome result (λ child. IsOf child board.now) }
{
    walker.go(alloc, board, plan).unwrap_or(None)
}
