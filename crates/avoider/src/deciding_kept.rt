// The decision by a kept order, on the await of a task that holds the lock of a board.
ghost use Rattle.std.specs.Prelude.{◌≡◌, false, length, IfOk, OnErr};
ghost use Rattle.board.specs.calls.Seats.{IsOf, aim_at};
ghost use Rattle.phase_scan.specs.calls.Looks.{LoadsAlone};
ghost use Rattle.avoider.specs.calls.Kept.{HoldsIfPublishedOnBoard};
ghost use Rattle.avoider.specs.calls.OnBoard.{HasSameRoom, IsBeforeDecision, IsDecidedOnBoard, IsUndecided};
ghost use Rattle.avoider.specs.inside.Judged.{IsJudgedByOrder};

use crate::Decision;
use crate::concluding::conclude;
use crate::gathering::gather;
use crate::kept::death_kept;
use armus_base::{NoMemory, Offset, PhaserId};
use board::{Board, TaskSeat};
use order_graph::Order;
use phase_scan::Cells;
use std::alloc::Global;
use verdict::Cycle;

/// Decides as `decide` does, by an order of the board's tasks: it follows the statuses of the collect with the task's own, and only what differs from the
/// last await is mended. After Published its edges are the pairs of the wait-for graph of these statuses, and between two other tasks the pairs of those
/// that the cells hold. After `NoMemory` nothing is published or refused, and the edges may be any.
pub fn decide_kept(
    alloc: Global,
    seat: &mut TaskSeat,
    board: &Board,
    p: PhaserId,
    off: Offset,
    cells: &mut Cells,
    order: &mut Order,
) -> Result<Decision, NoMemory>
    requires before { IsBeforeDecision board.now (aim_at p.0 off) cells.old seat.old }
    requires order { length order.old.positions ≡ length board.now.plan.parents }
    ensures decision { IfOk result (IsDecidedOnBoard cells.new.statuses (aim_at p.0 off) seat.old seat.new) }
    ensures undecided { OnErr result (IsUndecided seat.old seat.new) }
    ensures free { (seat.new.view.holds ≡ false) × IsOf seat.new board.now }
    ensures room { HasSameRoom cells.old cells.new }
    ensures order { length order.new.positions ≡ length order.old.positions }
    ensures pairs { IfOk result (HoldsIfPublishedOnBoard cells.new.statuses (aim_at p.0 off) seat.old seat.new order.old order.new) }
{
    let _ = seat.id();
    let found = judge_kept(alloc, seat, board, p, off, cells, order);
    conclude(seat, board, p, off, found)
}

// The cycle of the statuses of a collect and of the own await, where the own task is dead by them; the order follows these statuses.
fn judge_kept(
    alloc: Global,
    seat: &mut TaskSeat,
    board: &Board,
    p: PhaserId,
    off: Offset,
    cells: &mut Cells,
    order: &mut Order,
) -> Result<Option<Cycle>, NoMemory>
    requires before { IsBeforeDecision board.now (aim_at p.0 off) cells.old seat.old }
    requires order { length order.old.positions ≡ length board.now.plan.parents }
    ensures judged { IfOk result (IsJudgedByOrder cells.new.statuses (aim_at p.0 off) seat.old seat.new order.old order.new) }
    ensures goes_on { LoadsAlone seat.old seat.new }
    ensures room { HasSameRoom cells.old cells.new }
    ensures order { length order.new.positions ≡ length order.old.positions }
{
    let t = seat.id();
    let gathered = gather(alloc, seat, board, p, off, cells)?;
    let found = death_kept(alloc, order, gathered.list.as_slice(), t)?;
    Ok(found)
}
