// The decision on the await of a task that holds the lock of a board.
ghost use Rattle.std.specs.Prelude.{◌≡◌, false, IfOk, OnErr};
ghost use Rattle.board.specs.calls.Seats.{IsOf, aim_at};
ghost use Rattle.phase_scan.specs.calls.Looks.{LoadsAlone};
ghost use Rattle.avoider.specs.calls.OnBoard.{HasSameRoom, IsBeforeDecision, IsDecidedOnBoard, IsUndecided};
ghost use Rattle.avoider.specs.inside.Judged.{IsJudged};

use crate::Decision;
use crate::concluding::conclude;
use crate::gathering::own_event;
use crate::step::death_of;
use adaptive::Wanted;
use armus_base::{NoMemory, Offset, PhaserId};
use board::{Board, TaskSeat};
use phase_scan::Cells;
use std::alloc::Global;
use verdict::Cycle;

/// The seat holds the lock, which only one of a board that avoids deadlock does, and stands before an unpublished await of `p` with this offset. It is refused exactly
/// where its task would be dead with the event published, and published otherwise. The lock is free after it. A refused task has then dropped all its
/// phasers, in order of number. After `NoMemory` nothing is published or refused. The cells have the statuses of the collect.
pub fn decide(
    alloc: Global,
    seat: &mut TaskSeat,
    board: &Board,
    p: PhaserId,
    off: Offset,
    cells: &mut Cells,
    wanted: Wanted,
) -> Result<Decision, NoMemory>
    requires before { IsBeforeDecision board.now (aim_at p.0 off) cells.old seat.old }
    ensures decision { IfOk result (IsDecidedOnBoard cells.new.statuses (aim_at p.0 off) seat.old seat.new) }
    ensures undecided { OnErr result (IsUndecided seat.old seat.new) }
    ensures free { (seat.new.view.holds ≡ false) × IsOf seat.new board.now }
    ensures room { HasSameRoom cells.old cells.new }
{
    let _ = seat.id();
    let found = judge(alloc, seat, board, p, off, cells, wanted);
    conclude(seat, board, p, off, found)
}

// The cycle of the statuses of a collect and of the own await, where the own task is dead by them. They are made only where the task may lie on a cycle.
fn judge(
    alloc: Global,
    seat: &mut TaskSeat,
    board: &Board,
    p: PhaserId,
    off: Offset,
    cells: &mut Cells,
    wanted: Wanted,
) -> Result<Option<Cycle>, NoMemory>
    requires before { IsBeforeDecision board.now (aim_at p.0 off) cells.old seat.old }
    ensures judged { IfOk result (IsJudged cells.new.statuses (aim_at p.0 off) seat.old seat.new) }
    ensures goes_on { LoadsAlone seat.old seat.new }
    ensures room { HasSameRoom cells.old cells.new }
{
    let t = seat.id();
    let event = own_event(seat, board, p, off);
    cells.collect(seat, board);
    let supposed = cells.supposed_on_cycle(alloc, seat, board, event)?;
    match supposed {
        Some(list) => {
            let found = death_of(alloc, list.as_slice(), t, wanted)?;
            Ok(found)
        }
        None => Ok(None),
    }
}
