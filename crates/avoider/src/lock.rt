// The lock of a board that avoids deadlock.
ghost use Rattle.std.specs.Prelude.{◌≡◌, true, false, IfErr, OnOk};
ghost use Rattle.board.specs.calls.Locking.{FindsHeld, FreesLock, IsBeforeAwait, TakesLock};
ghost use Rattle.board.specs.calls.Seats.{IsOf};
ghost use Rattle.board.specs.calls.Views.{avoids};

use board::{Board, Busy, TaskSeat};

/// The board avoids deadlock, the next op is an await that is not published, and the seat does not hold the lock. After Ok it does, and has found
/// nothing yet. Busy comes exactly where another task held it.
pub fn try_take(seat: &mut TaskSeat, board: &Board) -> Result<(), Busy>
    requires made { IsOf seat.old board.now }
    requires avoids { avoids seat.old.view.mode ≡ true }
    requires next { IsBeforeAwait seat.old }
    requires unlocked { seat.old.view.holds ≡ false }
    ensures taken { OnOk result (TakesLock seat.old seat.new) }
    ensures busy { IfErr result (λ busy. FindsHeld busy.holder.0 seat.old seat.new) }
{
    seat.try_lock(board)
}

/// The seat holds the lock. It frees it, and does nothing else.
pub fn release(seat: &mut TaskSeat, board: &Board)
    requires made { IsOf seat.old board.now }
    requires locked { seat.old.view.holds ≡ true }
    ensures freed { FreesLock seat.old seat.new }
{
    seat.unlock(board);
}
