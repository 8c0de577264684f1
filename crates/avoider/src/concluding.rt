// What is done on a board once an await is judged.
ghost use Rattle.std.specs.Prelude.{◌≡◌, ◌<◌, Some, true, false, length};
ghost use Rattle.std.specs.Result.{ForOk};
ghost use Rattle.armus_base.specs.Plans.{Blocks};
ghost use Rattle.board.specs.calls.Seats.{IsOf, aim_at};
ghost use Rattle.board.specs.calls.Steps.{own_phase};
ghost use Rattle.board.specs.calls.Views.{next_action, own_place};
ghost use Rattle.avoider.specs.calls.OnBoard.{DropsBelow};
ghost use Rattle.avoider.specs.inside.Concluded.{Concludes, MayConclude};

use crate::Decision;
use armus_base::{NoMemory, Offset, PhaserId};
use board::{Board, TaskSeat};
use verdict::Cycle;

/// Publishes the await that comes next where no cycle was found, and refuses it where one was. It frees the lock, also after `NoMemory`; a refused task
/// then drops all its phasers.
pub(crate) fn conclude(
    seat: &mut TaskSeat,
    board: &Board,
    p: PhaserId,
    off: Offset,
    found: Result<Option<Cycle>, NoMemory>,
) -> Result<Decision, NoMemory>
    requires made { IsOf seat.old board.now }
    requires phaser { p.0 < length board.now.plan.makers }
    requires locked { seat.old.view.holds ≡ true }
    requires next { next_action seat.old.view ≡ Some (Blocks (aim_at p.0 off)) }
    requires may { ForOk found (MayConclude (aim_at p.0 off) seat.old) }
    ensures concludes { Concludes (aim_at p.0 off) found seat.old seat.new result }
    ensures free { (seat.new.view.holds ≡ false) × IsOf seat.new board.now }
{
    let _ = seat.id();
    match found {
        Ok(None) => {
            let event = seat.publish(board, p, off);
            seat.unlock(board);
            Ok(Decision::Published(event))
        }
        Ok(Some(cycle)) => {
            seat.refuse(board, p, off);
            seat.unlock(board);
            drop_all(seat, board);
            Ok(Decision::Refused(cycle))
        }
        Err(NoMemory) => {
            seat.unlock(board);
            Err(NoMemory)
        }
    }
}

// A refused task drops all its phasers, in order of number.
fn drop_all(seat: &mut TaskSeat, board: &Board)
    requires made { IsOf seat.old board.now }
    requires unlocked { seat.old.view.holds ≡ false }
    requires refused { (own_place seat.old.view).dropped ≡ Some 0 }
    ensures drops { DropsBelow (own_phase seat.old.view) (length board.now.plan.makers) seat.old seat.new }
    ensures free { (seat.new.view.holds ≡ false) × IsOf seat.new board.now }
{
    for q in 0..board.phasers() {
        match seat.phase(board, PhaserId(q)) {
            Some(_) => seat.drop_phaser(board, PhaserId(q)),
            None => {}
        }
    }
}
