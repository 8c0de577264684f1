// The ascending scan.
ghost use Rattle.std.specs.Prelude.{◌≡◌, ◌<◌, Some, true, MatchOption, IsSome};
ghost use Rattle.armus_base.specs.calls.Seats.{is_not_behind};
ghost use Rattle.board.specs.calls.Seats.{IsOf, event_of};
ghost use Rattle.phase_scan.specs.calls.Looks.{LoadsAlone, IsLook};

use crate::Look;
use armus_base::{Event, Phase, TaskId};
use board::{Board, TaskSeat};

// The phase that was found, if it is below that of the event.
fn behind(found: Option<Phase>, event: Event) -> Option<Phase>
    ensures { MatchOption result (is_not_behind found event ≡ true) (λ n. (found ≡ Some n) × (n < event.n)) }
{
    let phase = found?;
    if phase < event.n { Some(phase) } else { None }
}

/// An event is published. Loads the phase words of its phaser from the task that is scanned next upward, until a member below its phase is found or
/// all tasks are scanned.
pub fn look(seat: &mut TaskSeat, board: &Board) -> Look
    requires made { IsOf seat.old board.now }
    requires event { IsSome (event_of seat.old) }
    ensures goes_on { LoadsAlone seat.old seat.new }
    ensures answer { IsLook result seat.old seat.new }
{
    let _ = seat.id();
    let event = seat.event().unwrap();
    let first = seat.scanned();
    let tasks = board.tasks();
    for number in first..tasks {
        let t = TaskId(number);
        let found = seat.scan_next(board, event, t);
        if let Some(phase) = behind(found, event) {
            return Look::Behind { t, phase };
        }
    }
    Look::Reached
}
