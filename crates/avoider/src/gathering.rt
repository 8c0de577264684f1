// The statuses on which a decision on a board rests.
ghost use Rattle.std.specs.Prelude.{◌≡◌, ◌<◌, Some, length, IfOk};
ghost use Rattle.armus_base.specs.Plans.{Blocks};
ghost use Rattle.armus_base.specs.States.{awaited};
ghost use Rattle.board.specs.calls.Seats.{IsOf, aim_at};
ghost use Rattle.board.specs.calls.Steps.{own_phase};
ghost use Rattle.board.specs.calls.Views.{next_action};
ghost use Rattle.phase_scan.specs.calls.Looks.{LoadsAlone};
ghost use Rattle.avoider.specs.calls.OnBoard.{HasSameRoom, IsBeforeDecision, Judges};

use armus_base::{Event, List, NoMemory, Offset, PhaserId, Status};
use board::{Board, TaskSeat};
use phase_scan::Cells;
use std::alloc::Global;

/// The event of an await, and the statuses by which it is judged.
#[derive(Drop)]
pub(crate) struct Gathered {
    pub(crate) event: Event,
    pub(crate) list: List<Status>,
}

/// The event of the await that comes next, and the statuses of a collect with the own one as if the event were published.
pub(crate) fn gather(
    alloc: Global,
    seat: &mut TaskSeat,
    board: &Board,
    p: PhaserId,
    off: Offset,
    cells: &mut Cells,
) -> Result<Gathered, NoMemory>
    requires before { IsBeforeDecision board.now (aim_at p.0 off) cells.old seat.old }
    ensures judges { IfOk result (λ g. Judges cells.new.statuses (aim_at p.0 off) g.event g.list seat.old seat.new) }
    ensures goes_on { LoadsAlone seat.old seat.new }
    ensures room { HasSameRoom cells.old cells.new }
{
    let event = own_event(seat, board, p, off);
    cells.collect(seat, board);
    let list = cells.supposed(alloc, seat, board, event)?;
    Ok(Gathered { event, list })
}

/// The event of the await that comes next, by the own phase on its phaser.
pub(crate) fn own_event(seat: &mut TaskSeat, board: &Board, p: PhaserId, off: Offset) -> Event
    requires made { IsOf seat.old board.now }
    requires phaser { p.0 < length board.now.plan.makers }
    requires next { next_action seat.old.view ≡ Some (Blocks (aim_at p.0 off)) }
    ensures seat { seat.new ≡ seat.old }
    ensures phaser { result.p ≡ p }
    ensures event { awaited (Some (Blocks (aim_at p.0 off))) (own_phase seat.old.view) ≡ Some result }
{
    let _ = seat.id();
    match seat.phase(board, p) {
        Some(n) => Event {
            p,
            n: off.target(n),
        },
        None => unreachable!(),
    }
}
