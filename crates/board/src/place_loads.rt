// Loads of words by the place of a seat, of a task or of a viewer.
ghost use Rattle.std.specs.Prelude.{◌≡◌, ◌<◌, length};
ghost use Rattle.board.specs.calls.Seats.{AnswersAwait, AnswersPhase, IsOf, IsSeat};
ghost use Rattle.board.specs.calls.Views.{found_of};

use crate::board::Board;
use crate::numbers::{phase_of, seen_of};
use crate::plays::{Looks, Watches};
use crate::rule::TableSeat;
use crate::seen::Seen;
use armus_base::{Phase, PhaserId, TaskId};

// One load of an await word.
pub(crate) fn load_await_by(place: &mut TableSeat, board: &Board, t: TaskId) -> Seen
    requires made { IsOf (record { table = place.old.table_id; view = place.old.me.0 }) board.now }
    requires seat { IsSeat (record { table = place.old.table_id; view = place.old.me.0 }) }
    requires task { t.0 < length board.now.plan.parents }
    ensures slot { place.new.me.1 ≡ place.old.me.1 }
    ensures answer { AnswersAwait t.0 (found_of result) (record { table = place.old.table_id; view = place.old.me.0 }) (record { table = place.new.table_id; view = place.new.me.0 }) }
{
    let index = board.await_index(t);
    let word = board.cells.shared.load::<Watches>(place, index);
    seen_of(word)
}

// One load of a phase word.
pub(crate) fn load_phase_by(
    place: &mut TableSeat,
    board: &Board,
    t: TaskId,
    p: PhaserId,
) -> Option<Phase>
    requires made { IsOf (record { table = place.old.table_id; view = place.old.me.0 }) board.now }
    requires seat { IsSeat (record { table = place.old.table_id; view = place.old.me.0 }) }
    requires task { t.0 < length board.now.plan.parents }
    requires phaser { p.0 < length board.now.plan.makers }
    ensures slot { place.new.me.1 ≡ place.old.me.1 }
    ensures answer { AnswersPhase t.0 p.0 result (record { table = place.old.table_id; view = place.old.me.0 }) (record { table = place.new.table_id; view = place.new.me.0 }) }
{
    let index = board.phase_index(t, p);
    let word = board.cells.shared.load::<Looks>(place, index);
    phase_of(word)
}
