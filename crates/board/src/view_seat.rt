// The seat of a viewer.
ghost use Rattle.std.specs.Prelude.{◌≡◌, ◌<◌, [], None, false, length, IfOk, IsOk};
ghost use Rattle.board.specs.calls.Views.{found_of, seen};
ghost use Rattle.board.specs.calls.Seats.{Known, IsOf, IsSeat, IsNewSeat, AnswersAwait, AnswersPhase, TakesIn};

use crate::board::Board;
use crate::loads::Loads;
use crate::place_loads::{load_await_by, load_phase_by};
use crate::plays::{Copies, CountsLoad, JoinsSeat};
use crate::rule::TableSeat;
use crate::seen::Seen;
use crate::task_seat::TaskSeat;
use armus_base::{NoMemory, Phase, PhaserId, TaskId};
use std::alloc::Global;
use std::marker::Model;

/// A seat that only looks, and that takes in the seats of tasks which have ended. Contracts see of which board it is, and what it has seen.
#[derive(Drop)]
pub struct ViewSeat {
    place: TableSeat,
}

impl Model for ViewSeat {
    ghost use Rattle.board.specs.calls.Seats.{Known};

    ghost Value = { Known };

    ghost use Rattle.board.specs.calls.Viewing.{known_of_viewer};
    ghost use Rattle.board.specs.inside.Viewing.{Views};

    ghost view = { known_of_viewer };

    ghost invariant = { Views };
}

impl ViewSeat {
    pub(crate) fn of(place: TableSeat) -> ViewSeat
        requires { (place.me.1 ≡ []) × (place.me.0.own ≡ None) × (place.me.0.holds ≡ false) × IsSeat (record { table = place.table_id; view = place.me.0 }) }
        ensures { result ≡ record { table = place.table_id; view = place.me.0 } }
    {
        ViewSeat { place }
    }

    pub(crate) fn into_place(self) -> TableSeat
        ensures place { (result.table_id ≡ self.table) × (result.me ≡ (self.view, [])) }
        ensures seat { (self.view.own ≡ None) × IsSeat self }
    {
        let ViewSeat { place } = self;
        place
    }

    /// Ends the seat of a task. After it the viewer has seen all that either had seen, and that task's place exactly.
    pub fn take_in(&mut self, board: &Board, seat: TaskSeat)
        requires made { IsOf self.old board.now }
        requires seat_made { IsOf seat board.now }
        ensures taken { TakesIn seat self.old self.new }
    {
        let other = seat.into_place();
        board
            .cells
            .shared
            .join_seat::<JoinsSeat>(&mut self.place, other);
        board.cells.shared.load::<CountsLoad>(&mut self.place, 0);
    }

    /// A second viewer that has seen the same. It takes no memory, so it never answers `NoMemory`.
    pub fn split(&mut self, alloc: Global, board: &Board) -> Result<ViewSeat, NoMemory>
        requires made { IsOf self.old board.now }
        ensures seat { self.new ≡ self.old }
        ensures other { IfOk result (λ other. IsNewSeat board.now None (seen self.old.view) other) }
        ensures always { IsOk result }
    {
        let _ = alloc;
        let place = board.cells.shared.split_seat::<Copies>(&mut self.place);
        Ok(ViewSeat { place })
    }
}

impl Loads for ViewSeat {
    ghost known = { λ s. s };

    fn load_await(&mut self, board: &Board, t: TaskId) -> Seen {
        load_await_by(&mut self.place, board, t)
    }

    fn load_phase(&mut self, board: &Board, t: TaskId, p: PhaserId) -> Option<Phase> {
        load_phase_by(&mut self.place, board, t, p)
    }
}
