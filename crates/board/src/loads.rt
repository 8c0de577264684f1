// Loads of any task's words, by the seat of a task or of a viewer.
ghost use Rattle.std.specs.Prelude.{◌≡◌, ◌<◌, length};
ghost use Rattle.board.specs.calls.Seats.{Known, IsOf, AnswersAwait, AnswersPhase};
ghost use Rattle.board.specs.calls.Views.{found_of};

use crate::board::Board;
use crate::seen::Seen;
use armus_base::{Phase, PhaserId, TaskId};

/// What both kinds of seat can do. Contracts see what the seat has seen, and the number of its loads.
pub trait Loads {
    ghost known: { Self → Known };

    /// One load of the await word of `t`.
    fn load_await(&mut self, board: &Board, t: TaskId) -> Seen
        requires made { IsOf (known self.old) board.now }
        requires task { t.0 < length board.now.plan.parents }
        ensures answer { AnswersAwait t.0 (found_of result) (known self.old) (known self.new) };

    /// One load of the phase word of `t` on `p`.
    fn load_phase(&mut self, board: &Board, t: TaskId, p: PhaserId) -> Option<Phase>
        requires made { IsOf (known self.old) board.now }
        requires task { t.0 < length board.now.plan.parents }
        requires phaser { p.0 < length board.now.plan.makers }
        ensures answer { AnswersPhase t.0 p.0 result (known self.old) (known self.new) };
}
