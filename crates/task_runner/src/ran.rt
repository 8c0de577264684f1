// What a run on a board answers.
ghost use Rattle.std.specs.Prelude.{◌≡◌};

use armus_base::{Final, List, NoMemory, TaskId, WriteFault};
use board::Words;
use pl_core::Place;

/// What a run on a board that detects deadlock comes to.
#[derive(Drop)]
pub struct Ran {
    /// The value of the final state.
    pub end: Final,
    /// The place of each task when all had ended their turns on the board.
    pub places: List<Place>,
    /// The words of the board in that state.
    pub words: Words,
    /// The tasks that the pass after the rounds named, in order: those that are dead in that state.
    pub dead: List<TaskId>,
}

/// Why a run ended early.
#[derive(Clone, Copy)]
pub enum RunEnd {
    /// The sink counted a fault.
    Write,
    /// Memory was wanting.
    NoMemory,
}

impl From<NoMemory> for RunEnd {
    ghost use Rattle.task_runner.specs.declared.ran.RunEnd.TheVariants as ends;

    ghost from_gives = { λ _ e. e ≡ ends.NoMemory };

    fn from(_: NoMemory) -> RunEnd {
        RunEnd::NoMemory
    }
}

impl From<WriteFault> for RunEnd {
    ghost use Rattle.task_runner.specs.declared.ran.RunEnd.TheVariants as ends;

    ghost from_gives = { λ _ e. e ≡ ends.Write };

    fn from(_: WriteFault) -> RunEnd {
        RunEnd::Write
    }
}
