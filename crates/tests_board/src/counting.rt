// A viewer that counts its loads.
use armus_base::{Phase, PhaserId, TaskId};
use board::{Board, Loads, Seen, ViewSeat};

/// A viewer that counts its loads. Contracts see it as the viewer.
#[derive(Drop)]
pub(crate) struct Counting {
    pub(crate) view: ViewSeat,
    pub(crate) loads: u32,
}

impl Loads for Counting {
    ghost known = { λ s. s.view };

    fn load_await(&mut self, board: &Board, t: TaskId) -> Seen {
        self.loads = self.loads.wrapping_add(1);
        self.view.load_await(board, t)
    }

    fn load_phase(&mut self, board: &Board, t: TaskId, p: PhaserId) -> Option<Phase> {
        self.loads = self.loads.wrapping_add(1);
        self.view.load_phase(board, t, p)
    }
}
