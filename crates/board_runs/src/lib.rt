//! Tasks that take turns on a board, by rounds of several workers.
//!
//! It stands on `avoider` and `board`. Its rows are in `tests_board` (`rounds`, `counting`).
#![tactic(auto)]

mod beginning;
mod board_tasks;
mod endings;
mod rounds;
mod task;
mod worker_cells;

pub use board_tasks::{BoardTasks, Rounded};
pub use endings::{first_places, note_places, take_in_all};
pub use rounds::{Calls, TurnSetting, round};
pub use task::{Pause, Stretch, Task};
pub use worker_cells::WorkerCells;
