//! The words that running tasks share without a lock, and what each seat has seen of them.
//!
//! It stands on `armus_base` and `atomic_table`. Its rows are in `tests_board`.
#![tactic(auto)]

mod board;
mod busy;
mod laws;
mod loads;
mod mode;
mod numbers;
mod place_loads;
mod plays;
mod rule;
mod seen;
mod task_seat;
mod view;
mod view_seat;
mod words;

pub use board::Board;
pub use busy::Busy;
pub use laws::rule_tells_the_dead;
pub use loads::Loads;
pub use mode::Mode;
pub use seen::Seen;
pub use task_seat::TaskSeat;
pub use view_seat::ViewSeat;
pub use words::Words;
