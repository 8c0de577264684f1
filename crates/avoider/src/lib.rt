//! Decisions of the runs that avoid deadlock: whether an await is published or refused, in a world and on a board.
//!
//! It stands on `pl_core`, `phase_scan`, `order_graph`, `adaptive` and `verdict`. Its rows are in `tests_board`.
#![tactic(auto)]

mod concluding;
mod deciding;
mod deciding_kept;
mod decision;
mod event;
mod gathering;
mod judging;
mod kept;
pub mod laws;
mod lock;
mod step;
mod waiting;
mod walking;

pub use deciding::decide;
pub use deciding_kept::decide_kept;
pub use decision::Decision;
pub use event::go_on;
pub use judging::{Judge, Judging};
pub use kept::avoid_step_kept;
pub use lock::{release, try_take};
pub use step::avoid_step;
