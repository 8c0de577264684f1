//! Which tasks of a world may act, so that a run looks at no task that only stands there: those that may, in order of number, and those that wait, by phaser.
//!
//! It stands on `pl_core`. Its rows are those of the runs, in `tests_runs` and `tests_text`.
#![tactic(auto)]

mod kinds;
mod ready;
mod run_queue;
mod wait_queue;
mod waiter;

pub use kinds::{StepKind, step_kind};
pub use run_queue::RunQueue;
