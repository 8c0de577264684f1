//! Passes that name the deadlocked tasks of a board while its tasks run.
//!
//! It stands on `phase_scan` and `adaptive`. Its rows are in `tests_board`.
#![tactic(auto)]

mod collector;
mod naming;
mod verdict;

pub use collector::Collector;
pub use verdict::Verdict;
