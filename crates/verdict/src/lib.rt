//! The cycle that explains a deadlock, and the test of a cycle.
//!
//! It stands on `dep_state` and `digraph`. Its rows are in `tests_graphs`.
#![tactic(auto)]

mod check;
mod found;
mod walk;

pub use check::check_cycle;
pub use found::Cycle;
pub use walk::cycle;
