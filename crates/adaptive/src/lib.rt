//! The analysis of a list of statuses by the graph that is wanted, or by that of the adaptive choice.
//!
//! It stands on `dep_state`, `state_graph` and `resource_graph`. Its rows are in `tests_graphs`.
#![tactic(auto)]

mod analysis;
mod choice;
mod columns;
mod dead;
mod front;
mod remaining;
mod standings;
mod waits;

pub use analysis::{Analysis, Used, Wanted};
pub use choice::{analyse, dead_by};
pub use dead::dead_of;
