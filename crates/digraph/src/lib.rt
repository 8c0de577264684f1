//! A directed graph to which edges are added, and the cycles that its nodes reach.
//!
//! It stands on `armus_base`. Its rows are in `tests_graphs`.
#![tactic(auto)]

mod cycle;
mod graph;
mod rows;
mod search;

pub use cycle::{least_marked, walk_cycle};
pub use graph::Digraph;
