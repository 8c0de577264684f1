//! The wait-for graph of a list of statuses.
//!
//! It stands on `dep_state` and `digraph`. Its rows are in `tests_graphs`.
#![tactic(auto)]

mod graph;

pub use graph::WaitGraph;
