//! The state graph of a list of statuses.
//!
//! It stands on `dep_state` and `digraph`. Its rows are in `tests_graphs`.
#![tactic(auto)]

mod end;
mod graph;
mod growth;
mod whole;

pub use end::SgEnd;
pub use graph::StateGraph;
