// What the calls of an order answer.
use armus_base::{List, TaskId};

/// What came of an edge that was to be added.
#[derive(Drop)]
pub enum Added {
    /// The edge is there.
    Kept,
    /// The edge would close a cycle; this is a shortest walk from its end to its start, each of whose tasks is the least that can follow.
    Cycle(List<TaskId>),
}

/// What came of edges that were to be the pairs of a wait-for graph.
#[derive(Clone, Copy, Debug, PartialEq, Eq)]
pub enum Followed {
    /// The edges are the pairs.
    Kept,
    /// The pairs have a cycle.
    Dead,
}
