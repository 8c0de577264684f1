// What is asked of an analysis, and what it answers.
use armus_base::{List, TaskId};

/// The graph that is asked for.
#[derive(Clone, Copy, Debug, PartialEq, Eq)]
pub enum Wanted {
    /// the graph of the adaptive choice
    Auto,
    /// the wait-for graph
    Wfg,
    /// the state graph
    Sg,
    /// the general resource graph
    Grg,
}

/// The graph that was used.
#[derive(Clone, Copy, Debug, PartialEq, Eq)]
pub enum Used {
    /// the wait-for graph
    Wfg,
    /// the state graph
    Sg,
    /// the general resource graph
    Grg,
}

/// What an analysis of a list of statuses answers.
#[derive(Drop)]
pub struct Analysis {
    /// the dead tasks of the statuses, in order of number
    pub dead: List<TaskId>,
    /// the graph that was used, by the rule for what was wanted
    pub used: Used,
    /// the number of distinct edges of that whole graph
    pub edges: u64,
}
