// What a pass answers.
use armus_base::{Dead, List, TaskId};

/// What a pass answers.
#[derive(Drop)]
pub struct Verdict {
    /// The dead tasks of the statuses that the pass found, in order.
    pub dead: List<TaskId>,
    /// Those of them that the collector had not named before, in order, each with its event.
    pub fresh: List<Dead>,
}
