// The verdict of an explanation.

use armus_base::{List, TaskId};

/// Whether somebody waits for ever, and which tasks show it.
#[derive(Drop)]
pub enum WaitVerdict {
    /// No task waits.
    Nobody,
    /// The walk from the least task that waits closes in the first of these tasks, and they are the first circle through it.
    Circle(List<TaskId>),
    /// The walk comes to its end: the task before the last, which is held, and the last.
    Chain(TaskId, TaskId),
}
