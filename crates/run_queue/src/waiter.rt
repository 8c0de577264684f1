// A task that waits at a phaser.
use armus_base::{Phase, TaskId};

/// A task that waits at a phaser, and the phase for which it waits.
#[derive(Clone, Copy, Debug, PartialEq, Eq)]
pub(crate) struct Waiter {
    pub(crate) task: TaskId,
    pub(crate) phase: Phase,
}
