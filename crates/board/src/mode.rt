// Whether a board detects deadlock or avoids it.
use armus_base::Plan;
use std::snapshot::Snapshot;

/// What a board is for.
#[derive(Clone, Copy, Debug, PartialEq, Eq)]
pub enum Mode {
    /// Deadlocked tasks are named, while others go on.
    Detect,
    /// An await that would deadlock its task is refused.
    Avoid,
}

/// What the rule of a board is told once.
#[derive(Drop)]
pub struct Setting {
    pub plan: Snapshot<Plan>,
    pub mode: Mode,
}
