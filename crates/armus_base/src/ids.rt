// The numbers of tasks, phasers and phases.

/// The number of a task of a plan, from 0; task 0 is the program.
#[derive(Clone, Copy, Debug, PartialEq, Eq, PartialOrd, Ord)]
pub struct TaskId(pub u32);

/// The number of a phaser of a plan, from 0.
#[derive(Clone, Copy, Debug, PartialEq, Eq, PartialOrd, Ord)]
pub struct PhaserId(pub u32);

/// A member's local phase on a phaser, from 0 (PPoPP 2015).
pub type Phase = u32;
