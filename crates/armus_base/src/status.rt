// Statuses: what a waiting task publishes.
use crate::{Event, List, Phase, PhaserId, TaskId};

/// A task's phase on a phaser of which it is a member.
#[derive(Clone, Copy, Debug, PartialEq, Eq)]
pub struct Member {
    pub p: PhaserId,
    pub n: Phase,
}

/// The status of a blocked task: the event that it awaits, and its phases (the resource-dependency state of PPoPP 2015, task by task).
#[derive(Drop)]
pub struct Status {
    pub t: TaskId,
    pub event: Event,
    pub phases: List<Member>,
}

/// A deadlocked task with the event that it awaits.
#[derive(Clone, Copy, Debug, PartialEq, Eq)]
pub struct Dead {
    pub t: TaskId,
    pub event: Event,
}
