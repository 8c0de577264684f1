// How the tasks of a run have ended.
use crate::{Event, List, Status};

/// How one task has ended (this project's own).
#[derive(Clone, Copy, Debug, PartialEq, Eq)]
pub enum TaskEnd {
    /// Its code is done.
    Done,
    /// It is published on this event, which is not reached.
    Blocked(Event),
    /// Its await of this event was refused, and it has left its phasers.
    Refused(Event),
    /// No task has forked it.
    Unforked,
}

/// The state in which a run has ended (this project's own).
#[derive(Drop)]
pub struct Final {
    /// How each task has ended, in order of number.
    pub ends: List<TaskEnd>,
    /// The status of each blocked task, in order of number: its event, and its phase on each phaser that some blocked task awaits and of which it is a member.
    pub blocked: List<Status>,
}
