// The ops of a task's code.
use crate::{Offset, PhaserId, TaskId};

/// One op: a command of PL as it stands in an unfolded code (PPoPP 2015, but for the unfolding, which is this project's own).
#[derive(Clone, Copy, Debug, PartialEq, Eq)]
pub enum Op {
    /// Makes the phaser `p`, with the task as its one member at phase 0.
    Make { p: PhaserId },
    /// Makes the child `c` a member of `p` at the task's own phase.
    Reg { c: TaskId, p: PhaserId },
    /// Starts the child `c`.
    Fork { c: TaskId },
    /// Adds one to the task's phase on `p`.
    Adv { p: PhaserId },
    /// Ends the task's membership of `p`.
    Drop { p: PhaserId },
    /// Waits until every member of `p` has at least the phase that `off` makes of the task's own phase there.
    Await { p: PhaserId, off: Offset },
}
