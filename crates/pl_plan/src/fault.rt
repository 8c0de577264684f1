// Why a program has no plan.

ghost use Rattle.std.specs.Prelude.{◌≡◌};
ghost use Rattle.pl_plan.specs.declared.fault.PlanEnd.TheVariants as ends;

use armus_base::WantOfMemory;
use thiserror::Error;

/// The kind of a name that stands for nothing where it is used.
pub const UNKNOWN_NAME: u8 = 1;

/// The kind of a name that stands for a phaser where a task is wanted, or for a task where a phaser is wanted.
pub const OTHER_KIND: u8 = 2;

/// The kind of a statement on a phaser of which the current task is not a member.
pub const NOT_MEMBER: u8 = 3;

/// The kind of a `reg` of a task that is a member of the phaser already.
pub const ALREADY_MEMBER: u8 = 4;

/// The kind of a `fork` or `reg` of a task that the current task did not draw.
pub const NOT_DRAWN_HERE: u8 = 5;

/// The kind of a `fork` or `reg` of a task that is forked already.
pub const ALREADY_FORKED: u8 = 6;

/// The kind of a `newTid` where `MAX_TASKS` tasks are there.
pub const TOO_MANY_TASKS: u8 = 7;

/// The kind of a `newPhaser` where `MAX_PHASERS` phasers are there.
pub const TOO_MANY_PHASERS: u8 = 8;

/// The kind of an op where `MAX_OPS` ops are there.
pub const TOO_MANY_OPS: u8 = 9;

/// The kind of a visit after `MAX_VISITS` visits.
pub const TOO_MANY_VISITS: u8 = 10;

/// The kind of a `newTid` or `newPhaser` with which the tasks, times one more than the phasers, are above `MAX_CELLS`.
pub const TOO_MANY_CELLS: u8 = 11;

/// The first fault of a program's unfolding (this project's own).
#[derive(Clone, Copy, Debug, PartialEq, Eq)]
pub struct CheckFault {
    /// Its kind, one of the eleven constants above, from 1 to 11.
    pub kind: u8,
    /// The number of its statement, from 1 in the order in which the statements stand in the text. A turn of a loop has the loop's number,
    /// and the end of a task, where a text of PL 2 has no op left for what it leaves, the number of its fork, or 0 if it is the end of task 0.
    pub statement: u32,
}

/// Why `plan` gives no plan.
#[derive(Debug, Drop, Error)]
pub enum PlanEnd {
    /// The unfolding of the program has a fault; this is the first one.
    #[error("check fault of kind {} at statement {}", .0.kind, .0.statement)]
    Check(CheckFault),
    /// Memory ran out.
    #[error("want of memory")]
    NoMemory,
}

impl<E: WantOfMemory> From<E> for PlanEnd {
    ghost from_gives = { λ _ e. e ≡ ends.NoMemory };

    fn from(_e: E) -> PlanEnd {
        PlanEnd::NoMemory
    }
}

impl From<CheckFault> for PlanEnd {
    ghost from_gives = { λ f e. e ≡ ends.Check f };

    fn from(f: CheckFault) -> PlanEnd {
        PlanEnd::Check(f)
    }
}
