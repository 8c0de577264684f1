// What a replay answers.
ghost use Rattle.std.specs.Prelude.{◌≡◌};

use armus_base::{List, NoMemory, TaskId};
use thiserror::Error;

/// The verdict of a closed pass.
#[derive(Drop)]
pub struct PassVerdict {
    /// The tasks that are dead by the statuses that the pass found, in order of number.
    pub dead: List<TaskId>,
}

/// What a schedule without a fault leads to.
#[derive(Drop)]
pub struct Replayed {
    /// The verdicts of the closed passes, in order.
    pub verdicts: List<PassVerdict>,
    /// How many steps were made.
    pub steps: u32,
    /// The tasks that are dead in the state at the end, in order of number.
    pub dead: List<TaskId>,
}

/// The first line at fault.
#[derive(Clone, Copy, Debug, PartialEq, Eq)]
pub struct ScheduleFault {
    /// The number of the line, from 1.
    pub line: u32,
    /// 1: the line has no form; 2: its task is not enabled; 3: there is no such task; 4: no pass is open; 5: a pass is open already.
    pub kind: u8,
}

/// The kind of a line that has no form.
pub const NO_FORM: u8 = 1;

/// Of a step whose task is not enabled.
pub const NOT_ENABLED: u8 = 2;

/// Of a step of a task that there is not.
pub const NO_TASK: u8 = 3;

/// Of a load while no pass is open.
pub const NO_OPEN_PASS: u8 = 4;

/// Of a pass that starts while one is open.
pub const PASS_IS_OPEN: u8 = 5;

/// Why a schedule was not replayed.
#[derive(Debug, Drop, Error)]
pub enum ReplayEnd {
    /// A line is at fault; this is the first one.
    #[error("schedule fault of kind {} in line {}", .0.kind, .0.line)]
    Schedule(ScheduleFault),
    /// Memory ran out.
    #[error("want of memory")]
    NoMemory,
}

impl From<NoMemory> for ReplayEnd {
    ghost use Rattle.schedule.specs.declared.verdict.ReplayEnd.TheVariants as ends;

    ghost from_gives = { λ _ e. e ≡ ends.NoMemory };

    fn from(_: NoMemory) -> Self {
        ReplayEnd::NoMemory
    }
}
