// Why a clock program has no plan.

ghost use Rattle.std.specs.Prelude.{◌≡◌, string_bytes, IfOk};
ghost use Rattle.clock_pl.specs.declared.fault.ClockEnd.TheVariants as ends;
ghost use Rattle.clock_pl.specs.ClockLines.{clock_fault_line};

use armus_base::{List, NoMemory, WantOfMemory};
use std::alloc::{AllocError, Global};
use thiserror::Error;

/// The kind of a name that stands for no clock.
pub const UNKNOWN_CLOCK: u8 = 1;

/// The kind of a statement on a clock on which the activity is not registered.
pub const NOT_REGISTERED: u8 = 2;

/// The kind of an async in whose list a name stands a second time.
pub const LISTED_TWICE: u8 = 3;

/// The kind of an async or a resume on a clock that is pending.
pub const STILL_PENDING: u8 = 4;

/// The kind of an async where `MAX_TASKS` activities are there.
pub const TOO_MANY_ACTIVITIES: u8 = 5;

/// The kind of a clock or finish where `MAX_PHASERS` clocks and finishes are there.
pub const TOO_MANY_CLOCKS: u8 = 6;

/// The kind of an async, clock or finish with which the activities, times one more than the clocks and finishes, are above `MAX_CELLS`.
pub const TOO_MANY_CLOCK_CELLS: u8 = 7;

/// The kind of an op where `MAX_OPS` ops are there.
pub const TOO_MANY_CLOCK_OPS: u8 = 8;

/// The kind of a visit after `MAX_VISITS` visits.
pub const TOO_MANY_CLOCK_VISITS: u8 = 9;

/// The first fault of a clock program's unfolding (this project's own).
#[derive(Clone, Copy, Debug, PartialEq, Eq)]
pub struct ClockFault {
    /// Its kind, one of the nine constants above, from 1 to 9.
    pub kind: u8,
    /// The number of its statement, from 1 in the order in which the statements stand in the text. A turn of a loop has the loop's number, the end of a finish
    /// the finish's, and the end of an activity, where no op is left for what it leaves, the number of its async, or 0 if it is the end of activity 0.
    pub statement: u32,
}

/// Why `clock_plan` gives no plan.
#[derive(Debug, Drop, Error)]
pub enum ClockEnd {
    /// The unfolding of the program has a fault; this is the first one.
    #[error("clock fault of kind {} at statement {}", .0.kind, .0.statement)]
    Clock(ClockFault),
    /// Memory ran out.
    #[error("want of memory")]
    NoMemory,
}

impl<E: WantOfMemory> From<E> for ClockEnd {
    ghost from_gives = { λ _ e. e ≡ ends.NoMemory };

    fn from(_e: E) -> ClockEnd {
        ClockEnd::NoMemory
    }
}

impl From<ClockFault> for ClockEnd {
    ghost from_gives = { λ f e. e ≡ ends.Clock f };

    fn from(f: ClockFault) -> ClockEnd {
        ClockEnd::Clock(f)
    }
}

// The line of a fault of this kind, as text.
fn clock_words(alloc: Global, kind: u8, statement: u32) -> Result<String, AllocError>
    ensures { IfOk result (λ words. string_bytes words ≡ clock_fault_line kind statement) }
{
    let words = format!(in alloc; "refused clock {kind} statement {statement}\n")?;
    Ok(words)
}

/// The line that says why a clock program is refused: `refused clock 4 statement 3`, with its LF.
pub fn clock_line(alloc: Global, fault: &ClockFault) -> Result<List<u8>, NoMemory>
    ensures { IfOk result (λ line. line ≡ clock_fault_line fault.now.kind fault.now.statement) }
{
    let words = clock_words(alloc, fault.kind, fault.statement)?;
    Ok(List::from_vec(words.into_bytes()))
}
