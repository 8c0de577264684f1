// What a command answers on its input: a whole output with its status, or why there is none.
ghost use Rattle.std.specs.Prelude.{◌≡◌, IfOk};
ghost use Rattle.armus_base.specs.calls.Statuses.{IsInOrder};
ghost use Rattle.armus_top.specs.inside.Answers.{ReportsEnd};

use adaptive::Wanted;
use armus_base::{Final, List, NoMemory};
use clock_pl::ClockFault;
use program_io::{ExitStatus, status_of};
use report::{Refusal, report_of};
use std::alloc::Global;

/// A whole output, and its status.
#[derive(Drop)]
pub struct Output {
    /// What is written.
    pub text: List<u8>,
    /// `NoDeadlock` or `Deadlock`.
    pub status: ExitStatus,
}

/// Why there is no answer to an input.
#[derive(Clone, Copy, Debug, PartialEq, Eq)]
pub enum InputEnd {
    /// It is refused.
    Refused(Refusal),
    /// It is a clock text, the unfolding of whose program has this fault.
    Clock(ClockFault),
    /// Memory ran out.
    NoMemory,
}

impl From<NoMemory> for InputEnd {
    ghost use Rattle.armus_top.specs.declared.output.InputEnd.TheVariants as ends;

    ghost from_gives = { λ _ e. e ≡ ends.NoMemory };

    fn from(_: NoMemory) -> Self {
        InputEnd::NoMemory
    }
}

/// The report of the end of a run, with the status that tells whether a task is dead.
pub(crate) fn reported(alloc: Global, end: &Final, wanted: Wanted) -> Result<Output, NoMemory>
    requires in_order { IsInOrder end.now.blocked }
    ensures report { IfOk result (ReportsEnd end.now wanted) }
{
    let report = report_of(alloc, end, wanted)?;
    Ok(Output {
        text: report.text,
        status: status_of(report.has_dead),
    })
}
