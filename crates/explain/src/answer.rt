// A whole output, or why there is none.
ghost use Rattle.std.specs.Prelude.{◌≡◌, ◌++◌, IfOk, if◌then◌else◌};
ghost use Rattle.program_io.specs.calls.ExitNumbers.{number_of_status};

use armus_base::{List, NoMemory};
use program_io::{ExitStatus, status_of};

/// A whole output, and its status.
#[derive(Drop)]
pub(crate) struct Answer {
    /// What is written.
    pub(crate) lines: List<u8>,
    /// How the call ends that writes it.
    pub(crate) status: ExitStatus,
}

/// Which output is wanted of a text.
#[derive(Clone, Copy, Debug, PartialEq, Eq)]
pub enum WantedOutput {
    /// Its explanation.
    Explanation,
    /// The steps of its run, and then its explanation.
    Steps,
    /// The explanation of its run that avoids deadlock.
    Avoided,
    /// The explanation of a clock text.
    Clocks,
}

/// Which output is wanted of a text of PL.
#[derive(Clone, Copy, Debug, PartialEq, Eq)]
pub(crate) enum PlWanted {
    /// Its explanation.
    Explanation,
    /// The steps of its run, and then its explanation.
    Steps,
    /// The explanation of its run that avoids deadlock.
    Avoided,
}

/// Which output is wanted of a clock text.
#[derive(Clone, Copy, Debug, PartialEq, Eq)]
pub(crate) enum ClockWanted {
    /// Its explanation.
    Explanation,
    /// The steps of its run, and then its explanation.
    Steps,
}

/// Why there is no output.
#[derive(Clone, Copy, Debug, PartialEq, Eq)]
pub(crate) enum AnswerEnd {
    /// The source failed.
    Fault,
    /// Memory ran out.
    NoMemory,
}

impl From<NoMemory> for AnswerEnd {
    ghost use Rattle.explain.specs.declared.answer.AnswerEnd.TheVariants as ends;

    ghost from_gives = { λ _ e. e ≡ ends.NoMemory };

    fn from(_: NoMemory) -> Self {
        AnswerEnd::NoMemory
    }
}

/// The lines of steps, and behind them those of an explanation, by which somebody waits or nobody does.
pub(crate) fn with_steps(
    steps: List<u8>,
    explanation: &List<u8>,
    has_waiting: bool,
) -> Result<Answer, NoMemory>
    ensures lines { IfOk result (λ a. a.lines ≡ steps ++ explanation.now) }
    ensures status { IfOk result (λ a. number_of_status a.status ≡ (if has_waiting then 1 else 0)) }
{
    let mut lines = steps.into_vec();
    lines.extend_from_slice(explanation.as_slice())?;
    Ok(Answer {
        lines: List::from_vec(lines),
        status: status_of(has_waiting),
    })
}
