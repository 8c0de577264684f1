// How a call of a program ends.
ghost use Rattle.std.specs.Prelude.{◌≡◌, if◌then◌else◌};
ghost use Rattle.program_io.specs.calls.ExitNumbers.{number_of_status};

/// How a call of the program ends.
#[derive(Clone, Copy, Debug, PartialEq, Eq)]
pub enum ExitStatus {
    /// The whole output was written, and no task is dead or refused.
    NoDeadlock,
    /// The whole output was written, and a task is dead or refused.
    Deadlock,
    /// The words are no command.
    Usage,
    /// The input was refused.
    Refused,
    /// The source failed.
    ReadFailed,
    /// The sink failed.
    WriteFailed,
    /// Want of memory.
    OutOfMemory,
}

impl ExitStatus {
    /// The number with which the program ends, 0 to 6.
    pub fn code(self) -> u8
        ensures { result ≡ number_of_status self }
    {
        match self {
            ExitStatus::NoDeadlock => 0,
            ExitStatus::Deadlock => 1,
            ExitStatus::Usage => 2,
            ExitStatus::Refused => 3,
            ExitStatus::ReadFailed => 4,
            ExitStatus::WriteFailed => 5,
            ExitStatus::OutOfMemory => 6,
        }
    }
}

/// The status that tells whether a task is dead, or refused.
pub fn status_of(has_deadlock: bool) -> ExitStatus
    ensures { number_of_status result ≡ (if has_deadlock then 1 else 0) }
{
    if has_deadlock {
        ExitStatus::Deadlock
    } else {
        ExitStatus::NoDeadlock
    }
}
