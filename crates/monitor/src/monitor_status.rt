// How a call of the monitor ends.
ghost use Rattle.std.specs.Prelude.{◌≡◌};
ghost use Rattle.monitor.specs.calls.StatusNumbers.{number_of_monitor_status};

/// How a call of the monitor ends.
#[derive(Clone, Copy, Debug, PartialEq, Eq)]
pub(crate) enum MonitorStatus {
    /// The trace was read to its end, nobody is kept waiting, and nobody was told or refused.
    NobodyWaits,
    /// The trace was read to its end, and somebody is kept waiting, or was told or refused.
    SomebodyWaits,
    /// The words are no command.
    NoCommand,
    /// A line was at fault.
    LineAtFault,
    /// Reading failed.
    ReadFailed,
    /// Writing failed.
    WriteFailed,
    /// Want of memory.
    OutOfMemory,
}

impl MonitorStatus {
    /// The number with which the program ends, 0 to 6.
    pub(crate) fn code(self) -> u8
        ensures { result ≡ number_of_monitor_status self }
    {
        match self {
            MonitorStatus::NobodyWaits => 0,
            MonitorStatus::SomebodyWaits => 1,
            MonitorStatus::NoCommand => 2,
            MonitorStatus::LineAtFault => 3,
            MonitorStatus::ReadFailed => 4,
            MonitorStatus::WriteFailed => 5,
            MonitorStatus::OutOfMemory => 6,
        }
    }
}
