// The end of a trace.
ghost use Rattle.std.specs.Prelude.{◌≡◌, ◌≢◌, ◌<◌, [], List};
ghost use Rattle.monitor_messages.specs.Runs.{ended_status};
ghost use Rattle.monitor.specs.Transfers.{AreWrites, PassesThrough, Transfer, bytes_written};
ghost use Rattle.monitor.specs.MonitorCalls.{HasFaultAt};
ghost use Rattle.monitor.specs.calls.StatusNumbers.{number_of_monitor_status};
ghost use Rattle.monitor.specs.inside.Ending.{EndsReport, EndsTrace};

use crate::Port;
use crate::listener::Listener;
use crate::monitor_status::MonitorStatus;
use crate::writing::{write_all, write_called};
use armus_base::{NoMemory, WriteFault};
use monitor_messages::Monitor;
use std::alloc::Global;

// The status behind the last line, where none stopped the monitor.
fn ended_status(monitor: &Monitor) -> MonitorStatus
    ensures ended { number_of_monitor_status result ≡ ended_status monitor.now }
    ensures sound { number_of_monitor_status result < 4 }
{
    if monitor.has_told_or_kept() {
        return MonitorStatus::SomebodyWaits;
    }
    if monitor.is_faulty() {
        return MonitorStatus::LineAtFault;
    }
    MonitorStatus::NobodyWaits
}

// Writes the report of the state, and answers the status.
fn end_with_report<P: Port>(
    alloc: Global,
    port: &mut P,
    monitor: &Monitor,
    out: &mut Vec<u8>,
) -> MonitorStatus
    requires out { out.old.items ≡ [] }
    ensures ends { (log : List Transfer) × PassesThrough (P.view port.old) (P.view port.new) log × AreWrites log × EndsReport monitor.now (bytes_written log) (number_of_monitor_status result) }
    ensures reading { (P.read_faults port.new ≡ P.read_faults port.old) × (number_of_monitor_status result ≢ 4) }
    ensures writing { HasFaultAt 5 (P.write_faults port.old) (P.write_faults port.new) (number_of_monitor_status result) }
{
    if monitor.put_report(alloc, out).is_err() {
        return MonitorStatus::OutOfMemory;
    }
    match write_all(port, out) {
        Ok(()) => ended_status(monitor),
        Err(_) => MonitorStatus::WriteFailed,
    }
}

/// Writes what the end of the trace calls for: the message of a last line that no LF ends, and the report, where no line at fault has stopped the monitor.
pub(crate) fn end_trace<P: Port>(
    alloc: Global,
    port: &mut P,
    listener: &mut Listener,
    out: &mut Vec<u8>,
) -> MonitorStatus
    requires out { out.old.items ≡ [] }
    ensures ends { (log : List Transfer) × PassesThrough (P.view port.old) (P.view port.new) log × AreWrites log × EndsTrace listener.old (bytes_written log) (number_of_monitor_status result) }
    ensures reading { (P.read_faults port.new ≡ P.read_faults port.old) × (number_of_monitor_status result ≢ 4) }
    ensures writing { HasFaultAt 5 (P.write_faults port.old) (P.write_faults port.new) (number_of_monitor_status result) }
{
    if let Err(NoMemory) = listener.hear_end(alloc, out) {
        return MonitorStatus::OutOfMemory;
    }
    if let Err(WriteFault) = write_called(port, out) {
        return MonitorStatus::WriteFailed;
    }
    if listener.monitor().is_stopped() {
        return MonitorStatus::LineAtFault;
    }
    end_with_report(alloc, port, listener.monitor(), out)
}
