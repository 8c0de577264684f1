// The top call.
ghost use Rattle.std.specs.Prelude.{◌≡◌, ◌≢◌, ◌<◌, [], List, ℕ, map, string_bytes};
ghost use Rattle.monitor_messages.specs.Runs.{MonitorOptions};
ghost use Rattle.monitor.specs.MonitorCalls.{EndsAsked, EndsMonitored, EndsTold, HasFaultAt, IsPrompt, IsReadWhole, HasNothingLeft, SaysEnd};
ghost use Rattle.monitor.specs.MonitorRequests.{monitor_asked};
ghost use Rattle.monitor.specs.Transfers.{PassesThrough, Transfer};
ghost use Rattle.monitor.specs.calls.Requested.{monitor_requested};
ghost use Rattle.monitor.specs.calls.StatusNumbers.{number_of_monitor_status};
ghost use Rattle.monitor.specs.inside.Ending.{HasListened};
ghost use Rattle.monitor.specs.inside.Listening.{number_of_hear_fault};

use crate::Port;
use crate::ending::end_trace;
use crate::hearing::{HearFault, hear_piece};
use crate::listener::Listener;
use crate::monitor_status::MonitorStatus;
use crate::request::{MonitorRequest, monitor_request_of};
use crate::writing::write_all;
use std::alloc::Global;

// How many bytes one read asks for at most.
const PIECE: usize = 4096;

const USAGE: &str = "usage: armus_monitor [--guard] [--keep-going] [FILE]\n";

const VERSION: &str = "armus_monitor 2.0.0\n";

const HELP: &str = "\
usage: armus_monitor [--guard] [--keep-going] [FILE]
Reads what the tasks of a running program announce, a line for each event, from
FILE, or from standard input where there is none, and tells at once who is stuck
for ever, and why, while the others go on. At the end it writes who waits for whom.
With --guard it answers each wait with wait or refuse, so that no wait makes anybody
stuck. With --keep-going it tells a line at fault and passes it over.
Status: 0 nobody is kept waiting at the end, and nobody was told or refused before,
1 somebody is or was, 2 other words, 3 a line was at fault, 4 it cannot be read,
5 it cannot be written, 6 no memory.
";

// The status where what was read was not heard to its end.
fn status_of_fault(fault: HearFault) -> MonitorStatus
    ensures { number_of_monitor_status result ≡ number_of_hear_fault fault }
{
    match fault {
        HearFault::NoMemory => MonitorStatus::OutOfMemory,
        HearFault::WriteFailed => MonitorStatus::WriteFailed,
    }
}

// Reads the trace piece by piece, and writes what each piece calls for before the next is read.
fn listen<P: Port>(
    alloc: Global,
    port: &mut P,
    listener: &mut Listener,
    out: &mut Vec<u8>,
) -> MonitorStatus
    requires out { out.old.items ≡ [] }
    ensures ends { (log : List Transfer) × PassesThrough (P.view port.old) (P.view port.new) log
        × ((options : MonitorOptions) → HasListened options [] listener.old → IsPrompt options log × EndsMonitored options log (number_of_monitor_status result)) }
    ensures whole { (options : MonitorOptions) → HasListened options [] listener.old → SaysEnd options (number_of_monitor_status result) → HasNothingLeft (P.view port.old).left (P.view port.new).left }
    ensures reading { HasFaultAt 4 (P.read_faults port.old) (P.read_faults port.new) (number_of_monitor_status result) }
    ensures writing { HasFaultAt 5 (P.write_faults port.old) (P.write_faults port.new) (number_of_monitor_status result) }
{
    let mut piece = [0u8; PIECE];
    for _ in 0..u64::MAX {
        match port.read(&mut piece) {
            Err(_) => return MonitorStatus::ReadFailed,
            Ok(0) => return end_trace(alloc, port, listener, out),
            Ok(count) => {
                if let Err(fault) = hear_piece(alloc, port, listener, out, &piece[..count]) {
                    return status_of_fault(fault);
                }
                if listener.monitor().is_stopped() {
                    return MonitorStatus::LineAtFault;
                }
            }
        }
    }
    MonitorStatus::OutOfMemory
}

// Monitors the trace that comes through the port.
fn monitor_trace<P: Port>(
    alloc: Global,
    guards: bool,
    keeps_going: bool,
    port: &mut P,
) -> MonitorStatus
    ensures ends { (log : List Transfer) × PassesThrough (P.view port.old) (P.view port.new) log × IsPrompt (record { guards = guards; keeps_going = keeps_going }) log
        × EndsMonitored (record { guards = guards; keeps_going = keeps_going }) log (number_of_monitor_status result) }
    ensures whole { SaysEnd (record { guards = guards; keeps_going = keeps_going }) (number_of_monitor_status result) → HasNothingLeft (P.view port.old).left (P.view port.new).left }
    ensures reading { HasFaultAt 4 (P.read_faults port.old) (P.read_faults port.new) (number_of_monitor_status result) }
    ensures writing { HasFaultAt 5 (P.write_faults port.old) (P.write_faults port.new) (number_of_monitor_status result) }
{
    let mut listener = Listener::new(alloc, guards, keeps_going);
    let mut out = Vec::new(alloc);
    listen(alloc, port, &mut listener, &mut out)
}

// Writes these words, and answers the status.
fn tell<P: Port>(port: &mut P, words: &str, status: MonitorStatus) -> MonitorStatus
    ensures ends { (log : List Transfer) × PassesThrough (P.view port.old) (P.view port.new) log × EndsTold words.now (number_of_monitor_status status) log (number_of_monitor_status result) }
    ensures reading { P.read_faults port.new ≡ P.read_faults port.old }
    ensures writing { (number_of_monitor_status status < 3) → HasFaultAt 5 (P.write_faults port.old) (P.write_faults port.new) (number_of_monitor_status result) }
    ensures sound { (number_of_monitor_status status < 3) → number_of_monitor_status result ≢ 4 }
{
    match write_all(port, words.as_bytes()) {
        Ok(()) => status,
        Err(_) => MonitorStatus::WriteFailed,
    }
}

// Does what the request asks for.
fn answer_request<P: Port>(alloc: Global, request: &MonitorRequest, port: &mut P) -> MonitorStatus
    ensures ends { (log : List Transfer) × PassesThrough (P.view port.old) (P.view port.new) log × EndsAsked (monitor_requested request.now) log (number_of_monitor_status result) }
    ensures whole { IsReadWhole (monitor_requested request.now) (number_of_monitor_status result) (P.view port.old).left (P.view port.new).left }
    ensures reading { HasFaultAt 4 (P.read_faults port.old) (P.read_faults port.new) (number_of_monitor_status result) }
    ensures writing { HasFaultAt 5 (P.write_faults port.old) (P.write_faults port.new) (number_of_monitor_status result) }
{
    match request {
        MonitorRequest::Trace(guards, keeps_going, _) => {
            monitor_trace(alloc, *guards, *keeps_going, port)
        }
        MonitorRequest::Help => tell(port, HELP, MonitorStatus::NobodyWaits),
        MonitorRequest::Version => tell(port, VERSION, MonitorStatus::NobodyWaits),
        MonitorRequest::Usage => tell(port, USAGE, MonitorStatus::NoCommand),
    }
}

/// The monitor.
///
/// Where the words ask for it, it reads the trace of a running program from the port, which leads to the file that the words name or else to standard input,
/// and writes to the port what each line calls for, before it reads on. At the end of the trace it writes the report, and answers 0 where nobody is kept waiting
/// and nobody was told or refused, and 1 where somebody is or was. A line at fault ends it with 3, after the message on it; with `--keep-going` it is told and
/// passed over, and 3 comes at the end in place of 0. It writes the lines of help or of the version and answers 0, where the words ask for them, and for all
/// other words the line of usage, and answers 2; nothing is read then. It answers 4 and 5 where reading or writing failed, and 6 for want of memory. Where it
/// answers 0 or 1 to a trace, or 3 with `--keep-going`, nothing of the trace is left to be read.
pub fn monitor<P: Port>(alloc: Global, words: &[String], port: &mut P) -> u8
    ensures call { (log : List Transfer) × PassesThrough (P.view port.old) (P.view port.new) log × EndsAsked (monitor_asked (map string_bytes words.now)) log result }
    ensures whole { IsReadWhole (monitor_asked (map string_bytes words.now)) result (P.view port.old).left (P.view port.new).left }
    ensures reading { HasFaultAt 4 (P.read_faults port.old) (P.read_faults port.new) result }
    ensures writing { HasFaultAt 5 (P.write_faults port.old) (P.write_faults port.new) result }
{
    answer_request(alloc, &monitor_request_of(words), port).code()
}
