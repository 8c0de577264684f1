// Hearing what was read, and writing what it calls for.
ghost use Rattle.std.specs.Prelude.{◌≡◌, ◌∷◌, ◌++◌, [], List, ℕ, IfErr, OnOk};
ghost use Rattle.monitor.specs.Transfers.{AreWrites, PassesThrough, Transfer, bytes_written};
ghost use Rattle.monitor.specs.inside.Listening.{HasHearCause, HearsBytes, StopsHearing};

use crate::Port;
use crate::listener::Listener;
use crate::writing::write_called;
use armus_base::{NoMemory, WriteFault};
use std::alloc::Global;

/// Why what was read was not heard to its end.
#[derive(Clone, Copy, Debug, PartialEq, Eq)]
pub(crate) enum HearFault {
    /// Memory was wanting.
    NoMemory,
    /// Writing failed.
    WriteFailed,
}

/// Hears the bytes, and writes the message of each line before the next is heard.
pub(crate) fn hear_piece<P: Port>(
    alloc: Global,
    port: &mut P,
    listener: &mut Listener,
    out: &mut Vec<u8>,
    piece: &[u8],
) -> Result<(), HearFault>
    requires out { out.old.items ≡ [] }
    ensures heard { OnOk result ((log : List Transfer) × PassesThrough (P.view port.old) (P.view port.new) log × AreWrites log × HearsBytes listener.old piece.now (bytes_written log) listener.new) }
    ensures done { OnOk result (out.new.items ≡ []) }
    ensures err { IfErr result (λ e. (log : List Transfer) × (left : List ℕ) × PassesThrough (P.view port.old) (P.view port.new) log × AreWrites log × StopsHearing listener.old piece.now log left × (e ≡ HearFault.NoMemory → left ≡ [])) }
    ensures fine { OnOk result (P.write_faults port.new ≡ P.write_faults port.old) }
    ensures cause { IfErr result (λ e. HasHearCause e (P.write_faults port.old) (P.write_faults port.new)) }
    ensures other { P.read_faults port.new ≡ P.read_faults port.old }
{
    let mut at = 0;
    while at < piece.len() {
        match listener.hear_quiet(&piece[at..]) {
            Err(NoMemory) => return Err(HearFault::NoMemory),
            Ok(count) => at += count,
        }
        if at == piece.len() {
            return Ok(());
        }
        if let Err(NoMemory) = listener.hear_byte(alloc, out, piece[at]) {
            return Err(HearFault::NoMemory);
        }
        if let Err(WriteFault) = write_called(port, out) {
            return Err(HearFault::WriteFailed);
        }
        at += 1;
    }
    Ok(())
}
