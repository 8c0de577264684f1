// Writing through a port.
ghost use Rattle.std.specs.Prelude.{◌≡◌, ◌++◌, [], List, ℕ, OnOk, OnErr};
ghost use Rattle.armus_base.specs.calls.Causes.{HasCause};
ghost use Rattle.monitor.specs.Transfers.{AreWrites, PassesThrough, Transfer, bytes_written};

use crate::Port;
use armus_base::WriteFault;

/// Writes all of the text. WriteFault comes only where the count of failed writes rose in this call; then some first bytes of the text were taken.
pub(crate) fn write_all<P: Port>(port: &mut P, text: &[u8]) -> Result<(), WriteFault>
    ensures ok { OnOk result ((log : List Transfer) × PassesThrough (P.view port.old) (P.view port.new) log × AreWrites log × (bytes_written log ≡ text.now)) }
    ensures err { OnErr result ((log : List Transfer) × (left : List ℕ) × PassesThrough (P.view port.old) (P.view port.new) log × AreWrites log × (bytes_written log ++ left ≡ text.now)) }
    ensures cause { HasCause (P.write_faults port.old) (P.write_faults port.new) result }
    ensures other { P.read_faults port.new ≡ P.read_faults port.old }
{
    let mut at = 0;
    while at < text.len() {
        match port.write(&text[at..]) {
            Ok(count) => at += count,
            Err(_) => return Err(WriteFault),
        }
    }
    Ok(())
}

/// Writes what was called for, if anything was, and forgets it.
pub(crate) fn write_called<P: Port>(port: &mut P, out: &mut Vec<u8>) -> Result<(), WriteFault>
    ensures ok { OnOk result ((log : List Transfer) × PassesThrough (P.view port.old) (P.view port.new) log × AreWrites log × (bytes_written log ≡ out.old.items)) }
    ensures done { OnOk result (out.new.items ≡ []) }
    ensures err { OnErr result ((log : List Transfer) × (left : List ℕ) × PassesThrough (P.view port.old) (P.view port.new) log × AreWrites log × (bytes_written log ++ left ≡ out.old.items)) }
    ensures cause { HasCause (P.write_faults port.old) (P.write_faults port.new) result }
    ensures other { P.read_faults port.new ≡ P.read_faults port.old }
{
    if !out.is_empty() {
        write_all(port, out)?;
        out.clear();
    }
    Ok(())
}
