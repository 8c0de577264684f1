// A listener: what is known behind the bytes that came, and the line that is not whole yet.
ghost use Rattle.std.specs.Prelude.{◌≡◌, ◌≤◌, ◌∷◌, [], ◌++◌, List, ℕ, IfOk, OnOk, false, length, take};
ghost use Rattle.monitor_messages.specs.Runs.{MonitorOptions, run_begun};
ghost use Rattle.monitor.specs.HeardLines.{HasHeardAll, has_line_end};
ghost use Rattle.monitor.specs.inside.Listening.{HearsBytes, IsListening};

use armus_base::NoMemory;
use monitor_messages::Monitor;
use std::alloc::Global;
use std::marker::Model;

// How many bytes of a line are kept: one more than a line has at most, so that one that is too long is known.
const KEPT_BYTES: usize = 512;

/// What is known behind the bytes that came, and the first bytes of the line that is not whole yet, 512 at most.
#[derive(Drop)]
pub(crate) struct Listener {
    monitor: Monitor,
    line: Vec<u8>,
}

impl Model for Listener {
    ghost use Rattle.monitor.specs.inside.Listening.{Heard};

    ghost Value = { Heard };

    ghost view = { λ l. record { run = l.monitor; line = l.line.items } };
}

// How many of these bytes stand in front of their first LF, as far as there is room for them.
fn quiet_count(bytes: &[u8], room: usize) -> usize
    ensures room { result ≤ room }
    ensures within { result ≤ length bytes.now }
    ensures quiet { has_line_end (take result bytes.now) ≡ false }
{
    for (count, byte) in bytes.iter().enumerate() {
        if count == room {
            return count;
        }
        if *byte == b'\n' {
            return count;
        }
    }
    bytes.len()
}

impl Listener {
    /// Before the first byte.
    pub(crate) fn new(alloc: Global, guards: bool, keeps_going: bool) -> Listener
        ensures { result ≡ record { run = run_begun (record { guards = guards; keeps_going = keeps_going }); line = [] } }
    {
        Listener {
            monitor: Monitor::new(alloc, guards, keeps_going),
            line: Vec::new(alloc),
        }
    }

    /// What is known.
    pub(crate) fn monitor(&self) -> &Monitor
        ensures { result.now ≡ self.now.run }
    {
        &self.monitor
    }

    /// Hears first bytes of these that call for nothing, and answers how many: at most those in front of the first LF.
    pub(crate) fn hear_quiet(&mut self, bytes: &[u8]) -> Result<usize, NoMemory>
        ensures within { IfOk result (λ count. count ≤ length bytes.now) }
        ensures heard { IfOk result (λ count. HearsBytes self.old (take count bytes.now) [] self.new) }
    {
        let room = (KEPT_BYTES - 1).saturating_sub(self.line.len());
        let count = quiet_count(bytes, room);
        self.line.extend_from_slice(&bytes[..count])?;
        Ok(count)
    }

    // Hears the end of a line; one that is too long was heard before.
    fn hear_line_end(&mut self, alloc: Global, out: &mut Vec<u8>) -> Result<(), NoMemory>
        ensures { OnOk result ((message : List ℕ) × (out.new.items ≡ out.old.items ++ message) × HearsBytes self.old (10 ∷ []) message self.new) }
    {
        if self.line.len() < KEPT_BYTES {
            self.monitor.hear_line(alloc, out, &self.line)?;
        }
        self.line.clear();
        Ok(())
    }

    /// Hears one more byte, and appends the message that it calls for.
    pub(crate) fn hear_byte(
        &mut self,
        alloc: Global,
        out: &mut Vec<u8>,
        byte: u8,
    ) -> Result<(), NoMemory>
        ensures { OnOk result ((message : List ℕ) × (out.new.items ≡ out.old.items ++ message) × HearsBytes self.old (byte ∷ []) message self.new) }
    {
        if byte == b'\n' {
            return self.hear_line_end(alloc, out);
        }
        if self.line.len() < KEPT_BYTES {
            self.line.push(byte)?;
            if self.line.len() == KEPT_BYTES {
                self.monitor.hear_line(alloc, out, &self.line)?;
            }
        }
        Ok(())
    }

    /// Hears the end of the trace: what stands behind the last LF is a line where it is not empty; one that is too long was heard before.
    pub(crate) fn hear_end(&mut self, alloc: Global, out: &mut Vec<u8>) -> Result<(), NoMemory>
        ensures { OnOk result ((message : List ℕ) × (out.new.items ≡ out.old.items ++ message) ×
            ((options : MonitorOptions) (bytes output : List ℕ) → IsListening options bytes output self.old → HasHeardAll options bytes self.new.run (output ++ message))) }
    {
        if !self.line.is_empty() && self.line.len() < KEPT_BYTES {
            self.monitor.hear_line(alloc, out, &self.line)?;
        }
        Ok(())
    }
}
