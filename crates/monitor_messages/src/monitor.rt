// The monitor: what is known behind the lines that came.
ghost use Rattle.std.specs.Prelude.{◌≡◌, ◌+◌, ◌++◌, ◌||◌, not, true, Bool, List, ℕ, Some, OnOk};
ghost use Rattle.monitor_laws.specs.Faults.{first_fault};
ghost use Rattle.monitor_words.specs.calls.FaultValues.{fault_of_line};
ghost use Rattle.monitor_words.specs.Faults.{fault_line};
ghost use Rattle.monitor_words.specs.Messages.{report_words};
ghost use Rattle.monitor_words.specs.Stops.{TellsStuck};
ghost use Rattle.trace_lines.specs.Values.{line_value};
ghost use Rattle.monitor_messages.specs.Runs.{IsHeard, IsNextRun, has_kept_waiting, run_begun};

use crate::known_state::KnownState;
use armus_base::NoMemory;
use monitor_words::{FaultOfLine, put_fault};
use std::alloc::Global;
use std::marker::Model;
use trace_lines::{TraceLine, read_line};

/// What is known behind the lines that came.
#[derive(Drop)]
pub struct Monitor {
    guards: bool,
    keeps_going: bool,
    known: KnownState,
    lines: u64,
    told: bool,
    faulty: bool,
    stopped: bool,
}

impl Model for Monitor {
    ghost use Rattle.monitor_messages.specs.Runs.{MonitorRun};

    ghost Value = { MonitorRun };

    ghost view = { λ m. record {
      options = record { guards = m.guards; keeps_going = m.keeps_going };
      state = m.known;
      lines = m.lines;
      told = m.told;
      faulty = m.faulty;
      stopped = m.stopped;
    } };
}

impl Monitor {
    /// Before the first line: whether waits are refused by which their task would be stuck, and whether lines at fault are passed over.
    pub fn new(alloc: Global, guards: bool, keeps_going: bool) -> Monitor
        ensures { result ≡ run_begun (record { guards = guards; keeps_going = keeps_going }) }
    {
        Monitor {
            guards,
            keeps_going,
            known: KnownState::new(alloc),
            lines: 0,
            told: false,
            faulty: false,
            stopped: false,
        }
    }

    /// Whether a line at fault has stopped the monitor.
    pub fn is_stopped(&self) -> bool
        ensures { result ≡ self.now.stopped }
    {
        self.stopped
    }

    /// Whether a line was at fault.
    pub fn is_faulty(&self) -> bool
        ensures { result ≡ self.now.faulty }
    {
        self.faulty
    }

    /// Whether somebody was told or refused, or is kept waiting.
    pub fn has_told_or_kept(&self) -> bool
        ensures { result ≡ (self.now.told || has_kept_waiting self.now.state) }
    {
        self.told || self.known.has_kept_waiting()
    }

    // Appends the message on a fault of the line with this number; the line is passed over, or stops the monitor.
    fn hear_fault(
        &mut self,
        alloc: Global,
        out: &mut Vec<u8>,
        number: u64,
        fault: FaultOfLine,
    ) -> Result<(), NoMemory>
        requires { number ≡ self.old.lines + 1 }
        ensures run { OnOk result (self.new ≡ record self.old { lines = number; faulty = true; stopped = not self.old.options.keeps_going }) }
        ensures message { OnOk result (out.new.items ≡ out.old.items ++ fault_line number (fault_of_line fault.entry)) }
    {
        put_fault(alloc, out, number, fault)?;
        self.lines = number;
        self.faulty = true;
        self.stopped = !self.keeps_going;
        Ok(())
    }

    // Hears the line with this number, which says something.
    fn hear_trace_line(
        &mut self,
        alloc: Global,
        out: &mut Vec<u8>,
        number: u64,
        line: &TraceLine,
    ) -> Result<(), NoMemory>
        requires { number ≡ self.old.lines + 1 }
        ensures { OnOk result ((message : List ℕ) × (out.new.items ≡ out.old.items ++ message) × IsHeard self.old (Some (line_value line.now)) (first_fault self.old.state (Some (line_value line.now))) self.new message) }
    {
        match self.known.take(alloc, out, self.guards, line)? {
            Err(fault) => self.hear_fault(alloc, out, number, fault),
            Ok(told) => {
                self.lines = number;
                self.told = self.told || told;
                Ok(())
            }
        }
    }

    /// Hears one more line, its LF left out, and appends the message that it calls for. NoMemory comes also behind 2^64 - 1 lines; then, and where memory is
    /// wanting, nothing is said of what is known.
    pub fn hear_line(
        &mut self,
        alloc: Global,
        out: &mut Vec<u8>,
        bytes: &[u8],
    ) -> Result<(), NoMemory>
        ensures { OnOk result ((message : List ℕ) × (out.new.items ≡ out.old.items ++ message) × IsNextRun self.old bytes.now self.new message) }
    {
        if self.stopped {
            return Ok(());
        }
        let number = self.lines.checked_add(1).ok_or(NoMemory)?;
        match read_line(bytes) {
            None => self.hear_fault(alloc, out, number, FaultOfLine::Malformed),
            Some(line) => self.hear_trace_line(alloc, out, number, &line),
        }
    }

    /// Appends the report of the state.
    pub fn put_report(&self, alloc: Global, out: &mut Vec<u8>) -> Result<(), NoMemory>
        ensures { OnOk result ((stuck : ℕ → Bool) × TellsStuck self.now.state stuck × (out.new.items ≡ out.old.items ++ report_words self.now.state stuck)) }
    {
        self.known.put_report(alloc, out)
    }
}
