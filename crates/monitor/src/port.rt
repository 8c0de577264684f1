// Where the monitor reads and writes: one object for both directions.
ghost use Rattle.std.specs.Prelude.{ℕ, ◌≡◌, ◌<◌, length, None, IfOk};
ghost use Rattle.std.specs.Io.{ReadsAtMost};
ghost use Rattle.std.specs.Io.KnownBytes.{IsAtEnd};
ghost use Rattle.armus_base.specs.calls.Causes.{HasCause};
ghost use Rattle.armus_base.specs.calls.Outside.{TakesSome};
ghost use Rattle.monitor.specs.Transfers.{PassesRead, PassesWrite, PortView};

use armus_base::Failed;
use std::io::{Read, Write};

/// Where the monitor reads and writes. It tells what was read and written, in the order in which it was, or not, and counts its faults.
pub trait Port {
    /// What was read and written so far, the last first, the bytes that are left to be read, and those that were taken: each where the port tells it.
    ghost view: { Self → PortView };

    /// How often a read has failed, up to 2^64 - 1.
    ghost read_faults: { Self → ℕ };

    /// How often a write has failed, up to 2^64 - 1.
    ghost write_faults: { Self → ℕ };

    /// Reads some bytes into the front of the buffer, and answers how many: 0 says that the trace has ended, so that nothing is left. Failed comes exactly
    /// where the count of failed reads rises, by one.
    fn read(&mut self, buf: &mut [u8]) -> Result<usize, Failed>
        requires room { 0 < length buf.old }
        ensures bound { ReadsAtMost result buf.new }
        ensures passes { PassesRead (view self.old) (view self.new) result buf.new }
        ensures end { IfOk result (λ n. n ≡ 0 → IsAtEnd (view self.new).left) }
        ensures cause { HasCause (read_faults self.old) (read_faults self.new) result }
        ensures other { write_faults self.new ≡ write_faults self.old };

    /// Takes some first bytes of the piece, and answers how many, at least 1. Failed comes exactly where the count of failed writes rises, by one, and then
    /// nothing is taken.
    fn write(&mut self, piece: &[u8]) -> Result<usize, Failed>
        requires some { 0 < length piece.now }
        ensures bound { TakesSome result piece.now }
        ensures passes { PassesWrite (view self.old) (view self.new) result piece.now }
        ensures cause { HasCause (write_faults self.old) (write_faults self.new) result }
        ensures other { read_faults self.new ≡ read_faults self.old };
}

/// A port over a std reader and a std writer. It counts each `Err` of the reader as a failed read, and each `Err` of the writer, and each 0 that it answers to
/// a piece, as a failed write. It tells the bytes that the reader has left and those that the writer holds, where these tell them, and no list of both. What a file, a
/// pipe or a terminal gives, and what becomes of the bytes that it takes, is not claimed.
#[derive(Drop)]
pub struct StdPort<R: Read, W: Write> {
    reader: R,
    writer: W,
    read_faults: u64,
    write_faults: u64,
}

impl<R: Read, W: Write> StdPort<R, W> {
    /// A port over these, with no fault counted.
    pub fn new(reader: R, writer: W) -> StdPort<R, W>
        ensures left { (⟦<StdPort<R, W> as Port>⟧.view result).left ≡ R.remaining reader }
        ensures taken { (⟦<StdPort<R, W> as Port>⟧.view result).taken ≡ W.contents writer }
        ensures reads { ⟦<StdPort<R, W> as Port>⟧.read_faults result ≡ 0 }
        ensures writes { ⟦<StdPort<R, W> as Port>⟧.write_faults result ≡ 0 }
    {
        StdPort {
            reader,
            writer,
            read_faults: 0,
            write_faults: 0,
        }
    }
}

impl<R: Read, W: Write> Port for StdPort<R, W> {
    ghost view = { λ p. record { log = None; left = R.remaining p.reader; taken = W.contents p.writer } };

    ghost read_faults = { λ p. p.read_faults };

    ghost write_faults = { λ p. p.write_faults };

    fn read(&mut self, buf: &mut [u8]) -> Result<usize, Failed> {
        match self.reader.read(buf) {
            Ok(count) => Ok(count),
            Err(_) => {
                self.read_faults = self.read_faults.saturating_add(1);
                Err(Failed)
            }
        }
    }

    fn write(&mut self, piece: &[u8]) -> Result<usize, Failed> {
        match self.writer.write(piece) {
            Ok(count) => {
                if count == 0 {
                    self.write_faults = self.write_faults.saturating_add(1);
                    return Err(Failed);
                }
                Ok(count)
            }
            Err(_) => {
                self.write_faults = self.write_faults.saturating_add(1);
                Err(Failed)
            }
        }
    }
}
