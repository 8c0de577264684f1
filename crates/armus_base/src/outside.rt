// What the program is handed: where it reads, where it writes, and a gate that holds its tasks in tests.
ghost use Rattle.std.specs.Prelude.{List, ℕ};
ghost use Rattle.std.specs.Io.{ReadsAtMost};
ghost use Rattle.std.specs.Io.KnownBytes.{ReadConsumes, WriteAppends};
ghost use Rattle.std.specs.declared.option.Option.{Option};
ghost use Rattle.armus_base.specs.calls.Causes.{HasCause};
ghost use Rattle.armus_base.specs.calls.Outside.{TakesSome};

use crate::{Failed, TaskId};

/// A point of a run at which the program calls the gate. That it does so is tested and not proved.
#[derive(Clone, Copy, Debug, PartialEq, Eq)]
pub enum Point {
    /// Before op `k` of the code of task `t`.
    Op { t: TaskId, k: u32 },
    /// After the lines of a verdict were written; `count` tasks are named so far.
    Named { count: u32 },
    /// Before an await of task `t` is judged, where awaits are judged by an order of the tasks that is kept.
    Ordered { t: TaskId },
    /// Before the rows that so many sites store are checked for the last time.
    Rows { sites: u32 },
}

/// Where the program reads. It tells the bytes left, or not, and counts its faults.
pub trait Source {
    /// The bytes that reads will give from here on, where the source tells them.
    ghost left: { Self → Option (List ℕ) };

    /// How often it has failed, up to 2^64 - 1.
    ghost faults: { Self → ℕ };

    /// Reads some bytes into the front of the buffer, and answers how many: for a buffer that is not empty 0 says that the input has ended. Failed
    /// comes exactly where the count of faults rises, by one, and then the bytes left are as before.
    fn read(&mut self, buf: &mut [u8]) -> Result<usize, Failed>
        ensures bound { ReadsAtMost result buf.new }
        ensures bytes { ReadConsumes (left self.old) (left self.new) result buf.new }
        ensures cause { HasCause (faults self.old) (faults self.new) result };
}

/// Where the program writes. It tells the bytes taken, or not, and counts its faults.
pub trait Sink: Send {
    /// The bytes that it has taken, where the sink tells them.
    ghost taken: { Self → Option (List ℕ) };

    /// How often it has failed, up to 2^64 - 1.
    ghost faults: { Self → ℕ };

    /// Takes some first bytes of the piece, and answers how many: at least 1 where the piece is not empty. Failed comes exactly where the count of
    /// faults rises, by one, and then nothing is taken.
    fn write(&mut self, piece: &[u8]) -> Result<usize, Failed>
        ensures bound { TakesSome result piece.now }
        ensures bytes { WriteAppends (taken self.old) (taken self.new) result piece.now }
        ensures cause { HasCause (faults self.old) (faults self.new) result };
}

/// A gate at which the tasks of a run pass: a test may hold them there. No contract of the product depends on what it does.
pub trait Gate: Sync {
    /// Passes the point. A run calls it before each op of each task.
    fn at(&self, point: Point);
}

/// The gate that does nothing.
#[derive(Clone, Copy, Debug)]
pub struct Still;

impl Gate for Still {
    fn at(&self, _point: Point) {}
}
