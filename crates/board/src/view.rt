// What a seat knows, as plain data that exists in proofs alone: no value of these types is made.
use crate::mode::Mode;
use crate::seen::Seen;
use armus_base::Plan;
use std::collections::LinkedList;
use std::marker::Model;

/// A place that a task has reached.
pub struct Reached {
    done: u64,
    dropped: Option<u64>,
}

impl Model for Reached {
    ghost use Rattle.armus_base.specs.Runs.{Place};

    ghost Value = { Place };

    ghost view = { λ r. record { done = r.done; dropped = r.dropped } };
}

/// What a seat has seen: for each task a place, which places are exact, how many tasks it has scanned, and what it found since it took the lock.
pub struct Sight {
    pub places: LinkedList<Reached>,
    pub exact: LinkedList<u32>,
    pub scanned: u64,
    pub found: LinkedList<(u32, Seen)>,
}

/// What a seat knows.
pub struct View {
    pub plan: Plan,
    pub mode: Mode,
    /// The task whose seat it is; None of a viewer.
    pub own: Option<u32>,
    pub sight: Sight,
    /// It has the lock.
    pub holds: bool,
    pub loads: u64,
    /// It was taken in.
    pub spent: bool,
}
