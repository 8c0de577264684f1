// A gate at which two tasks meet.
use armus_base::{Gate, Point};
use std::sync::atomic::{AtomicBool, Ordering};
use std::thread::yield_now;

/// How often a task looks for another at the gate before it gives up.
pub(crate) const MAX_LOOKS: u32 = 200_000_000;

/// A gate that holds who comes to one of two points until somebody has come to the other one.
#[derive(Drop)]
pub(crate) struct Meeting {
    first: Point,
    second: Point,
    looks: u32,
    first_came: AtomicBool,
    second_came: AtomicBool,
    gave_up: AtomicBool,
}

impl Meeting {
    /// A gate that holds at these two points, each for so many looks at most.
    pub(crate) fn between(first: Point, second: Point, looks: u32) -> Meeting {
        Meeting {
            first,
            second,
            looks,
            first_came: AtomicBool::new(false),
            second_came: AtomicBool::new(false),
            gave_up: AtomicBool::new(false),
        }
    }

    /// Whether a task has given up.
    pub(crate) fn gave_up(&self) -> bool {
        self.gave_up.load(Ordering::SeqCst)
    }

    fn wait_for(&self, other: &AtomicBool) {
        for _ in 0..self.looks {
            if other.load(Ordering::SeqCst) {
                return;
            }
            yield_now();
        }
        self.gave_up.store(true, Ordering::SeqCst);
    }
}

impl Gate for Meeting {
    fn at(&self, point: Point) {
        if point == self.first {
            self.first_came.store(true, Ordering::SeqCst);
            self.wait_for(&self.second_came);
        }
        if point == self.second {
            self.second_came.store(true, Ordering::SeqCst);
            self.wait_for(&self.first_came);
        }
    }
}
