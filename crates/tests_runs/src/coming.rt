// A gate that tells which of two points is come to first.
use armus_base::{Gate, Point};
use std::sync::atomic::{AtomicBool, Ordering};

/// A gate that holds nobody, and notes whether somebody came to the second point before anybody came to the first.
#[derive(Drop)]
pub(crate) struct Coming {
    first: Point,
    second: Point,
    first_came: AtomicBool,
    second_came_first: AtomicBool,
}

impl Coming {
    /// Nobody has come.
    pub(crate) fn new(first: Point, second: Point) -> Coming {
        Coming {
            first,
            second,
            first_came: AtomicBool::new(false),
            second_came_first: AtomicBool::new(false),
        }
    }

    /// Whether somebody came to the second point first.
    pub(crate) fn second_came_first(&self) -> bool {
        self.second_came_first.load(Ordering::SeqCst)
    }
}

impl Gate for Coming {
    fn at(&self, point: Point) {
        if point == self.first {
            self.first_came.store(true, Ordering::SeqCst);
        }
        if point == self.second && !self.first_came.load(Ordering::SeqCst) {
            self.second_came_first.store(true, Ordering::SeqCst);
        }
    }
}
