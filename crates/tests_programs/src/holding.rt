// A gate that holds tasks until others have come to a point of the run.
use armus_base::{Gate, Point};
use std::sync::atomic::{AtomicBool, Ordering};
use std::thread::yield_now;

// How often a held task looks before it gives up.
const MAX_LOOKS: u32 = 200_000_000;

// Who comes to one point waits there until somebody has come to the other.
#[derive(Drop)]
struct Hold {
    held: Point,
    until: Point,
    came: AtomicBool,
}

impl Hold {
    fn new(points: (Point, Point)) -> Hold {
        Hold {
            held: points.0,
            until: points.1,
            came: AtomicBool::new(false),
        }
    }

    // Whether somebody came to the other point, before the looks are spent.
    fn has_come(&self) -> bool {
        for _ in 0..MAX_LOOKS {
            if self.came.load(Ordering::SeqCst) {
                return true;
            }
            yield_now();
        }
        false
    }
}

/// A gate that holds who comes to one of its points.
#[derive(Drop)]
pub struct Holding {
    first: Hold,
    second: Hold,
    gave_up: AtomicBool,
}

impl Holding {
    /// A gate that holds at two points, at each until another one is reached.
    pub fn new(first: (Point, Point), second: (Point, Point)) -> Holding {
        Holding {
            first: Hold::new(first),
            second: Hold::new(second),
            gave_up: AtomicBool::new(false),
        }
    }

    /// Whether somebody waited in vain.
    pub fn gave_up(&self) -> bool {
        self.gave_up.load(Ordering::SeqCst)
    }

    // Notes that this point is reached, and waits where it is held.
    fn pass(&self, hold: &Hold, point: Point) {
        if point == hold.until {
            hold.came.store(true, Ordering::SeqCst);
        }
        if point == hold.held && !hold.has_come() {
            self.gave_up.store(true, Ordering::SeqCst);
        }
    }
}

impl Gate for Holding {
    fn at(&self, point: Point) {
        if point == self.second.until {
            self.second.came.store(true, Ordering::SeqCst);
        }
        self.pass(&self.first, point);
        self.pass(&self.second, point);
    }
}
