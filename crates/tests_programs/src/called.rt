// At which points a call of the program calls its gate: an order is asked for where awaits are judged by one, and the rows of sites are checked where there are sites.
use crate::texts::{AMPLE, CROSSED, ended};
use armus_base::{Gate, NoMemory, Point, TaskId};
use std::alloc::Global;
use std::sync::Wait;
use std::sync::atomic::{AtomicBool, Ordering};
use std::test::Fail;
use std::thread::Threads;
use tests_rows::{bytes_of, columns, number};

// A row: the words of a call on the text of two tasks that wait for each other, and a point at which it calls the gate, or `never` and a point at which it does not.
const ROWS: &str = "\
avoid --kept --workers 1$$ordered 0\n\
avoid --kept --workers 1$$ordered 1\n\
avoid --kept --workers 2$$ordered 0\n\
avoid --kept --workers 2$$ordered 1\n\
avoid --workers 1$never$ordered 0\n\
avoid --workers 2$never$ordered 0\n\
avoid --workers 2$never$ordered 1\n\
run --workers 2$never$ordered 0\n\
run --sites 1$$rows 1\n\
run --sites 2 --workers 2$$rows 2\n\
run --sites 8 --workers 2$$rows 8\n\
run --sites 2 --workers 2$never$rows 1\n\
run --workers 2$never$rows 2\n\
run --live --workers 2$never$rows 2\n\
";

// A gate that notes whether this point is reached.
#[derive(Drop)]
struct Noting {
    point: Point,
    came: AtomicBool,
}

impl Gate for Noting {
    fn at(&self, point: Point) {
        if point == self.point {
            self.came.store(true, Ordering::SeqCst);
        }
    }
}

fn point(text: &str) -> Point {
    match text.split_once("rows ") {
        Some((_, sites)) => Point::Rows {
            sites: number(sites),
        },
        None => {
            let (_, t) = text.split_once("ordered ").unwrap_or(("", text));
            Point::Ordered {
                t: TaskId(number(t)),
            }
        }
    }
}

// Whether a call does as its row says.
fn is_called<R: Threads + Wait + Sync>(rt: &R, alloc: Global, row: &str) -> Result<bool, NoMemory> {
    let (words, never, text) = columns(row, "$");
    let gate = Noting {
        point: point(text),
        came: AtomicBool::new(false),
    };
    let _ended = ended(rt, alloc, words, bytes_of(alloc, CROSSED)?, AMPLE, &gate)?;
    Ok(gate.came.load(Ordering::SeqCst) == (never != "never"))
}

#[test]
fn options_reach_the_run(rt: HostRuntime) -> Result<(), Fail> {
    for row in ROWS.lines() {
        assert!(rt; is_called(&rt, rt.alloc(), row)?, "{row}");
    }
    Ok(())
}
