// The program with tasks that a gate holds: each row ends only where others go on meanwhile.
use crate::holding::Holding;
use crate::texts::{AMPLE, ended};
use armus_base::{NoMemory, Point, TaskId};
use std::alloc::Global;
use std::sync::Wait;
use std::test::Fail;
use std::thread::Threads;
use tests_rows::{bytes_of, columns, cut, number};

// A row: the words of its calls; the points at which it holds, each until another one is reached; the text; the outputs that may come; the status. A point is
// an op of a task, as 1.0, or the moment at which the detector has named so many tasks.
//
// Two makers are each held until the other one acts: a run that makes its workers' turns one after another waits in vain. An await is passed while another
// task is held: awaits are not left to the end of the run. Dead tasks are named while another task is held, and a look of the detector stands beside a turn:
// each is held until the other has come. A task passes its await by what a task has stored that is held: two runs that share nothing wait in vain. An await is
// decided while another task is published. Two makers are held until a third one acts: two threads, where three are wanted, wait in vain. And a pool goes on
// with a child while the task that forked it is held, which no round does.
const ROWS: &str = "\
run --workers 2,run --live --workers 2,run --sites 2 --workers 2,pool --workers 2,avoid --workers 2,avoid --kept --workers 2$1.0 until 2.0,2.0 until 1.0$t = newTid(); fork(t) { x = newPhaser(); } t = newTid(); fork(t) { x = newPhaser(); }$tasks 3 done 3 dead 0 held 0 refused 0 unforked 0~graph sg 0~$0\n\
pool --workers 2$1.0 until 2.0,2.0 until 1.0$t = newTid(); u = newTid(); fork(t) { p = newPhaser(); } fork(u) { q = newPhaser(); }$tasks 3 done 3 dead 0 held 0 refused 0 unforked 0~graph sg 0~$0\n\
record --workers 2$1.0 until 2.0,2.0 until 1.0$t = newTid(); u = newTid(); fork(t) { p = newPhaser(); } fork(u) { q = newPhaser(); }$t = newTid(); u = newTid(); fork(t) { p = newPhaser(); } fork(u) { q = newPhaser(); }~%%~t 0~t 0~t 1~t 2~|t = newTid(); u = newTid(); fork(t) { p = newPhaser(); } fork(u) { q = newPhaser(); }~%%~t 0~t 0~t 2~t 1~$0\n\
record --workers 2$1.0 until 2.0,2.0 until 1.0$t = newTid(); fork(t) { x = newPhaser(); }~t = newTid(); fork(t) { x = newPhaser(); }~$t = newTid(); fork(t) { x = newPhaser(); }~t = newTid(); fork(t) { x = newPhaser(); }~%%~t 0~t 0~t 1~t 2~|t = newTid(); fork(t) { x = newPhaser(); }~t = newTid(); fork(t) { x = newPhaser(); }~%%~t 0~t 0~t 2~t 1~$0\n\
run --workers 2,run --live --workers 2,run --sites 2 --workers 2,pool --workers 2,avoid --workers 2,avoid --kept --workers 2$2.0 until 1.2$t = newTid(); fork(t) { p = newPhaser(); await(p); adv(p); } t = newTid(); fork(t) { x = newPhaser(); }$tasks 3 done 3 dead 0 held 0 refused 0 unforked 0~graph sg 0~$0\n\
run --live --workers 2$4.0 until named 2$a = newPhaser();~b = newPhaser();~t = newTid(); reg(t, a); reg(t, b);~fork(t) { adv(a); await(a); }~t = newTid(); reg(t, a); reg(t, b);~fork(t) { adv(b); await(b); }~t = newTid();~fork(t) { u = newTid(); fork(u) { c = newPhaser(); } }~dereg(a); dereg(b);~$dead t1 p0@1~dead t2 p1@1~tasks 5 done 3 dead 2 held 0 refused 0 unforked 0~t1 dead p0@1~t2 dead p1@1~cycle t1 t2~graph sg 2~$1\n\
run --live --workers 2$0.0 until named 0,named 0 until 0.0$p = newPhaser(); t = newTid(); reg(t, p); fork(t) { adv(p); await(p); } adv(p); await(p);$tasks 2 done 2 dead 0 held 0 refused 0 unforked 0~graph sg 0~$0\n\
clock --live --workers 2$0.0 until named 0,named 0 until 0.0$clock c; async(c) { advance(c); } advance(c);$tasks 2 done 2 dead 0 held 0 refused 0 unforked 0~graph sg 0~$0\n\
run --workers 2,run --live --workers 2,run --sites 2 --workers 2,pool --workers 2,avoid --workers 2,avoid --kept --workers 2$1.0 until 2.1,2.1 until 1.2$p = newPhaser(); t = newTid(); reg(t, p); fork(t) { adv(p); await(p); x = newPhaser(); } t = newTid(); reg(t, p); fork(t) { adv(p); y = newPhaser(); } dereg(p);$tasks 3 done 3 dead 0 held 0 refused 0 unforked 0~graph sg 0~$0\n\
avoid --workers 2,avoid --kept --workers 2$2.0 until 1.2$p = newPhaser(); t = newTid(); fork(t) { q = newPhaser(); await(q); adv(q); } t = newTid(); reg(t, p); fork(t) { adv(p); } adv(p); await(p);$tasks 3 done 3 dead 0 held 0 refused 0 unforked 0~graph sg 0~$0\n\
run --workers 3,run --live --workers 3,run --sites 2 --workers 3,pool --workers 3,avoid --workers 3,avoid --kept --workers 3$1.0 until 3.0,2.0 until 3.0$t = newTid(); u = newTid(); v = newTid(); fork(t) { x = newPhaser(); } fork(u) { x = newPhaser(); } fork(v) { x = newPhaser(); }$tasks 4 done 4 dead 0 held 0 refused 0 unforked 0~graph sg 0~$0\n\
pool --workers 2$0.1 until 1.0$t = newTid(); fork(t) { x = newPhaser(); } t = newTid(); fork(t) { x = newPhaser(); }$tasks 3 done 3 dead 0 held 0 refused 0 unforked 0~graph sg 0~$0\n\
";

fn point(text: &str) -> Point {
    if let Some((_, count)) = text.split_once("named ") {
        return Point::Named {
            count: number(count),
        };
    }
    let (t, k) = cut(text, ".");
    Point::Op {
        t: TaskId(number(t)),
        k: number(k),
    }
}

fn points(text: &str) -> (Point, Point) {
    let (held, until) = cut(text, " until ");
    (point(held), point(until))
}

fn gate(text: &str) -> Holding {
    let (first, second) = text.split_once(",").unwrap_or((text, text));
    Holding::new(points(first), points(second))
}

// Whether a call ended with this status and one of these outputs.
fn is_one_of(
    alloc: Global,
    found: &(Vec<u8>, u8),
    outputs: &str,
    status: &str,
) -> Result<bool, NoMemory> {
    let mut is_one = false;
    for output in outputs.split("|") {
        is_one = is_one || bytes_of(alloc, output)? == found.0;
    }
    Ok(is_one && found.1 == number(status))
}

// Whether a call of these words is as its row says behind them, and nobody waited in vain.
fn is_met<R: Threads + Wait + Sync>(
    rt: &R,
    alloc: Global,
    words: &str,
    row: &str,
) -> Result<bool, NoMemory> {
    let (holds, text, rest) = columns(row, "$");
    let (outputs, status) = cut(rest, "$");
    let gate = gate(holds);
    let found = ended(rt, alloc, words, bytes_of(alloc, text)?, AMPLE, &gate)?;
    Ok(is_one_of(alloc, &found, outputs, status)? && !gate.gave_up())
}

#[test]
fn others_go_on_while_tasks_are_held(rt: HostRuntime) -> Result<(), Fail> {
    for row in ROWS.lines() {
        let (calls, rest) = cut(row, "$");
        for words in calls.split(",") {
            assert!(rt; is_met(&rt, rt.alloc(), words, rest)?, "{words}: {rest}");
        }
    }
    Ok(())
}
