// Runs whose awaits load much leave their board: workers act side by side before, and one thread goes on behind it, in order of number.
use crate::coming::Coming;
use crate::detected::ran;
use crate::meeting::{MAX_LOOKS, Meeting};
use crate::plans::named_plan;
use crate::runs::run;
use armus_base::{NoMemory, Point, TaskId};
use std::alloc::Global;
use std::sync::Wait;
use std::test::Fail;
use std::thread::Threads;
use tests_rows::{columns, first_word, number};

// A kind of run and a plan, two tasks, and whether they meet at the gate before their only op, with two workers. Task 0 forks them one after the other, when
// all that were forked before have come to an await. On a board two workers let them act side by side: in the next round, or in a pool at once. A run that has
// left its board lets one thread act for all, in order of number, so that the gate holds the first of them in vain.
const SMALL: &str = "\
run small | 1 5 | met\n\
avoid small | 1 5 | met\n\
pool small | 1 2 | met\n\
";

const LARGE: &str = "\
run large | 1 4095 | in vain\n\
avoid decisions | 1 4006 | in vain\n\
pool large | 1 2 | in vain\n\
";

// How often a task looks for the other at the gate, where it is to wait in vain.
const FEW_LOOKS: u32 = 1_000_000;

// The op of a task.
fn point(t: &str) -> Point {
    Point::Op {
        t: TaskId(number(t)),
        k: 0,
    }
}

// Whether the two tasks meet, or one waits in vain, as it is said.
fn is_met<R: Threads + Wait + Sync>(rt: &R, alloc: Global, row: &str) -> Result<bool, NoMemory> {
    let (run_of, tasks, wanted) = columns(row, "|");
    let (kind, word) = first_word(run_of);
    let (first, second) = first_word(tasks);
    let meet = wanted.trim() == "met";
    let looks = if meet { MAX_LOOKS } else { FEW_LOOKS };
    let gate = Meeting::between(point(first), point(second.trim()), looks);
    let plan = named_plan(alloc, word)?;
    if kind == "run" {
        let _ran = ran(rt, alloc, &plan, 2, &gate)?;
    } else {
        let _ended = run(rt, alloc, &plan, kind, 2, &gate)?;
    }
    Ok(gate.gave_up() != meet)
}

// Whether all these rows are met.
fn are_met<R: Threads + Wait + Sync>(rt: &R, alloc: Global, rows: &str) -> Result<bool, NoMemory> {
    for row in rows.lines() {
        if !is_met(rt, alloc, row)? {
            return Ok(false);
        }
    }
    Ok(true)
}

#[test]
fn small_runs_stay_on_their_board(rt: HostRuntime) -> Result<(), Fail> {
    assert!(rt; are_met(&rt, rt.alloc(), SMALL)?);
    Ok(())
}

#[test]
fn large_runs_leave_their_board(rt: HostRuntime) -> Result<(), Fail> {
    assert!(rt; are_met(&rt, rt.alloc(), LARGE)?);
    Ok(())
}

// Whether task 4,002 comes to its op before task 4,001 comes to its op behind 4,200 awaits, all of which it may pass at once, where one worker lets them act in
// order of number.
fn is_overtaken<R: Threads + Sync>(rt: &R, alloc: Global) -> Result<bool, NoMemory> {
    let last = Point::Op {
        t: TaskId(4001),
        k: 8401,
    };
    let other = Point::Op {
        t: TaskId(4002),
        k: 0,
    };
    let gate = Coming::new(last, other);
    let _ran = ran(rt, alloc, &named_plan(alloc, "awaits")?, 1, &gate)?;
    Ok(gate.second_came_first())
}

// With 4,003 tasks the first 4,192 awaits that are passed load more than 2^24 words, and behind them the turn of task 4,001 is cut short. In a world it goes
// on.
#[test]
fn a_run_with_one_worker_begins_on_a_board(rt: HostRuntime) -> Result<(), Fail> {
    assert!(rt; is_overtaken(&rt, rt.alloc())?);
    Ok(())
}
