// Runs over two sites of two tasks that wait for each other.
ghost use Rattle.std.specs.Prelude.{◌≡◌, None, OnOk, length, replicate};

use crate::plans::named_plan;
use crate::runs::{add_final, options_of};
use crate::site_desk::Desk;
use armus_base::{Final, List, NoMemory, Plan, Still};
use sites::{KeepEnd, MemKeeper};
use std::alloc::Global;
use std::test::Fail;
use std::thread::Threads;
use task_runner::run_sites;

// How each task has ended and how many are blocked; then, for each site, the row at the end: for site 0 one status, of task 0 on p0@1, with two phases, 1 of
// p0 and 0 of p1, and for site 1 one of task 1 on p1@1, with 0 of p0 and 1 of p1.
const ENDS: &str = "blocked p0@1, blocked p1@1, 2 blocked";

const LAST_ROWS: &str = "\
0 0 0 1 0 0 0 0 0 0 0 0 0 0 0 1 0 0 0 2 0 0 0 0 0 0 0 1 0 0 0 1 0 0 0 0; \
0 0 0 1 0 0 0 1 0 0 0 1 0 0 0 1 0 0 0 2 0 0 0 0 0 0 0 0 0 0 0 1 0 0 0 1; \
";

// What the run ends in, or that the keeper failed.
fn ran<R: Threads + Sync>(
    rt: &R,
    alloc: Global,
    plan: &Plan,
    workers: u32,
    keeper: &mut MemKeeper,
) -> Result<Final, KeepEnd>
    requires empty { keeper.old.rows ≡ replicate 2 None }
    ensures kept { OnOk result (length keeper.new.rows ≡ 2) }
{
    let Some(options) = options_of(workers) else {
        return Err(KeepEnd::NoMemory);
    };
    run_sites(rt, alloc, plan, &options, 2, keeper, &Still)
}

// Whether the run fails where this call of its keeper does.
fn fails_at<R: Threads + Sync>(
    rt: &R,
    alloc: Global,
    plan: &Plan,
    call: u64,
) -> Result<bool, NoMemory> {
    let fails = List::from_vec(vec![in alloc; call]?);
    let mut keeper = MemKeeper::new(alloc, 2, fails)?;
    match ran(rt, alloc, plan, 1, &mut keeper) {
        Err(KeepEnd::Fault) => Ok(true),
        Err(KeepEnd::NoMemory) => Err(NoMemory),
        Ok(_) => Ok(false),
    }
}

// How many calls a run makes of its keeper, if each of the first calls ends the run where it fails, and no later one is made.
fn calls<R: Threads + Sync>(rt: &R, alloc: Global, plan: &Plan) -> Result<Option<u64>, NoMemory> {
    let mut made: u64 = 0;
    for call in 1..40 {
        if fails_at(rt, alloc, plan, call)? {
            if call != made.wrapping_add(1) {
                return Ok(None);
            }
            made = call;
        }
    }
    Ok(Some(made))
}

// Three rounds by one worker: in the first task 0 comes to its await, in the second task 1 comes to its own, in the third nobody acts. A pass of two calls of
// `put` and two of `get` stands beside each, and as many calls at the end.
#[test]
fn each_call_of_the_keeper_counts(rt: HostRuntime) -> Result<(), Fail> {
    let plan = named_plan(rt.alloc(), "two")?;
    assert!(rt; calls(&rt, rt.alloc(), &plan)? == Some(16));
    Ok(())
}

// Whether these are the last rows of the keeper.
fn holds(alloc: Global, keeper: MemKeeper, wanted: &str) -> Result<bool, NoMemory>
    requires { length keeper.rows ≡ 2 }
{
    let mut desk = Desk::new(alloc, keeper, 2);
    desk.call(alloc, "get 0")?;
    desk.call(alloc, "get 1")?;
    Ok(desk.told() == wanted)
}

// Whether the run has ended so.
fn has_ended(alloc: Global, end: &Final, wanted: &str) -> Result<bool, NoMemory> {
    let mut text = String::new(alloc);
    add_final(&mut text, end)?;
    Ok(text.as_str() == wanted)
}

// Whether a run by two workers ends so, and the last rows are those.
fn ends_so<R: Threads + Sync>(rt: &R, alloc: Global, plan: &Plan) -> Result<bool, NoMemory> {
    let mut keeper = MemKeeper::new(alloc, 2, List::new(alloc))?;
    match ran(rt, alloc, plan, 2, &mut keeper) {
        Ok(end) => Ok(has_ended(alloc, &end, ENDS)? && holds(alloc, keeper, LAST_ROWS)?),
        Err(_) => Ok(false),
    }
}

#[test]
fn the_last_rows(rt: HostRuntime) -> Result<(), Fail> {
    let plan = named_plan(rt.alloc(), "two")?;
    assert!(rt; ends_so(&rt, rt.alloc(), &plan)?);
    Ok(())
}
