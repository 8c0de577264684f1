// A pass of sites beside a round: the first task of the plan waits at its first op until the keeper is asked for a row, and the keeper until the task is there.
ghost use Rattle.std.specs.Prelude.{◌≡◌, None, replicate};

use crate::meeting::{MAX_LOOKS, Meeting};
use crate::plans::named_plan;
use crate::runs::options_of;
use armus_base::{Gate, List, NoMemory, Plan, Point, TaskId};
use sites::{KeepEnd, Keeper, MemKeeper};
use std::alloc::Global;
use std::test::Fail;
use std::thread::Threads;
use task_runner::run_sites;

// Where the task waits for the keeper.
const FIRST: Point = Point::Op { t: TaskId(0), k: 0 };

// Where the keeper waits for the task: at an op of a task that the plan has not.
const ASKED: Point = Point::Op { t: TaskId(2), k: 0 };

// A keeper in memory that asks before it gives a row.
#[derive(Drop)]
struct AskingKeeper<'a> {
    keeper: MemKeeper,
    meeting: &'a Meeting,
}

impl<'a> Keeper for AskingKeeper<'a> {
    ghost rows = { λ k. k.keeper.rows };

    ghost faults = { λ k. k.keeper.faults };

    fn put(&mut self, site: u32, row: &[u8]) -> Result<(), KeepEnd> {
        self.keeper.put(site, row)
    }

    fn get(&mut self, alloc: Global, site: u32) -> Result<Option<List<u8>>, KeepEnd> {
        self.meeting.at(ASKED);
        self.keeper.get(alloc, site)
    }
}

// Runs the plan over two sites with two workers: whether it has ended.
fn runs<R: Threads + Sync>(
    rt: &R,
    alloc: Global,
    plan: &Plan,
    keeper: &mut AskingKeeper<'_>,
    gate: &Meeting,
) -> bool
    requires empty { keeper.old.keeper.rows ≡ replicate 2 None }
{
    match options_of(2) {
        Some(options) => run_sites(rt, alloc, plan, &options, 2, keeper, gate).is_ok(),
        None => false,
    }
}

fn meets<R: Threads + Sync>(rt: &R, alloc: Global, plan: &Plan) -> Result<bool, NoMemory> {
    let meeting = Meeting::between(FIRST, ASKED, MAX_LOOKS);
    let keeper = MemKeeper::new(alloc, 2, List::new(alloc))?;
    let mut asking = AskingKeeper {
        keeper,
        meeting: &meeting,
    };
    let ended = runs(rt, alloc, plan, &mut asking, &meeting);
    Ok(ended && !meeting.gave_up())
}

#[test]
fn a_pass_goes_beside_a_round(rt: HostRuntime) -> Result<(), Fail> {
    let plan = named_plan(rt.alloc(), "two")?;
    assert!(rt; meets(&rt, rt.alloc(), &plan)?);
    Ok(())
}
