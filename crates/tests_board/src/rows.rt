// Rows: a plan, how many tasks and phasers it has, on what it is played, the steps, and how they end.
ghost use Rattle.std.specs.Prelude.{◌≤◌};

use crate::board_play::BoardPlay;
use crate::endings::ends;
use crate::plans::small_plan;
use crate::rounds::has_first_round;
use crate::texts::column;
use crate::world_play::WorldPlay;
use armus_base::{NoMemory, Plan};
use board::Mode;
use pl_syntax::MAX_PARSED_BYTES;
use std::alloc::Global;
use std::test::Fail;
use std::thread::Threads;
use tests_rows::{first_word, number};

const ROWS: &str = "\
| 1 0 | detect | board counts 1 0, 0 is 0, 0 scanned 0, 0 idle, 0 shows 0 idle, view shows 0 idle, view splits, view shows 0 idle | words shows 0 idle\n\
| 1 0 | detect | board found, view collects 1, board found, 0 collects, board found |\n\
p = newPhaser(); t = newTid(); reg(t, p); adv(p); await(p); | 2 1 | detect | 0 steps 4, 0 event 0@1, view finds 0 0 1, view finds 1 0 0, view splits, view finds 0 0 1, view finds 1 0 0 |\n\
p = newPhaser(); t = newTid(); reg(t, p); fork(t) { } adv(p); await(p); | 2 1 | detect | 0 steps 2, 0 forks, 0 steps 2 | words shows 0 waits 0@1, shows 1 idle, finds 0 0 1, finds 1 0 0\n\
p = newPhaser(); t = newTid(); reg(t, p); fork(t) { } adv(p); await(p); | 2 1 | detect | 0 steps 2, 0 forks, 0 steps 2, 0 event 0@1, 0 looks behind 1 0, board passes auto dead fresh |\n\
p = newPhaser(); t = newTid(); reg(t, p); fork(t) { } adv(p); await(p); | 2 1 | detect | 0 steps 2, 0 forks | halves 1\n\
p = newPhaser(); t = newTid(); reg(t, p); fork(t) { u = newTid(); reg(u, p); adv(p); fork(u) { adv(p); dereg(p); } } adv(p); await(p); | 3 1 | detect | 0 steps 2, 0 forks, 0 steps 2, 0 finds 0 0 1, 0 scanned 1, 0 finds 0 0 1, 0 scanned 1, 0 finds 1 0 0, 0 scanned 1, 1 steps 2, 0 finds 1 0 1, 0 scanned 2, 0 finds 2 0 0, 0 scanned 2, 0 stays waiting, 0 looks behind 2 0, 0 scanned 2, 1 forks, 2 steps 1, 0 looks reached, 0 scanned 3, 0 steps 1, 0 phase 0 1, 0 idle, 0 scanned 0, 0 stays ended, 2 steps 1, view finds 2 0 none, view shows 0 idle | words finds 1 0 1, finds 2 0 none\n\
p = newPhaser(); q = newPhaser(); t = newTid(); reg(t, p); reg(t, q); fork(t) { adv(q); await(q); } adv(p); await(p); | 2 2 | detect | 0 steps 4, 0 forks, 0 steps 2, board passes auto dead fresh, 1 steps 2, board takes, board takes, board passes auto dead 0 1 fresh 0 0@1 1 1@1, board passes grg dead 0 1 fresh, board watched 0 0@1 0@1 1@0 ; 1 1@1 0@0 1@1 ;, view collects 6, board found 0 0@1 0@1 1@0 ; 1 1@1 0@0 1@1 ;, view splits, view collects 6, board found 0 0@1 0@1 1@0 ; 1 1@1 0@0 1@1 ; |\n\
p = newPhaser(); q = newPhaser(); t = newTid(); reg(t, p); reg(t, q); fork(t) { adv(q); await(q); } adv(p); await(p); | 2 2 | graph | 0 steps 4, 0 forks, 0 steps 1, 1 steps 1, 1 decides published 1@1, 0 decides refused 0 1 at 0@1 1@1, 0 phase 0 none, 0 phase 1 none, view shows 0 refused 0@1, view shows 1 waits 1@1, 1 finds 0 1 none, 1 finds 1 1 1, 1 scanned 2, 1 steps 1 | words shows 0 refused 0@1, shows 1 idle\n\
p = newPhaser(); q = newPhaser(); t = newTid(); reg(t, p); reg(t, q); fork(t) { adv(q); await(q); } adv(p); await(p); | 2 2 | order | 0 steps 4, 0 forks, 0 steps 1, 1 steps 1, 1 decides published 1@1, 0 decides refused 0 1 at 0@1 1@1, 0 phase 0 none, 0 phase 1 none, view shows 0 refused 0@1, view shows 1 waits 1@1, 1 finds 0 1 none, 1 finds 1 1 1, 1 scanned 2, 1 steps 1 | words shows 0 refused 0@1, shows 1 idle\n\
p = newPhaser(); q = newPhaser(); t = newTid(); reg(t, p); reg(t, q); fork(t) { adv(q); await(q); } adv(p); await(p); | 2 2 | round detect | 7 1 |\n\
p = newPhaser(); q = newPhaser(); t = newTid(); reg(t, p); reg(t, q); fork(t) { adv(q); await(q); } adv(p); await(p); | 2 2 | round avoid | 7 1 |\n\
p = newPhaser(); q = newPhaser(); t = newTid(); reg(t, p); reg(t, q); fork(t) { adv(q); await(q); } adv(p); await(p); | 2 2 | world | 0 goes 7, 1 goes 1, 0 waits 0@1, 1 awaits 1@1, 1 decides refused 0 1 at 0@1 1@1, 0 goes 1, ends are done refused 1@1 |\n\
p = newPhaser(); t = newTid(); reg(t, p); fork(t) { await(p); } await(p); | 2 1 | graph | 0 steps 2, 0 forks | turns\n\
pl 2; p = newPhaser(); adv(p); await(p + 1); | 1 1 | detect | 0 steps 3, 0 looks behind 0 1, 0 scanned 0, board passes auto dead 0 fresh 0 0@2 |\n\
pl 2; p = newPhaser(); adv(p); await(p + 1); | 1 1 | graph | 0 steps 2, 0 decides refused 0 at 0@2 |\n\
pl 2; p = newPhaser(); adv(p); await(p + 1); | 1 1 | order | 0 steps 2, 0 decides refused 0 at 0@2 |\n\
pl 2; p = newPhaser(); adv(p); await(p + 1); | 1 1 | world | 0 goes 2, 0 awaits 0@2, 0 decides refused 0 at 0@2 |\n\
pl 2; p = newPhaser(); adv(p); t = newTid(); reg(t, p); adv(p); adv(p); await(p - 1); | 2 1 | detect | 0 steps 6, 0 event 0@2 |\n\
p = newPhaser(); q = newPhaser(); r = newPhaser(); t = newTid(); reg(t, p); reg(t, q); reg(t, r); fork(t) { adv(p); await(p); } u = newTid(); reg(u, p); reg(u, q); fork(u) { adv(q); await(q); } dereg(p); dereg(q); adv(r); await(r); | 3 3 | world | 0 goes 13, 0 keeps published 2@1, order is, 1 goes 1, 1 keeps published 0@1, order is 0-1, 2 goes 1, 2 keeps refused 1 2 at 0@1 1@1 |\n\
";

// The plan of a text, which has to have so many tasks and phasers.
fn plan_of(alloc: Global, text: &str, counts: &str) -> Result<Plan, NoMemory> {
    let (tasks, phasers) = first_word(counts);
    if text.len() > MAX_PARSED_BYTES {
        return Err(NoMemory);
    }
    small_plan(alloc, text.as_bytes(), number(tasks), number(phasers))
}

fn is_played<R: Threads + Sync>(
    rt: &R,
    alloc: Global,
    plan: &Plan,
    rest: &str,
) -> Result<bool, NoMemory> {
    let (kind, rest) = column(rest);
    let (steps, end) = column(rest);
    match kind {
        "world" => WorldPlay::begin(alloc, plan)?.plays(alloc, steps),
        "round detect" => has_first_round(rt, alloc, plan, Mode::Detect, steps),
        "round avoid" => has_first_round(rt, alloc, plan, Mode::Avoid, steps),
        _ => {
            let mut play = BoardPlay::begin(alloc, plan, kind)?;
            Ok(play.plays(alloc, steps)? && ends(rt, alloc, play, end.trim())?)
        }
    }
}

fn is_met<R: Threads + Sync>(rt: &R, alloc: Global, row: &str) -> Result<bool, NoMemory> {
    let (text, rest) = column(row);
    let (counts, rest) = column(rest);
    let plan = plan_of(alloc, text, counts)?;
    is_played(rt, alloc, &plan, rest)
}

#[test]
fn rows_are_met(rt: HostRuntime) -> Result<(), Fail> {
    for row in ROWS.lines() {
        assert!(rt; is_met(&rt, rt.alloc(), row)?, "{row}");
    }
    Ok(())
}
