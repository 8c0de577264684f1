// Clock programs: how many activities, clocks and ops the plan of each has, and codes of activities.
use crate::pieces::has_pieces;
use armus_base::{NoMemory, Plan};
use clock_pl::clock_plan;
use clock_syntax::{MAX_CLOCK_BYTES, clock_parse};
use std::alloc::Global;
use std::test::Fail;
use tests_rows::{columns, cut, number};

// The end of a finish is no visit. An activity has the names as they are at its async. A body that is never unfolded is not checked. Another clock may have
// the name, and the first one stays pending. A finish is left by the activity that began it, and inherited ones are not.
const PLANS: &str = "\
|1 0 0\n\
clock c; finish { async(c) { advance(c); } } drop(c);|2 2 13\n\
clock c; resume(c); advance(c);|1 1 4\n\
clock c; resume(c); advance(c); resume(c); advance(c); resume(c);|1 1 7\n\
clock c; async(c) { resume(c); } resume(c);|2 1 7\n\
finish { async() { async() { } } }|3 1 10\n\
clock fork; advance(fork); drop(fork);|1 1 4\n\
loop 1024 { clock c; }|1 1024 2048\n\
loop 255 { clock c; } loop 4095 { async() { } }|4096 255 4605\n\
loop 65535 { loop 62 { } }|1 0 0\n\
loop 65535 { loop 62 { } } loop 31 { finish { } }|1 31 124\n\
clock c; async(c) { advance(c); } clock c; advance(c);|2 2 11\n\
loop 0 { advance(z); }|1 0 0\n\
clock c; resume(c); clock c; resume(c);|1 2 6\n\
clock c; finish { async(c) { finish { async(c) { } } } }|3 3 20\n\
";

// A text, an activity and its code: under a finish, of two clocks, and of a resume.
const CODES: &str = "\
clock c; finish { async(c) { advance(c); } } drop(c);|0|make:0 make:1 reg:1,0 reg:1,1 fork:1 adv:1 await:1 drop:1 drop:0\n\
clock c; finish { async(c) { advance(c); } } drop(c);|1|adv:0 await:0 drop:0 drop:1\n\
clock b; clock a; async(a, b) { }|0|make:0 make:1 reg:1,1 reg:1,0 fork:1 drop:0 drop:1\n\
clock b; clock a; async(a, b) { }|1|drop:0 drop:1\n\
clock c; resume(c); advance(c);|0|make:0 adv:0 await:0 drop:0\n\
";

fn has_counts(plan: &Plan, text: &str) -> bool {
    let (activities, clocks, ops) = columns(text, " ");
    plan.tasks() == number(activities)
        && plan.phasers() == number(clocks)
        && plan.ops() == number(ops)
}

fn is_planned(alloc: Global, text: &str, wanted: &str) -> Result<bool, NoMemory> {
    if text.len() > MAX_CLOCK_BYTES {
        return Ok(false);
    }
    let Ok(program) = clock_parse(alloc, text.as_bytes()) else {
        return Ok(false);
    };
    match clock_plan(alloc, &program) {
        Ok(plan) => Ok(has_counts(&plan, wanted)),
        Err(_) => Ok(false),
    }
}

#[test]
fn plans_of_clock_texts(rt: HostRuntime) -> Result<(), Fail> {
    for row in PLANS.lines() {
        let (text, wanted) = cut(row, "|");
        assert!(rt; is_planned(rt.alloc(), text, wanted)?, "{row}");
    }
    Ok(())
}

fn has_code(alloc: Global, text: &str, t: u32, code: &str) -> Result<bool, NoMemory> {
    if text.len() > MAX_CLOCK_BYTES {
        return Ok(false);
    }
    let Ok(program) = clock_parse(alloc, text.as_bytes()) else {
        return Ok(false);
    };
    match clock_plan(alloc, &program) {
        Ok(plan) => Ok(has_pieces(&plan, t, code)),
        Err(_) => Ok(false),
    }
}

#[test]
fn codes_of_activities(rt: HostRuntime) -> Result<(), Fail> {
    for row in CODES.lines() {
        let (text, t, code) = columns(row, "|");
        assert!(rt; has_code(rt.alloc(), text, number(t), code)?, "{row}");
    }
    Ok(())
}
