// Calls of keepers, one of which fails at some calls, and what they answer.
ghost use Rattle.std.specs.Prelude.{◌≤◌};

use crate::site_desk::Desk;
use armus_base::{List, MAX_SITES, NoMemory};
use sites::{Keeper, MemKeeper, SafeKeeper};
use std::alloc::Global;
use std::test::Fail;
use tests_rows::{columns, first_word, number, numbers};

// A keeper, how many sites it has and which calls fail, the calls, and what each answers.
const ROWS: &str = "\
mem 2 2 5 | put 1 7; put 0 8; get 0; get 1; get 1 | ok; fault; none; 7; fault;\n\
safe 1 | put 0 1 2; put 0; get 0 | ok; ok; ;\n\
";

// Whether these calls of the keeper answer so.
fn plays<K: Keeper>(
    alloc: Global,
    desk: &mut Desk<K>,
    calls: &str,
    wanted: &str,
) -> Result<bool, NoMemory> {
    for call in calls.split(";") {
        desk.call(alloc, call)?;
    }
    Ok(desk.told().trim() == wanted.trim())
}

// The same of a new keeper that fails at these calls.
fn mem_plays(
    alloc: Global,
    sites: u32,
    fails: &str,
    calls: &str,
    wanted: &str,
) -> Result<bool, NoMemory>
    requires { 1 ≤ sites × sites ≤ MAX_SITES }
{
    let keeper = MemKeeper::new(alloc, sites, List::from_vec(numbers(alloc, fails)?))?;
    plays(alloc, &mut Desk::new(alloc, keeper, sites), calls, wanted)
}

// The same of a new keeper that never fails.
fn safe_plays(alloc: Global, sites: u32, calls: &str, wanted: &str) -> Result<bool, NoMemory>
    requires { 1 ≤ sites × sites ≤ MAX_SITES }
{
    let keeper = SafeKeeper::new(alloc, sites)?;
    plays(alloc, &mut Desk::new(alloc, keeper, sites), calls, wanted)
}

fn is_met(alloc: Global, row: &str) -> Result<bool, NoMemory> {
    let (kind, rest) = first_word(row);
    let (given, calls, wanted) = columns(rest, "|");
    let (sites, fails) = first_word(given);
    let sites = number(sites);
    if sites < 1 || sites > MAX_SITES {
        return Ok(false);
    }
    if kind == "mem" {
        mem_plays(alloc, sites, fails, calls, wanted)
    } else {
        safe_plays(alloc, sites, calls, wanted)
    }
}

#[test]
fn calls_of_keepers(rt: HostRuntime) -> Result<(), Fail> {
    for row in ROWS.lines() {
        assert!(rt; is_met(rt.alloc(), row)?, "{row}");
    }
    Ok(())
}
