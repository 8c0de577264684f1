// A run on a board that detects deadlock: where its tasks stand at the end of its rounds, and what the words of the board say there, before it goes on in a
// world.
ghost use Rattle.std.specs.Prelude.{◌≡◌, ◌<◌, IfOk, length};

use crate::plans::named_plan;
use crate::runs::options_of;
use crate::texts::{add_event, add_phase};
use armus_base::{Gate, List, MemSink, NoMemory, PhaserId, Plan, Still, TaskId};
use board::{Seen, Words};
use pl_core::Place;
use std::alloc::{AllocError, Global};
use std::test::Fail;
use std::thread::Threads;
use task_runner::{Ran, run_detect};
use tests_rows::columns;

// A plan, how many events each task has made, and for each task what its word says, and its phases. A run that leaves an await to the world has made fewer.
const ROWS: &str = "\
ending | 15 14 14 14 | idle - 1;idle - -;idle - -;idle - -;\n\
two | 7 2 | waits p0@1 1 0;waits p1@1 0 1;\n\
";

/// What the run by so many workers comes to, without live lines.
pub(crate) fn ran<R: Threads + Sync, G: Gate>(
    rt: &R,
    alloc: Global,
    plan: &Plan,
    workers: u32,
    gate: &G,
) -> Result<Ran, NoMemory>
    ensures { IfOk result (λ ran. ran.words.plan ≡ plan.now) }
{
    let Some(options) = options_of(workers) else {
        return Err(NoMemory);
    };
    let mut out = MemSink::new(alloc, 100, 100, List::new(alloc))?;
    match run_detect(rt, alloc, plan, &options, gate, &mut out) {
        Ok(ran) => Ok(ran),
        Err(_) => Err(NoMemory),
    }
}

fn places_text(alloc: Global, places: &[Place]) -> Result<String, NoMemory> {
    let mut text = String::new(alloc);
    for place in places {
        let refused = if place.refused { "refused " } else { "" };
        write!(text, "{} {refused}", place.events)?;
    }
    Ok(text)
}

fn add_seen(text: &mut String, seen: Seen) -> Result<(), AllocError> {
    match seen {
        Seen::Idle => text.push_str("idle"),
        Seen::Waits(event) => {
            text.push_str("waits ")?;
            add_event(text, event)
        }
        Seen::Refused(event) => {
            text.push_str("refused ")?;
            add_event(text, event)
        }
    }
}

fn add_phases(text: &mut String, plan: &Plan, words: &Words, t: TaskId) -> Result<(), AllocError>
    requires plan { words.now.plan ≡ plan.now }
    requires task { t.0 < length plan.now.parents }
{
    for p in 0..plan.phasers() {
        add_phase(text, words.phase_of(t, PhaserId(p)))?;
    }
    Ok(())
}

fn words_text(alloc: Global, plan: &Plan, words: &Words) -> Result<String, NoMemory>
    requires plan { words.now.plan ≡ plan.now }
{
    let mut text = String::new(alloc);
    for t in 0..plan.tasks() {
        add_seen(&mut text, words.await_of(TaskId(t)))?;
        add_phases(&mut text, plan, words, TaskId(t))?;
        text.push_str(";")?;
    }
    Ok(text)
}

fn ends_so(
    alloc: Global,
    plan: &Plan,
    ran: &Ran,
    places: &str,
    words: &str,
) -> Result<bool, NoMemory>
    requires plan { ran.now.words.plan ≡ plan.now }
{
    let stand = places_text(alloc, ran.places.as_slice())?;
    let say = words_text(alloc, plan, &ran.words)?;
    Ok(stand.as_str().trim() == places.trim() && say.as_str() == words.trim())
}

fn is_met<R: Threads + Sync>(rt: &R, alloc: Global, row: &str) -> Result<bool, NoMemory> {
    let (word, places, words) = columns(row, "|");
    let plan = named_plan(alloc, word)?;
    let ran = ran(rt, alloc, &plan, 2, &Still)?;
    ends_so(alloc, &plan, &ran, places, words)
}

#[test]
fn ends_of_rounds_on_a_board(rt: HostRuntime) -> Result<(), Fail> {
    for row in ROWS.lines() {
        assert!(rt; is_met(&rt, rt.alloc(), row)?, "{row}");
    }
    Ok(())
}
