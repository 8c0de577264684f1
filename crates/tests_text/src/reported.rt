// Outlines of small final states, whether somebody is dead in them, and live lines. A row has a kind, how each task has ended, the statuses of those that wait,
// and what is told.
use crate::endings::final_state;
use armus_base::{Dead, Final, NoMemory};
use dep_state::is_in_order;
use report::{Outline, Standing, any_dead, live_lines, outline_of};
use std::alloc::{AllocError, Global};
use std::test::Fail;
use tests_rows::{are_bytes_of, columns, cut, event, task_and_event};

// The first rows are three workers that wait on p0@1 for their parent, which waits on p1@1 for them. A task that waits for a member that has ended, or that was
// never forked, is not dead.
const ROWS: &str = "\
outline | 1@1 0@1 0@1 0@1 | 0 1@1 0@0 1@1, 1 0@1 0@1 1@0, 2 0@1 0@1 1@0, 3 0@1 0@1 1@0 | dead 1@1, dead 0@1, dead 0@1, dead 0@1; tasks 4 done 0 dead 4 held 0 refused 0 unforked 0~\n\
any dead | 1@1 0@1 0@1 0@1 | 0 1@1 0@0 1@1, 1 0@1 0@1 1@0, 2 0@1 0@1 1@0, 3 0@1 0@1 1@0 | yes\n\
any dead | 0@1 done | 0 0@1 0@1 | no\n\
any dead | 0@1 unforked | 0 0@1 0@1 | no\n\
live | 3 0@1, 12 255@262144 | | dead t3 p0@1~dead t12 p255@262144~\n\
";

fn standing(text: &str) -> Standing {
    match text.split_once("dead ") {
        Some((_, awaited)) => Standing::Dead(event(awaited)),
        None => Standing::Done,
    }
}

fn are_standings(standings: &[Standing], text: &str) -> bool {
    let mut count = 0;
    for part in text.split(",") {
        if standings.get(count) != Some(&standing(part)) {
            return false;
        }
        count += 1;
    }
    standings.len() == count
}

// Whether this is the outline of standings and counts.
fn is_outline(outline: &Outline, standings: &str, counts: &str) -> bool {
    are_standings(outline.standings.as_slice(), standings)
        && are_bytes_of(outline.counts.as_slice(), counts)
}

fn is_outlined(alloc: Global, end: &Final, text: &str) -> Result<bool, NoMemory> {
    let (standings, counts) = cut(text, "; ");
    if !is_in_order(end.blocked.as_slice()) {
        return Ok(false);
    }
    Ok(is_outline(&outline_of(alloc, end)?, standings, counts))
}

fn has_dead(alloc: Global, end: &Final, text: &str) -> Result<bool, NoMemory> {
    if !is_in_order(end.blocked.as_slice()) {
        return Ok(false);
    }
    Ok(any_dead(alloc, end)? == (text == "yes"))
}

fn is_state_met(alloc: Global, kind: &str, end: &Final, text: &str) -> Result<bool, NoMemory> {
    match kind {
        "outline" => is_outlined(alloc, end, text),
        _ => has_dead(alloc, end, text),
    }
}

fn dead_tasks(alloc: Global, text: &str) -> Result<Vec<Dead>, AllocError> {
    let mut all = Vec::new(alloc);
    for part in text.split(",") {
        let (t, event) = task_and_event(part.trim());
        all.push(Dead { t, event })?;
    }
    Ok(all)
}

fn are_live_lines(alloc: Global, tasks: &str, text: &str) -> Result<bool, NoMemory> {
    let dead = dead_tasks(alloc, tasks)?;
    Ok(are_bytes_of(live_lines(alloc, &dead)?.as_slice(), text))
}

fn is_met(alloc: Global, row: &str) -> Result<bool, NoMemory> {
    let (kind, rest) = cut(row, " | ");
    let (first, second, text) = columns(rest, "| ");
    let (first, second) = (first.trim(), second.trim());
    match kind {
        "live" => are_live_lines(alloc, first, text),
        _ => is_state_met(alloc, kind, &final_state(alloc, first, second)?, text),
    }
}

#[test]
fn outlines_and_live_lines(rt: HostRuntime) -> Result<(), Fail> {
    for row in ROWS.lines() {
        assert!(rt; is_met(rt.alloc(), row)?, "{row}");
    }
    Ok(())
}
