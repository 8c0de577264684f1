// The message on tasks that become stuck.
ghost use Rattle.std.specs.Prelude.{◌≡◌, ◌<◌, ◌==◌, ◌&&◌, ◌++◌, ℕ, All, IfOk, OnOk, List as Seq, length, map};
ghost use Rattle.std.specs.List.{list_any};
ghost use Rattle.monitor_words.specs.Messages.{others_told};
ghost use Rattle.monitor_words.specs.calls.Values.{told_rows_shown};
ghost use Rattle.monitor_search.specs.Known.{has_stuck_number};
ghost use Rattle.monitor_reasons.specs.Found.{ArePlacesOfList, participant_at, reason_value};
ghost use Rattle.monitor_messages.specs.inside.Newly.{IsToldOn};

use crate::newly::NewlyStuck;
use armus_base::{List, NoMemory};
use monitor_reasons::{FoundReason, reason_of, sentence_of, tells_old};
use monitor_rows::wait_rows_of;
use monitor_search::StuckTasks;
use monitor_state::MonitorState;
use monitor_words::{ShownRows, put_told};
use std::alloc::Global;

// Whether no rows follow: one task alone becomes stuck, and the reason names one that was stuck before.
fn leaves_rows(
    state: &MonitorState,
    was: &StuckTasks,
    newly: &NewlyStuck,
    found: &FoundReason,
) -> bool
    requires { ArePlacesOfList state.now.list found.now }
    ensures { result ≡ ((length newly.now.places.items == 1) && list_any (λ u. has_stuck_number was.now u.number) (others_told (reason_value state.now.list found.now))) }
{
    newly.places.len() == 1 && tells_old(state, was, found)
}

// The rows of tasks that become stuck.
fn told_rows(
    alloc: Global,
    state: &MonitorState,
    was: &StuckTasks,
    stuck: &StuckTasks,
    newly: &NewlyStuck,
    found: &FoundReason,
) -> Result<ShownRows, NoMemory>
    requires reason { ArePlacesOfList state.now.list found.now }
    requires places { All (λ i. i < length state.now.list) newly.now.places.items }
    requires first { newly.now.first < length state.now.list }
    ensures { IfOk result (λ rows. rows ≡ told_rows_shown state.now (has_stuck_number was.now) (has_stuck_number stuck.now) (participant_at state.now.list newly.now.first) (map (participant_at state.now.list) newly.now.places.items) (reason_value state.now.list found.now)) }
{
    if leaves_rows(state, was, newly, found) {
        return Ok(ShownRows {
            rows: List::new(alloc),
            left: 0,
        });
    }
    let rows = wait_rows_of(alloc, state, stuck, &newly.places, Some(newly.first))?;
    Ok(rows)
}

/// Appends the message on tasks that become stuck.
pub(crate) fn put_newly_stuck(
    alloc: Global,
    out: &mut Vec<u8>,
    state: &MonitorState,
    was: &StuckTasks,
    stuck: &StuckTasks,
    newly: &NewlyStuck,
) -> Result<(), NoMemory>
    requires places { All (λ i. i < length state.now.list) newly.now.places.items }
    requires first { newly.now.first < length state.now.list }
    ensures { OnOk result ((words : Seq ℕ) × (out.new.items ≡ out.old.items ++ words) × IsToldOn state.now (has_stuck_number was.now) (has_stuck_number stuck.now) (participant_at state.now.list newly.now.first) (map (participant_at state.now.list) newly.now.places.items) words) }
{
    let found = reason_of(alloc, state, stuck, newly.first)?;
    let sentence = sentence_of(alloc, state, newly.first, &found)?;
    let rows = told_rows(alloc, state, was, stuck, newly, &found)?;
    put_told(alloc, out, &sentence, &rows)?;
    Ok(())
}
