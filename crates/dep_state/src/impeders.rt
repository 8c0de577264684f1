// Which tasks impede each event: each task in turn is put into the rows of the events that it impedes, so the rows ascend.
ghost use Rattle.std.specs.Prelude.{◌≡◌, ◌<◌, ◌^◌, [], length, replicate, IfOk, OnOk, AllPairs};
ghost use Rattle.armus_base.specs.Statuses.{Impedes};
ghost use Rattle.armus_base.specs.calls.Statuses.{IsInOrder};
ghost use Rattle.dep_state.specs.calls.Deps.{IsEventBefore, rows_of};
ghost use Rattle.dep_state.specs.inside.Made.{IsPhaseBelow, IsAdded, IsImpedersOf, nth_event};

use crate::events::first_after;
use armus_base::{Event, Member, Status};
use std::alloc::{AllocError, Global};

// Puts a number at the end of a row.
fn push_to(rows: &mut Vec<Vec<u32>>, i: usize, k: u32) -> Result<(), AllocError>
    requires { i < length rows.old.items }
    ensures { OnOk result (IsAdded (λ j. j ≡ i) k (rows_of rows.old.items) (rows_of rows.new.items)) }
{
    rows[i].push(k)?;
    Ok(())
}

// Puts a task into the row of each event that one of its phases impedes: the events of its phaser from the first later one on.
fn add_phase(
    rows: &mut Vec<Vec<u32>>,
    events: &[Event],
    member: Member,
    k: u32,
) -> Result<(), AllocError>
    requires ordered { AllPairs IsEventBefore events.now }
    requires sized { length rows.old.items ≡ length events.now }
    ensures { OnOk result (IsAdded (λ i. IsPhaseBelow member (nth_event events.now i)) k (rows_of rows.old.items) (rows_of rows.new.items)) }
{
    let phase = Event {
        p: member.p,
        n: member.n,
    };
    let mut i = first_after(events, phase);
    'run: while i < events.len() && events[i].p.0 == member.p.0 {
        push_to(rows, i, k)?;
        i += 1;
    }
    Ok(())
}

// Puts a task into the row of each event that it impedes.
fn add_task(
    rows: &mut Vec<Vec<u32>>,
    events: &[Event],
    status: &Status,
    k: u32,
) -> Result<(), AllocError>
    requires ascends { AllPairs (λ c d. c.p.0 < d.p.0) status.now.phases }
    requires ordered { AllPairs IsEventBefore events.now }
    requires sized { length rows.old.items ≡ length events.now }
    ensures { OnOk result (IsAdded (λ i. Impedes status.now (nth_event events.now i)) k (rows_of rows.old.items) (rows_of rows.new.items)) }
{
    for member in status.phases.as_slice() {
        add_phase(rows, events, *member, k)?;
    }
    Ok(())
}

// Rows with nothing in them.
fn empty_rows(alloc: Global, count: usize) -> Result<Vec<Vec<u32>>, AllocError>
    ensures { IfOk result (λ rows. rows_of rows.items ≡ replicate count []) }
{
    let mut rows = Vec::with_capacity(alloc, count)?;
    for _ in 0..count {
        rows.push(Vec::new(alloc))?;
    }
    Ok(rows)
}

/// The places of the tasks that impede each event: a binary search among the events for each phase, and a step for each event that a task
/// impedes.
pub fn all_impeders(
    alloc: Global,
    list: &[Status],
    events: &[Event],
) -> Result<Vec<Vec<u32>>, AllocError>
    requires order { IsInOrder list.now }
    requires ordered { AllPairs IsEventBefore events.now }
    ensures { IfOk result (λ rows. IsImpedersOf list.now events.now (length events.now) (rows_of rows.items)) }
{
    let mut rows = empty_rows(alloc, events.len())?;
    for k in 0..list.len() {
        add_task(&mut rows, events, &list[k], k as u32)?;
    }
    Ok(rows)
}
