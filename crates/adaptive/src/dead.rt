// The dead tasks of a list of statuses, without a graph.
ghost use Rattle.std.specs.Prelude.{◌≡◌, ◌<◌, ◌^◌, IfOk, length, map};
ghost use Rattle.armus_base.specs.DeadLists.{IsDeadList};
ghost use Rattle.armus_base.specs.calls.Statuses.{IsInOrder};
ghost use Rattle.armus_base.specs.declared.status.Status.{Status};
ghost use Rattle.adaptive.specs.inside.Remaining.{IsRemainingOf};

use crate::columns::{column_of, columns_of};
use crate::remaining::Remaining;
use crate::standings::{PhaseStanding, standings_of};
use armus_base::{Event, List, Member, NoMemory, Status, TaskId};
use dep_state::picked;
use std::alloc::{AllocError, Global};

// Who waits, at the event of its status.
fn waiter_at(event: Event, status: u32) -> PhaseStanding {
    PhaseStanding { at: event, status }
}

// Who awaits which phase of which phaser, by phaser and then by phase.
fn waiters_of(alloc: Global, list: &[Status]) -> Result<Vec<PhaseStanding>, AllocError>
    requires few { length list.now < 2 ^ 31 }
{
    let mut waiters = Vec::new(alloc);
    for k in 0..list.len() {
        waiters.push(waiter_at(list[k].event, k as u32))?;
    }
    waiters.sort_unstable();
    Ok(waiters)
}

// All statuses remain, and the waiters that are looked at column by column.
fn begin(alloc: Global, list: &[Status], waiters: &[PhaseStanding]) -> Result<Remaining, NoMemory>
    requires { IsInOrder list.now }
    ensures { IfOk result (IsRemainingOf list.now) }
{
    let standings = standings_of(alloc, list)?;
    let columns = columns_of(alloc, &standings, waiters)?;
    let remains = vec![in alloc; true; list.len()]?;
    Ok(Remaining {
        standings,
        columns,
        remains,
    })
}

// The columns of these phases are due.
fn add_due(
    due: &mut Vec<usize>,
    remaining: &Remaining,
    phases: &[Member],
) -> Result<(), AllocError> {
    for member in phases {
        match column_of(&remaining.columns, member.p) {
            Some(c) => due.push(c)?,
            None => {}
        }
    }
    Ok(())
}

// All columns are due.
fn all_due(alloc: Global, remaining: &Remaining) -> Result<Vec<usize>, AllocError> {
    let mut due = Vec::new(alloc);
    for c in 0..remaining.columns.len() {
        due.push(c)?;
    }
    Ok(due)
}

// Takes away a waiter of the column that is due last, and makes its columns due; or the column is due no more. Whether some column was due.
fn take_due(
    remaining: &mut Remaining,
    list: &[Status],
    waiters: &[PhaseStanding],
    due: &mut Vec<usize>,
) -> Result<bool, AllocError>
    requires order { IsInOrder list.now }
    requires kept { IsRemainingOf list.now remaining.old }
    ensures kept { IsRemainingOf list.now remaining.new }
{
    match due.pop() {
        None => Ok(false),
        Some(c) => match remaining.take_next(list, waiters, c) {
            None => Ok(true),
            Some(k) => {
                due.push(c)?;
                if k < list.len() {
                    add_due(due, remaining, list[k].phases.as_slice())?;
                }
                Ok(true)
            }
        },
    }
}

// Takes away what column after column shows not to be impeded. A turn takes a waiter away or a column off those that are due, so there are as many
// turns as there are waiters and as columns become due, at most.
fn take_columns(
    alloc: Global,
    remaining: &mut Remaining,
    list: &[Status],
    waiters: &[PhaseStanding],
) -> Result<(), AllocError>
    requires order { IsInOrder list.now }
    requires kept { IsRemainingOf list.now remaining.old }
    ensures kept { IsRemainingOf list.now remaining.new }
{
    let mut due = all_due(alloc, remaining)?;
    for _ in 0..u64::MAX {
        if !take_due(remaining, list, waiters, &mut due)? {
            return Ok(());
        }
    }
    Ok(())
}

// The tasks of the statuses, in order.
fn tasks_of(alloc: Global, list: &[Status]) -> Result<Vec<TaskId>, AllocError>
    ensures { IfOk result (λ tasks. tasks.items ≡ map (λ s. s.t) list.now) }
{
    list.iter().map(|status| status.t).collect(alloc)
}

/// The dead tasks of the statuses, in order of number. Each status is taken away whose event no task impedes whose status remains, phaser after
/// phaser in the order of phases, so the time is near linear in the statuses and their phases.
pub fn dead_of(alloc: Global, list: &[Status]) -> Result<List<TaskId>, NoMemory>
    requires { IsInOrder list.now }
    ensures { IfOk result (IsDeadList list.now) }
{
    let waiters = waiters_of(alloc, list)?;
    let mut remaining = begin(alloc, list, &waiters)?;
    take_columns(alloc, &mut remaining, list, &waiters)?;
    'rounds: while remaining.take_round(list) {}
    let tasks = tasks_of(alloc, list)?;
    let dead = picked(alloc, &tasks, &remaining.remains)?;
    Ok(List::from_vec(dead))
}
