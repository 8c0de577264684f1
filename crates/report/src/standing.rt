// How the tasks of a final state stand, in the words of a report.
ghost use Rattle.std.specs.Prelude.{◌≡◌, ◌<◌, ◌≤◌, ◌↔◌, length, IfOk, IsTrue, slice_index_or, AllPairs};
ghost use Rattle.report.specs.Standings.{Stands, AreStandings};
ghost use Rattle.report.specs.inside.Merging.{IsIn, IsNumberAt};

use armus_base::{Event, TaskEnd, TaskId};
use std::alloc::{AllocError, Global};

/// How a task stands at the end of a run (this project's own): a blocked task is dead or held.
#[derive(Clone, Copy, Debug, PartialEq, Eq)]
pub enum Standing {
    /// Its code is done.
    Done,
    /// It waits on this event, and stands in a deadlocked set.
    Dead(Event),
    /// It waits on this event, and stands in no deadlocked set.
    Held(Event),
    /// Its await of this event was refused.
    Refused(Event),
    /// No task has forked it.
    Unforked,
}

// Whether a task stands at a place of the list.
fn is_task_at(tasks: &[TaskId], at: usize, t: usize) -> bool
    requires { at ≤ length tasks.now }
    ensures { IsTrue result ↔ IsNumberAt tasks.now at t }
{
    at < tasks.len() && tasks[at].0 as usize == t
}

// How a task stands that has ended so.
fn standing_of(end: &TaskEnd, is_dead: bool) -> Standing
    ensures { Stands (IsTrue is_dead) end.now result }
{
    match *end {
        TaskEnd::Done => Standing::Done,
        TaskEnd::Blocked(event) => {
            if is_dead {
                Standing::Dead(event)
            } else {
                Standing::Held(event)
            }
        }
        TaskEnd::Refused(event) => Standing::Refused(event),
        TaskEnd::Unforked => Standing::Unforked,
    }
}

// How each task stands, by an ascending list of the dead ones.
pub(crate) fn standings(
    alloc: Global,
    ends: &[TaskEnd],
    dead: &[TaskId],
) -> Result<Vec<Standing>, AllocError>
    requires { AllPairs (λ a b. a.0 < b.0) dead.now }
    ensures { IfOk result (λ all. AreStandings (IsIn dead.now) ends.now all.items) }
{
    let mut all = Vec::new(alloc);
    let mut at = 0;
    for (t, end) in ends.iter().enumerate() {
        let is_dead = is_task_at(dead, at, t);
        if is_dead {
            at += 1;
        }
        all.push(standing_of(end, is_dead))?;
    }
    Ok(all)
}
