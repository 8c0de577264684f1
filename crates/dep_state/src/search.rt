// Where a task stands in an ascending list.
ghost use Rattle.std.specs.Prelude.{Contains, MatchBool, MatchOption};
ghost use Rattle.dep_state.specs.calls.Picks.{Ascend, IsTaskAt};
ghost use Rattle.dep_state.specs.inside.LowerBounds.{IsLowerBound};

use armus_base::TaskId;

// The place of the first task that is not below the given one.
fn first_from(tasks: &[TaskId], t: TaskId) -> usize
    requires { Ascend tasks.now }
    ensures { IsLowerBound tasks.now t result }
{
    tasks.partition_point(|u| u.0 < t.0)
}

// The place at which a task stands where the tasks are consecutive numbers.
fn guess(tasks: &[TaskId], t: TaskId) -> usize {
    if tasks.len() > 0 && tasks[0].0 <= t.0 {
        (t.0 - tasks[0].0) as usize
    } else {
        0
    }
}

// Whether a task stands at a place.
fn is_at(tasks: &[TaskId], t: TaskId, at: usize) -> bool
    ensures { MatchBool result (IsTaskAt tasks.now t at) (¬ IsTaskAt tasks.now t at) }
{
    at < tasks.len() && tasks[at] == t
}

/// The place of a task in a list that ascends: one look where its numbers are consecutive, and else a binary search. None comes exactly where it does
/// not stand there.
pub fn task_place(tasks: &[TaskId], t: TaskId) -> Option<usize>
    requires { Ascend tasks.now }
    ensures { MatchOption result (¬ Contains tasks.now t) (IsTaskAt tasks.now t) }
{
    let near = guess(tasks, t);
    if is_at(tasks, t, near) {
        return Some(near);
    }
    let at = first_from(tasks, t);
    if is_at(tasks, t, at) { Some(at) } else { None }
}
