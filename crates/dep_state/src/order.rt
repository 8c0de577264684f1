// The order that a list of statuses keeps.
ghost use Rattle.std.specs.Prelude.{◌↔◌, ◌<◌, ◌^◌, length, All, AllPairs, IsTrue, MatchBool};
ghost use Rattle.armus_base.specs.calls.Statuses.{IsInOrder};
ghost use Rattle.dep_state.specs.inside.Order.{HasOrderedPhases, HaveOrderedTasks, IsOrderedPhases};

use armus_base::{Member, Status};

// one more than the largest number of statuses, and of phases in a status, that a list in order may have
const MOST: usize = 1 << 31;

// Whether the phasers of the phases ascend without repeats.
fn is_ascending(phases: &[Member]) -> bool
    ensures { MatchBool result (IsOrderedPhases phases.now) (¬ IsOrderedPhases phases.now) }
{
    for k in 1..phases.len() {
        if phases[k].p.0 <= phases[k - 1].p.0 {
            return false;
        }
    }
    true
}

// Whether the phases of a status are few and in order.
fn has_ordered_phases(status: &Status) -> bool
    ensures { MatchBool result (HasOrderedPhases status.now) (¬ HasOrderedPhases status.now) }
{
    let phases = status.phases.as_slice();
    phases.len() < MOST && is_ascending(phases)
}

// Whether the tasks of the statuses ascend without repeats.
fn has_ordered_tasks(list: &[Status]) -> bool
    ensures { MatchBool result (HaveOrderedTasks list.now) (¬ HaveOrderedTasks list.now) }
{
    for k in 1..list.len() {
        if list[k].t.0 <= list[k - 1].t.0 {
            return false;
        }
    }
    true
}

/// Whether a list of statuses is in order: tasks ascend without repeats, and so do the phasers in each status, and there are fewer than 2^31
/// statuses, each with fewer phases.
pub fn is_in_order(list: &[Status]) -> bool
    ensures { MatchBool result (IsInOrder list.now) (¬ IsInOrder list.now) }
{
    if list.len() >= MOST || !has_ordered_tasks(list) {
        return false;
    }
    for k in 0..list.len() {
        if !has_ordered_phases(&list[k]) {
            return false;
        }
    }
    true
}
