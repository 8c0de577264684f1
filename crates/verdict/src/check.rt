// The test of a cycle.
ghost use Rattle.std.specs.Prelude.{◌≡◌, ◌↔◌, ◌<◌, length, IsTrue, Any, MatchBool};
ghost use Rattle.armus_base.specs.Statuses.{Impedes};
ghost use Rattle.verdict.specs.calls.Cycles.{IsNextPlace, IsNewAt, IsLink, IsCycle};

use crate::Cycle;
use armus_base::{Event, Status, TaskId};

// Whether the task of the status impedes the event: it is a member of the event's phaser with a phase below the event's.
fn impedes(status: &Status, event: Event) -> bool
    ensures { IsTrue result ↔ Impedes status.now event }
{
    status
        .phases
        .as_slice()
        .iter()
        .any(|member| member.p == event.p && member.n < event.n)
}

// Whether the task awaits the event.
fn is_waiting(list: &[Status], t: TaskId, event: Event) -> bool
    ensures { IsTrue result ↔ Any (λ s. (s.t ≡ t) × (s.event ≡ event)) list.now }
{
    list.iter()
        .any(|status| status.t == t && status.event == event)
}

// Whether the task impedes the event.
fn is_impeder(list: &[Status], t: TaskId, event: Event) -> bool
    ensures { IsTrue result ↔ Any (λ s. (s.t ≡ t) × Impedes s event) list.now }
{
    list.iter()
        .any(|status| status.t == t && impedes(status, event))
}

// The place after one, or the first.
fn after(count: usize, k: usize) -> usize
    requires { k < count }
    ensures inside { result < count }
    ensures next { IsNextPlace count k result }
{
    if k + 1 == count { 0 } else { k + 1 }
}

// Whether no task ahead of the one at a place is equal to it.
fn is_new(tasks: &[TaskId], k: usize) -> bool
    requires { k < length tasks.now }
    ensures { MatchBool result (IsNewAt tasks.now k) (¬ IsNewAt tasks.now k) }
{
    for j in 0..k {
        if tasks[j] == tasks[k] {
            return false;
        }
    }
    true
}

// Whether the task at a place is new, and awaits its event, which the next task impedes.
fn is_link(list: &[Status], tasks: &[TaskId], events: &[Event], k: usize) -> bool
    requires inside { k < length tasks.now }
    requires sized { length events.now ≡ length tasks.now }
    ensures { MatchBool result (IsLink list.now tasks.now events.now k) (¬ IsLink list.now tasks.now events.now k) }
{
    let event = events[k];
    let next = after(tasks.len(), k);
    if !is_waiting(list, tasks[k], event) {
        return false;
    }
    if !is_impeder(list, tasks[next], event) {
        return false;
    }
    is_new(tasks, k)
}

/// Whether the two lists are equally long and not empty, the tasks are distinct, each awaits its event in the list of statuses, and each one's
/// event is impeded by the next task, the last one's by the first. It takes tasks times statuses and tasks steps, and those of the phases.
pub fn check_cycle(cycle: &Cycle, list: &[Status]) -> bool
    ensures { MatchBool result (IsCycle list.now cycle.now.tasks cycle.now.events) (¬ IsCycle list.now cycle.now.tasks cycle.now.events) }
{
    let tasks = cycle.tasks.as_slice();
    let events = cycle.events.as_slice();
    if tasks.is_empty() || events.len() != tasks.len() {
        return false;
    }
    for k in 0..tasks.len() {
        if !is_link(list, tasks, events, k) {
            return false;
        }
    }
    true
}
