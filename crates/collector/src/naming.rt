// Who is named, and who is not named yet.
ghost use Rattle.std.specs.Prelude.{◌≡◌, ◌<◌, true, All, IfOk, MatchOption, length, vec_len};
ghost use Rattle.armus_base.specs.declared.event.Event.{Event as EventValue};
ghost use Rattle.armus_base.specs.Deadlocks.{IsListedOn};
ghost use Rattle.collector.specs.inside.Names.{AreFresh};
ghost use Rattle.collector.specs.calls.Passes.{NamesToo};

use armus_base::{Dead, Event, List, NoMemory, Status, TaskId};
use std::alloc::Global;

// The event of a task in a list of statuses.
fn event_in(list: &[Status], t: TaskId) -> Option<Event>
    ensures { MatchOption result ((e : EventValue) → IsListedOn list.now t.0 e → ⊥) (IsListedOn list.now t.0) }
{
    for status in list {
        if status.t == t {
            return Some(status.event);
        }
    }
    None
}

/// The dead tasks that are not named, in order, each with its event in the list.
pub(crate) fn fresh(
    alloc: Global,
    names: &[bool],
    list: &[Status],
    dead: &[TaskId],
) -> Result<List<Dead>, NoMemory>
    requires tasks { All (λ t. t.0 < length names.now) dead.now }
    requires listed { All (λ t. (e : EventValue) × IsListedOn list.now t.0 e) dead.now }
    ensures { IfOk result (AreFresh names.now list.now dead.now) }
{
    let mut all = Vec::new(alloc);
    for t in dead {
        if !names[t.0 as usize] {
            let Some(event) = event_in(list, *t) else {
                unreachable!()
            };
            all.push(Dead { t: *t, event })?;
        }
    }
    Ok(List::from_vec(all))
}

/// Names these tasks too.
pub(crate) fn name(names: &mut Vec<bool>, dead: &[TaskId])
    requires tasks { All (λ t. t.0 < vec_len names.old) dead.now }
    ensures count { vec_len names.new ≡ vec_len names.old }
    ensures named { NamesToo dead.now names.old.items names.new.items }
{
    for t in dead {
        names[t.0 as usize] = true;
    }
}
