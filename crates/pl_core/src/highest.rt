// The highest phase of each phaser on which a task was ever published. It is never lowered: an event that is withdrawn was reached, and what is
// reached stays reached, so no member of its phaser is below it any more.
ghost use Rattle.std.specs.Prelude.{◌≡◌, ℕ, ◌<◌, ◌≤◌, false, Some, IfOk, length};
ghost use Rattle.armus_base.specs.declared.event.Event.{Event};
ghost use Rattle.pl_core.specs.inside.Highest.{AreHighest, highest_at};

use crate::task::TaskRecord;
use armus_base::{Event, NoMemory};
use std::alloc::Global;

/// A task is published on the event.
pub(crate) fn raise(highest: &mut Vec<u32>, event: Event)
    ensures len { length highest.new.items ≡ length highest.old.items }
    ensures reaches { event.p.0 < length highest.old.items → event.n ≤ highest_at highest.new.items event.p.0 }
    ensures keeps { (p : ℕ) → highest_at highest.old.items p ≤ highest_at highest.new.items p }
{
    let p = event.p.0 as usize;
    if p < highest.len() && highest[p] < event.n {
        highest[p] = event.n;
    }
}

// The task stands so.
fn raise_for(highest: &mut Vec<u32>, task: TaskRecord)
    ensures len { length highest.new.items ≡ length highest.old.items }
    ensures reaches { (e : Event) → task.place.refused ≡ false → task.event ≡ Some e → e.p.0 < length highest.old.items → e.n ≤ highest_at highest.new.items e.p.0 }
    ensures keeps { (p : ℕ) → highest_at highest.old.items p ≤ highest_at highest.new.items p }
{
    match task.event {
        Some(event) => raise(highest, event),
        None => {}
    }
}

/// The highest phases where the tasks stand so.
pub(crate) fn highest_of(
    alloc: Global,
    tasks: &[TaskRecord],
    phasers: usize,
) -> Result<Vec<u32>, NoMemory>
    ensures { IfOk result (λ highest. AreHighest tasks.now phasers highest.items) }
{
    let mut highest = vec![in alloc; 0u32; phasers]?;
    for k in 0..tasks.len() {
        raise_for(&mut highest, tasks[k]);
    }
    Ok(highest)
}
