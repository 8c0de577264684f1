// The text of a world.
ghost use Rattle.std.specs.Prelude.{◌<◌, length};

use crate::texts::{add_event, add_phase, add_statuses, add_task};
use armus_base::{Event, Final, NoMemory, PhaserId, TaskEnd, TaskId};
use pl_core::{Stand, World};
use std::alloc::{AllocError, Global};
use tests_board::finals::final_state;

// An event, and whether it is reached.
fn add_reached(text: &mut String, world: &World, event: Event) -> Result<(), AllocError> {
    add_event(text, event)?;
    if event.p.0 < world.plan().phasers() && world.is_reached(event) {
        text.push_str(" reached")?;
    }
    Ok(())
}

// Whether a task that awaits an event, and has not published it, impedes nobody, and which published task impedes it.
fn add_impeder(text: &mut String, world: &World, t: TaskId, event: Event) -> Result<(), AllocError>
    requires task { t.0 < length world.now.plan.parents }
{
    if event.p.0 >= world.plan().phasers() {
        return Ok(());
    }
    if world.impedes_nobody(t, event) {
        text.push_str(" impedes nobody")?;
    }
    if let Some(u) = world.published_impeder(t, event) {
        text.push_str(" impeded by ")?;
        add_task(text, u)?;
    }
    Ok(())
}

// How a task stands, and at which event.
fn add_stand(text: &mut String, world: &World, t: TaskId) -> Result<(), AllocError>
    requires task { t.0 < length world.now.plan.parents }
{
    let stand = world.stand(t);
    text.push_str(stand_word(stand))?;
    match stand {
        Stand::Unforked | Stand::Done | Stand::Ready => Ok(()),
        Stand::Refused(event) => add_event(text, event),
        Stand::Await(event) => {
            add_reached(text, world, event)?;
            add_impeder(text, world, t, event)
        }
        Stand::Waits(event) => add_reached(text, world, event),
    }
}

fn stand_word(stand: Stand) -> &'static str {
    match stand {
        Stand::Unforked => "unforked",
        Stand::Done => "done",
        Stand::Ready => "ready",
        Stand::Refused(_) => "refused ",
        Stand::Await(_) => "awaits ",
        Stand::Waits(_) => "waits ",
    }
}

// The index of a task's op, and whether it may go on.
fn add_op(text: &mut String, world: &World, t: TaskId) -> Result<(), AllocError>
    requires task { t.0 < length world.now.plan.parents }
{
    let sign = if world.enabled(t) { "+" } else { "." };
    write!(text, " op {} {sign}", world.op(t))
}

fn add_phases(text: &mut String, world: &World, t: TaskId) -> Result<(), AllocError>
    requires task { t.0 < length world.now.plan.parents }
{
    for p in 0..world.plan().phasers() {
        add_phase(text, world.phase(PhaserId(p), t))?;
    }
    Ok(())
}

// Each task: how it stands, the index of its op, and its phases.
fn add_tasks(text: &mut String, world: &World) -> Result<(), AllocError> {
    for number in 0..world.plan().tasks() {
        let t = TaskId(number);
        add_task(text, t)?;
        text.push_str(" ")?;
        add_stand(text, world, t)?;
        add_op(text, world, t)?;
        add_phases(text, world, t)?;
        text.push_str(";")?;
    }
    Ok(())
}

// The word for how a task has ended.
fn end_word(end: TaskEnd) -> &'static str {
    match end {
        TaskEnd::Done => "done ",
        TaskEnd::Blocked(_) => "blocked ",
        TaskEnd::Refused(_) => "refused ",
        TaskEnd::Unforked => "unforked ",
    }
}

// The ends and the statuses of a final state.
fn add_final(text: &mut String, end: &Final) -> Result<(), AllocError> {
    for end in end.ends.as_slice() {
        text.push_str(end_word(*end))?;
    }
    add_statuses(text, end.blocked.as_slice())
}

fn add_end(alloc: Global, text: &mut String, world: &World) -> Result<(), NoMemory> {
    if let Some(end) = final_state(alloc, world)? {
        add_final(text, &end)?;
    }
    Ok(())
}

/// The state, its statuses, and what it is as a final one, if no task may go on.
pub(crate) fn add_world(alloc: Global, text: &mut String, world: &World) -> Result<(), NoMemory> {
    add_tasks(text, world)?;
    text.push_str(" / ")?;
    add_statuses(text, world.statuses(alloc)?.as_slice())?;
    text.push_str(" / ")?;
    add_end(alloc, text, world)
}
