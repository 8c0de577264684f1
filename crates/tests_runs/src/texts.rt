// Tasks, phases, events and statuses as text.
use armus_base::{Event, Phase, Status, TaskId};
use std::alloc::AllocError;

pub(crate) fn add_event(text: &mut String, event: Event) -> Result<(), AllocError> {
    write!(text, "p{}@{}", event.p.0, event.n)
}

pub(crate) fn add_task(text: &mut String, t: TaskId) -> Result<(), AllocError> {
    write!(text, "t{}", t.0)
}

// A phase, or that the task is no member.
pub(crate) fn add_phase(text: &mut String, phase: Option<Phase>) -> Result<(), AllocError> {
    match phase {
        Some(n) => write!(text, " {n}"),
        None => text.push_str(" -"),
    }
}

fn add_status(text: &mut String, status: &Status) -> Result<(), AllocError> {
    add_task(text, status.t)?;
    text.push_str(" ")?;
    add_event(text, status.event)?;
    for member in status.phases.as_slice() {
        write!(text, " p{}:{}", member.p.0, member.n)?;
    }
    text.push_str(";")
}

/// Each status: its event and its phases.
pub(crate) fn add_statuses(text: &mut String, statuses: &[Status]) -> Result<(), AllocError> {
    for status in statuses {
        add_status(text, status)?;
    }
    Ok(())
}
