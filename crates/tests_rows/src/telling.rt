// Numbers, tasks and events as text, with a blank behind each.
use armus_base::{Event, TaskId};
use std::alloc::AllocError;
use std::fmt::Display;

/// Appends numbers.
pub fn add_numbers<T: Display>(text: &mut String, numbers: &[T]) -> Result<(), AllocError> {
    for n in numbers {
        write!(text, "{n} ")?;
    }
    Ok(())
}

/// Appends the numbers of tasks.
pub fn add_tasks(text: &mut String, tasks: &[TaskId]) -> Result<(), AllocError> {
    for t in tasks {
        write!(text, "{} ", t.0)?;
    }
    Ok(())
}

/// Appends an event, as `0@1`.
pub fn add_event(text: &mut String, event: Event) -> Result<(), AllocError> {
    write!(text, "{}@{} ", event.p.0, event.n)
}
