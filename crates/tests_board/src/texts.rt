// What rows say a load or a look finds; and what is found, as text.
use armus_base::{Dead, NoMemory, Phase, Status, TaskId};
use board::Seen;
use phase_scan::Look;
use std::alloc::{AllocError, Global};
use tests_rows::{add_event, add_tasks, columns, cut, event, first_word, number};

// The text up to the next bar, and the rest.
pub(crate) fn column(row: &str) -> (&str, &str) {
    let (column, rest) = cut(row, "|");
    (column.trim(), rest)
}

pub(crate) fn phase(text: &str) -> Option<Phase> {
    match text {
        "none" => None,
        _ => Some(number(text)),
    }
}

pub(crate) fn seen(text: &str) -> Seen {
    let (kind, at) = first_word(text);
    match kind {
        "waits" => Seen::Waits(event(at)),
        "refused" => Seen::Refused(event(at)),
        _ => Seen::Idle,
    }
}

pub(crate) fn look(text: &str) -> Look {
    let (kind, t, n) = columns(text.trim(), " ");
    match kind {
        "behind" => Look::Behind {
            t: TaskId(number(t)),
            phase: number(n),
        },
        _ => Look::Reached,
    }
}

pub(crate) fn add_dead(text: &mut String, dead: &[Dead]) -> Result<(), AllocError> {
    for one in dead {
        add_tasks(text, &[one.t])?;
        add_event(text, one.event)?;
    }
    Ok(())
}

fn add_status(text: &mut String, status: &Status) -> Result<(), AllocError> {
    add_tasks(text, &[status.t])?;
    add_event(text, status.event)?;
    for member in status.phases.as_slice() {
        write!(text, "{}@{} ", member.p.0, member.n)?;
    }
    text.push_str("; ")
}

// Whether these are the statuses: of each a task, its event and its phases, as `1 0@1 0@1 1@0`, with a semicolon after it.
pub(crate) fn statuses_are(
    alloc: Global,
    statuses: &[Status],
    wanted: &str,
) -> Result<bool, NoMemory> {
    let mut text = String::new(alloc);
    for status in statuses {
        add_status(&mut text, status)?;
    }
    Ok(text.as_str().trim() == wanted)
}
