// Events and statuses that a text tells: 0@1 is phase 1 of phaser 0, and a status is a task, its event and its phases, as `1 0@1 0@1 1@0`.
use crate::digits::number;
use crate::parts::{columns, cut, first_word};
use armus_base::{Event, List, Member, NoMemory, PhaserId, Status, TaskId};
use std::alloc::Global;

/// The event that a text tells.
pub fn event(text: &str) -> Event {
    let (p, n) = cut(text, "@");
    Event {
        p: PhaserId(number(p)),
        n: number(n),
    }
}

/// The task and the event that a text tells.
pub fn task_and_event(text: &str) -> (TaskId, Event) {
    let (t, awaited) = first_word(text);
    (TaskId(number(t)), event(awaited))
}

fn phases(alloc: Global, text: &str) -> Result<List<Member>, NoMemory> {
    let mut all = List::new(alloc);
    for word in text.split_whitespace() {
        let Event { p, n } = event(word);
        all.push(Member { p, n })?;
    }
    Ok(all)
}

fn status(alloc: Global, text: &str) -> Result<Status, NoMemory> {
    let (t, awaited, members) = columns(text, " ");
    Ok(Status {
        t: TaskId(number(t)),
        event: event(awaited),
        phases: phases(alloc, members)?,
    })
}

/// The statuses that a text tells, between which commas stand.
pub fn statuses(alloc: Global, text: &str) -> Result<List<Status>, NoMemory> {
    let mut all = List::new(alloc);
    for part in text.split(",") {
        if !part.trim().is_empty() {
            all.push(status(alloc, part.trim())?)?;
        }
    }
    Ok(all)
}
