// Final states as text: how each task has ended, as `1@1 !0@1 done unforked`, and the statuses of those that wait, as `0 1@1 0@0 1@1`, which commas part. 1@1
// is phase 1 of phaser 1, ! stands before an event that was refused, and a status is a task, its event and its phases.
use armus_base::{Final, List, NoMemory, TaskEnd};
use std::alloc::Global;
use tests_rows::{event, statuses};

fn task_end(word: &str) -> TaskEnd {
    match word {
        "done" => TaskEnd::Done,
        "unforked" => TaskEnd::Unforked,
        _ => match word.strip_prefix("!") {
            Some(refused) => TaskEnd::Refused(event(refused)),
            None => TaskEnd::Blocked(event(word)),
        },
    }
}

fn ends(alloc: Global, text: &str) -> Result<List<TaskEnd>, NoMemory> {
    let mut all = List::new(alloc);
    for word in text.split_whitespace() {
        all.push(task_end(word))?;
    }
    Ok(all)
}

pub(crate) fn final_state(alloc: Global, ended: &str, waiting: &str) -> Result<Final, NoMemory> {
    Ok(Final {
        ends: ends(alloc, ended)?,
        blocked: statuses(alloc, waiting)?,
    })
}
