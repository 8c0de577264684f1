// Runs by pools and runs that avoid deadlock, and how they end.
ghost use Rattle.std.specs.Prelude.{◌≡◌, ◌≤◌, IfSome, false};

use crate::texts::add_event;
use adaptive::Wanted;
use armus_base::{Final, Gate, NoMemory, Plan, TaskEnd};
use std::alloc::{AllocError, Global};
use std::sync::Wait;
use std::thread::Threads;
use task_runner::{RunOptions, run_avoid, run_pool};

fn add_end(text: &mut String, end: TaskEnd) -> Result<(), AllocError> {
    match end {
        TaskEnd::Done => text.push_str("done"),
        TaskEnd::Blocked(event) => {
            text.push_str("blocked ")?;
            add_event(text, event)
        }
        TaskEnd::Refused(event) => {
            text.push_str("refused ")?;
            add_event(text, event)
        }
        TaskEnd::Unforked => text.push_str("unforked"),
    }
}

/// How each task has ended, and how many are blocked.
pub(crate) fn add_final(text: &mut String, end: &Final) -> Result<(), AllocError> {
    for end in end.ends.as_slice() {
        add_end(text, *end)?;
        text.push_str(", ")?;
    }
    write!(text, "{} blocked", end.blocked.as_slice().len())
}

/// A run with so many workers.
pub(crate) fn options_of(workers: u32) -> Option<RunOptions>
    ensures workers { IfSome result (λ options. 1 ≤ options.workers × options.workers ≤ 64) }
    ensures quiet { IfSome result (λ options. options.live ≡ false) }
{
    if workers < 1 || workers > 64 {
        return None;
    }
    Some(RunOptions {
        workers: workers as u8,
        wanted: Wanted::Auto,
        live: false,
    })
}

/// The end of a run of this kind by so many workers.
pub(crate) fn run<R: Threads + Wait + Sync, G: Gate>(
    rt: &R,
    alloc: Global,
    plan: &Plan,
    kind: &str,
    workers: u32,
    gate: &G,
) -> Result<Final, NoMemory> {
    let Some(options) = options_of(workers) else {
        return Err(NoMemory);
    };
    match kind {
        "pool" => run_pool(rt, alloc, plan, &options, gate),
        _ => run_avoid(rt, alloc, plan, &options, gate),
    }
}
