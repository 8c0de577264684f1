// Tasks picked by an answer for each.
ghost use Rattle.std.specs.Prelude.{◌≤◌, length, IfOk};
ghost use Rattle.dep_state.specs.calls.Picks.{IsPick};

use armus_base::TaskId;
use std::alloc::{AllocError, Global};

/// The tasks whose answer is true, in their order.
pub fn picked(alloc: Global, tasks: &[TaskId], answers: &[bool]) -> Result<Vec<TaskId>, AllocError>
    requires { length tasks.now ≤ length answers.now }
    ensures { IfOk result (λ picked. IsPick tasks.now answers.now picked.items) }
{
    let mut picked = Vec::new(alloc);
    for i in 0..tasks.len() {
        if answers[i] {
            picked.push(tasks[i])?;
        }
    }
    Ok(picked)
}
