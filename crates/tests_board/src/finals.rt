// The final state of a world.
use armus_base::{Final, NoMemory, TaskId};
use pl_core::World;
use std::alloc::Global;

/// The final state; none where a task may go on.
pub fn final_state(alloc: Global, world: &World<'_>) -> Result<Option<Final>, NoMemory> {
    for t in 0..world.plan().tasks() {
        if world.enabled(TaskId(t)) {
            return Ok(None);
        }
    }
    Ok(Some(world.finish(alloc)?))
}
