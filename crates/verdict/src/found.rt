// Cycles of waiting tasks.
use armus_base::{Event, List, TaskId};

/// Tasks each of which awaits an event that the next one impedes, the last one the first, with their events.
#[derive(Drop)]
pub struct Cycle {
    /// the tasks, each once
    pub tasks: List<TaskId>,
    /// the event that each of the tasks awaits
    pub events: List<Event>,
}
