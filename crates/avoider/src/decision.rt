// What was decided on an await.
use armus_base::Event;
use verdict::Cycle;

/// What was decided on the await of a task.
#[derive(Drop)]
pub enum Decision {
    /// The task has published this event.
    Published(Event),
    /// The task is refused; with it published, this cycle would explain the deadlock.
    Refused(Cycle),
}
