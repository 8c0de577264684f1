// What a load of an await word finds.
use armus_base::Event;

/// What a load of a task's await word found.
#[derive(Clone, Copy, Debug, PartialEq, Eq)]
pub enum Seen {
    /// It waits for nothing.
    Idle,
    /// It is published on this event.
    Waits(Event),
    /// It was refused at this event.
    Refused(Event),
}
