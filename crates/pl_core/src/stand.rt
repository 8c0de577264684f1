// How a task stands.
use armus_base::Event;

/// How a task stands (this project's own).
#[derive(Clone, Copy, Debug, PartialEq, Eq)]
pub enum Stand {
    /// No task has forked it.
    Unforked,
    /// Its code is done.
    Done,
    /// Its await of this event was refused.
    Refused(Event),
    /// Its next op is no await.
    Ready,
    /// Its next op is an await of this event, which is not published.
    Await(Event),
    /// It is published on this event.
    Waits(Event),
}
