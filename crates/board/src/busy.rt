// What a try for the lock finds.
use armus_base::TaskId;

/// Another task holds the lock.
#[derive(Clone, Copy, Debug, PartialEq, Eq)]
pub struct Busy {
    /// Which one.
    pub holder: TaskId,
}
