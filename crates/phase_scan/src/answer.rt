// What a look answers.
use armus_base::{Phase, TaskId};

/// What a look at the awaited phaser found.
#[derive(Clone, Copy, Debug, PartialEq, Eq)]
pub enum Look {
    /// The awaited event is reached, and stays reached.
    Reached,
    /// This member was found at this phase, which is below the awaited one.
    Behind { t: TaskId, phase: Phase },
}
