// What is said of a task.

/// Who would fork a task, but for the forker's number.
#[derive(PartialEq, Eq, Hash, Drop)]
pub struct ForkingWords {
    /// The name that its `newTid` gives the forker.
    pub name: Vec<u8>,
    /// The place of the fork, where it is told.
    pub at: Vec<u8>,
    /// How the forker stands.
    pub stands: Vec<u8>,
}

/// What is said of a task, but for its number and that of its forker.
#[derive(PartialEq, Eq, Hash, Drop)]
pub struct Saying {
    /// The place with which its paragraph begins.
    pub front: Vec<u8>,
    /// The name that its `newTid` gives it.
    pub name: Vec<u8>,
    /// Its phase, where it impedes an event.
    pub phase: Option<u32>,
    /// What is said of it.
    pub words: Vec<u8>,
    /// Phaser and phase of the event that it awaits.
    pub event: Option<(u32, u32)>,
    /// Who would fork it.
    pub forking: Option<ForkingWords>,
    /// What it does next to the event's phaser, where it impedes an event.
    pub next: Vec<u8>,
}
