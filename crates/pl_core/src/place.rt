// How far a task has come.

/// How far a task has come: the first `events` events of its code, an await counting two, and where `refused` is true then its refusal at its next op
/// and all its drops (this project's own).
#[derive(Clone, Copy, Debug, PartialEq, Eq)]
pub struct Place {
    pub events: u32,
    pub refused: bool,
}
