// What is found of a stuck task.

/// Why a task is stuck; places in the list stand for tasks and wildcards.
#[derive(Drop)]
pub enum FoundReason {
    /// It stands in a circle: the places of those behind it, each stopped by the next, and the last by the task itself. None where it stops itself.
    InCircle(Vec<usize>),
    /// Who stands at this place keeps it waiting, and has ended.
    EndedKeeps(usize),
    /// The task at this place stops it, and is stuck.
    StuckStops(usize),
    /// Somebody is missing who cannot come any more.
    SomebodyMissing,
}
