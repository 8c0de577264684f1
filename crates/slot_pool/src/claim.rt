// What a claim answers.

/// What a worker finds at the slot of a task.
#[derive(Drop)]
pub enum Claim<R> {
    /// The record was at home, and is the worker's until it puts it back.
    Got(R),
    /// The worker with this number has the record, or is placing it.
    Held { by: u32 },
    /// Nobody has placed a record of the task yet.
    Empty,
}
