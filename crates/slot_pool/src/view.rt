// What a worker's seat knows, as plain data that exists in proofs alone: no value of this type is made.
use std::collections::LinkedList;

/// What a worker's seat knows of its pool.
pub struct PoolView {
    /// The worker's number; several before the workers part and after they are joined, and none of a seat that was joined to another.
    pub numbers: LinkedList<u32>,
    /// How many workers the pool has.
    pub workers: u32,
    /// Tasks of which the word is no longer 0.
    pub knows: LinkedList<u32>,
    /// The tasks that it has placed, those that it is placing among them.
    pub placed: LinkedList<u32>,
    /// The tasks that it has now, the one that it took last first.
    pub has: LinkedList<u32>,
    /// Each step that it made, the last one first: on which task's word, and what a compare and exchange found in it; None where the record went home.
    pub steps: LinkedList<(u32, Option<u64>)>,
}
