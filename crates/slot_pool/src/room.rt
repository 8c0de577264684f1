// Want of memory that loses no record.

/// There was no memory for a pool. Its first record comes back.
#[derive(Drop)]
pub struct NoRoom<R> {
    pub item: R,
}
