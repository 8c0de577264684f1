// How many workers and sites a run may have.

/// The most workers of a run.
pub const MAX_WORKERS: u8 = 64;

/// The most sites of a run.
pub const MAX_SITES: u32 = 8;
