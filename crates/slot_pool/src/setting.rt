// What the rule of a pool is told once.

/// How many tasks and workers a pool has.
#[derive(Clone, Copy)]
pub struct PoolSetting {
    pub tasks: u32,
    pub workers: u32,
}
