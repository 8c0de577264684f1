// What one look at a site's tasks found.
use armus_base::{List, Status};

/// The statuses of a site's waiting tasks, with all their phases, as one look at its tasks found them.
#[derive(Drop)]
pub struct Snapshot {
    /// the number of the site, from 0
    pub site: u32,
    /// the statuses of those of its tasks that were found waiting, in order of task
    pub statuses: List<Status>,
}
