// How a run is made.
use adaptive::Wanted;

/// How a run is made.
#[derive(Clone, Copy, Debug, PartialEq, Eq)]
pub struct RunOptions {
    /// How many workers take turns, from 1 to 64.
    pub workers: u8,
    /// The graph that is wanted.
    pub wanted: Wanted,
    /// Whether dead tasks are told while the run goes on.
    pub live: bool,
}
