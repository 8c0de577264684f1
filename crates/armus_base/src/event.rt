// Events, which tasks await.
use crate::{Phase, PhaserId};

/// The event p@n: it is reached when every member of `p` has a phase of at least `n` (PPoPP 2015).
/// Events are ordered by phaser and then by phase.
#[derive(Clone, Copy, Debug, PartialEq, Eq, PartialOrd, Ord)]
pub struct Event {
    pub p: PhaserId,
    pub n: Phase,
}
