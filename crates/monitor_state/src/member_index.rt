// Members that do not run, and tasks that wait, by phaser and phase.

use monitor_members::PhaserIndex;
use std::alloc::Global;
use std::collections::BTreeSet;

/// The numbers of the tasks and wildcards that do not run, at the phases that they have on phasers, and of the tasks that wait, at the phases for which they wait.
#[derive(Drop)]
pub struct MemberIndex {
    pub(crate) resting: PhaserIndex,
    pub(crate) waiting: PhaserIndex,
}

impl MemberIndex {
    ghost use Rattle.std.specs.Prelude.{◌≡◌, [], ℕ, List};
    ghost use Rattle.std.specs.List.{list_any};
    ghost use Rattle.std.specs.Option.{option_copied};
    ghost use Rattle.monitor_laws.specs.States.{Participant as Listed};
    ghost use Rattle.monitor_members.specs.Noted.{pairs_of};
    ghost use Rattle.monitor_state.specs.Indexes.{AreResting, IsIndexOf, waits_above};

    /// Nobody.
    pub(crate) fn new(alloc: Global) -> MemberIndex
        ensures { IsIndexOf [] result }
    {
        MemberIndex {
            resting: PhaserIndex::new(alloc),
            waiting: PhaserIndex::new(alloc),
        }
    }

    /// The phases that those who do not run have on phaser p, each with a number, in their order; none where all its members run.
    pub fn resting_at(&self, p: &[u8]) -> Option<&BTreeSet<(u32, u64)>>
        ensures { (us : List Listed) → IsIndexOf us self.now → AreResting us p.now (pairs_of (option_copied result)) }
    {
        self.resting.pairs_at(p)
    }

    /// Whether somebody waits for a phase of phaser p above n, so for each member of it with phase n.
    pub fn is_awaited_above(&self, p: &[u8], n: u32) -> bool
        ensures { (us : List Listed) → IsIndexOf us self.now → result ≡ list_any (waits_above p.now n) us }
    {
        self.waiting.has_above(p, n)
    }
}
