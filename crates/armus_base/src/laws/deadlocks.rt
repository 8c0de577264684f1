// Laws of deadlock.
ghost use Rattle.armus_base.specs.calls.DeadlockLaws.{CollectedIsDead, CollectedIsDeadAtReachable, DeadStays, DeadStaysAtReachable, NobodyIsDead, NobodyIsDeadAtLawful, NobodyIsKnownDead, OnlyBlocksKill};

/// Only a block kills: a legal step of any other kind makes no task dead that was not dead before.
pub fn only_blocks_kill()
    ensures { OnlyBlocksKill }
{}

/// The dead stay dead: a task that is dead after a run, or at reachable places, is dead and stands at the same place wherever all places are at or after.
pub fn dead_stays()
    ensures runs { DeadStays }
    ensures places { DeadStaysAtReachable }
{}

/// A collected deadlock stands: a set that is deadlocked in statuses found at different moments is deadlocked in each later state, and its tasks stand
/// where they were found waiting.
pub fn collected_is_dead()
    ensures runs { CollectedIsDead }
    ensures places { CollectedIsDeadAtReachable }
{}

/// Where deadlock is avoided nobody is dead: after no avoided run, in no lawful state of a board that avoids it, and nobody is known to be dead there.
pub fn nobody_is_dead()
    ensures runs { NobodyIsDead }
    ensures lawful { NobodyIsDeadAtLawful }
    ensures known { NobodyIsKnownDead }
{}
