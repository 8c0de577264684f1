// Laws of agreement.
ghost use Rattle.armus_base.specs.calls.AgreementLaws.{AvoidedComesAsFar, AvoidedEndsAlike, CycleIsDeadlocked, CycleIsDeadlockedIn, DeadIsFinal, DeadIsFinalAtLawful, DeadIsNeverPassed, DoneStaysDone, FinalIsAvoided, HeldHasEnd, RefusedEnds, RefusedWasDead, RefusedWasNotDone, RefusedWasStuck, RefusedWhereDead, WalkCycleWaits};

/// Avoidance agrees with the run: where nobody is dead in the final state, it is the end of each avoided run, and of one at least; and somebody is refused at
/// the end of an avoided run exactly where somebody is dead in the final state. The ends tell who is refused.
pub fn avoidance_agrees()
    ensures alike { AvoidedEndsAlike }
    ensures refused { RefusedWhereDead }
    ensures exists { FinalIsAvoided }
    ensures ends { RefusedEnds }
{}

/// The dead of a plain run are dead in the final state: whoever is dead after some of its steps, or in a lawful state of a board that detects deadlock.
pub fn dead_is_final()
    ensures runs { DeadIsFinal }
    ensures lawful { DeadIsFinalAtLawful }
{}

/// Nobody who is done is harmed: a task that is done in the final state is done at the end of each avoided run, since no plain run passes a place at which a
/// task is dead after any run, so that where an avoided run has ended each task has come as far as in any plain run, or is refused before its block.
pub fn done_stays_done()
    ensures never { DeadIsNeverPassed }
    ensures places { AvoidedComesAsFar }
    ensures done { DoneStaysDone }
{}

/// Who pays: a task that is refused at the end of an avoided run is stuck in the final state, that is unforked, dead, or waiting, through tasks that wait, for
/// an unforked one; so it is not done there. If it is forked there, and only forked tasks are members, it is dead there.
pub fn refused_was_stuck()
    ensures stuck { RefusedWasStuck }
    ensures not_done { RefusedWasNotDone }
    ensures dead { RefusedWasDead }
{}

/// Held has an end: a held task of the final state waits, through held ones, for one that is done or unforked.
pub fn held_has_end()
    ensures { HeldHasEnd }
{}

/// A cycle is the proof of a deadlock: the tasks of a cycle of statuses are a deadlocked set of the statuses, and of the state whose final value has them.
pub fn cycle_is_deadlocked()
    ensures statuses { CycleIsDeadlocked }
    ensures state { CycleIsDeadlockedIn }
    ensures walk { WalkCycleWaits }
{}
