// Laws of decisions.
ghost use Rattle.avoider.specs.calls.Decisions.{OneOutcome};
ghost use Rattle.avoider.specs.calls.Kept.{SamePairs};
ghost use Rattle.avoider.specs.calls.OnBoard.{CollectedHaveNoCycle};

/// The statuses on which a decision rests tell one outcome, whichever graph of them is asked: whether the task is refused, and the cycle of the
/// refusal.
pub fn outcomes_are_one()
    ensures { OneOutcome }
{}

/// Who waits for whom in a state is told by the phases on awaited phasers alone: the statuses with all phases have the same pairs of the wait-for graph.
pub fn awaited_phasers_tell_all_pairs()
    ensures { SamePairs }
{}

/// On a board that avoids deadlock the statuses that a collect has found have no cycle of the wait-for graph, whoever collects. So those that a holder of the
/// lock has found of the others have none.
pub fn collected_statuses_have_no_cycle()
    ensures { CollectedHaveNoCycle }
{}
