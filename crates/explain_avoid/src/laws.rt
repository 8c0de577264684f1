// Laws of explanations of runs that avoid deadlock, as contracts of functions with an empty body.
ghost use Rattle.explain_avoid.specs.calls.Laws.{AvoidedExplanationExists, EachIsRefusedOnce, EachIsToldOnce, OneAvoidedExplanation};

/// A run has one explanation at most, and each serial avoided run that has ended has one.
pub fn one_avoided_explanation()
    ensures one { OneAvoidedExplanation }
    ensures exists { AvoidedExplanationExists }
{}

/// A run refuses each task at most once; and its explanation names just those that are refused at its end, with one paragraph of a refusal for each, in the
/// order of the decisions, and one behind for each other task that is not done.
pub fn each_is_told_once()
    ensures refused { EachIsRefusedOnce }
    ensures told { EachIsToldOnce }
{}
