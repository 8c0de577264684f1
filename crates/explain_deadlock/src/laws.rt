// Laws of explanations.
ghost use Rattle.explain_deadlock.specs.calls.Laws.{ChainsEnd, DeadlockStandsFirst, ExplanationExists, ForkersAreToCome, HeldAreNotImpededByDead, NothingIsSaidTwice, OneExplanation, ShownAreDead, WaitingIsTold};
ghost use Rattle.explain_deadlock.specs.Laws.{DeadlockIsReported, EachHasAParagraph, EachImpederIsTold, NobodyIsHeldUpThere, NobodyWaitsThere, OnlyMakersAreMembers, SaysWhatIsSo, ShownAreShortest, WaitAlike};

/// The places of a text's plan have one explanation at most.
pub fn one_explanation()
    ensures { OneExplanation }
{}

/// The end of each maximal run of a text's plan has an explanation.
pub fn explanation_exists()
    ensures { ExplanationExists }
{}

/// Each task that is not done stands in a paragraph.
pub fn each_has_a_paragraph()
    ensures { EachHasAParagraph }
{}

/// A paragraph says of each of its tasks what is so, and each of them is not done.
pub fn says_what_is_so()
    ensures { SaysWhatIsSo }
{}

/// All tasks of the paragraph of a task that waits stand as it does, with its impeders and its next.
pub fn wait_alike()
    ensures { WaitAlike }
{}

/// Nothing is said in two paragraphs.
pub fn nothing_is_said_twice()
    ensures { NothingIsSaidTwice }
{}

/// The impeders of a task are all named in its paragraph, each once, and nobody else is.
pub fn each_impeder_is_told()
    ensures { EachImpederIsTold }
{}

/// In the paragraph of a deadlocked task a group of deadlocked impeders stands first.
pub fn deadlock_stands_first()
    ensures { DeadlockStandsFirst }
{}

/// Somebody waits for ever just where a task waits.
pub fn somebody_waits()
    ensures { WaitingIsTold }
{}

/// Where a task is dead, the verdict shows a circle: its tasks are dead, and each is impeded by the one behind it, the last by the first. It begins as the cycle of
/// the report, and no circle that begins so is shorter.
pub fn deadlock_is_shown()
    ensures reported { DeadlockIsReported }
    ensures dead { ShownAreDead }
    ensures shortest { ShownAreShortest }
{}

/// No impeder of a held task is deadlocked.
pub fn held_are_not_impeded_by_dead()
    ensures { HeldAreNotImpededByDead }
{}

/// At the end of a maximal run who would fork a task that is not forked yet waits, or is not forked yet itself; and where the walk comes to an end, a held task
/// waits for one that has ended or is never forked.
pub fn walks_end()
    ensures forkers { ForkersAreToCome }
    ensures chains { ChainsEnd }
{}

/// In no state of a run anybody waits at a phaser that no op of the plan awaits.
pub fn nobody_waits_there()
    ensures { NobodyWaitsThere }
{}

/// In each state of a run its maker alone is a member of a phaser on which no op of the plan registers a task.
pub fn only_makers_are_members()
    ensures { OnlyMakersAreMembers }
{}

/// In each state of a run whoever waits at an await at which nobody ever has to wait may go on.
pub fn nobody_is_held_up_there()
    ensures { NobodyIsHeldUpThere }
{}
