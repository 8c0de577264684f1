// The laws of explanations of clock texts: each is the contract of a function with an empty body.
ghost use Rattle.explain_clock.specs.calls.Laws.{ClockExplanationExists, OneClockExplanation};
ghost use Rattle.explain_clock.specs.calls.ParagraphLaws.{EachHasItsParagraph, MembersWait, ThoseBehindAreNamed};

/// The places to which a run of a clock text's plan has come have one explanation.
pub fn one_clock_explanation()
    ensures one { OneClockExplanation }
    ensures some { ClockExplanationExists }
{}

/// In the explanation of a final state of a clock text each activity that waits or is not started has its paragraph, and one that has ended has none. To who
/// waits those are named that are members of the clock or finish with a phase below the one that is waited for; and they all wait themselves, since who has
/// ended is a member of nothing.
pub fn those_behind_are_named()
    ensures paragraphs { EachHasItsParagraph }
    ensures named { ThoseBehindAreNamed }
    ensures wait { MembersWait }
{}
