// Laws of the outputs of a text, as contracts of functions with an empty body.
ghost use Rattle.explain.specs.ClockExplained.{AnswersClock};
ghost use Rattle.explain.specs.Outputs.{AnswersAvoided, AnswersEither, AnswersStepsOf, AnswersText};
ghost use Rattle.explain.specs.ShownShort.{IsShownBrief, IsShownShort};
ghost use Rattle.explain.specs.calls.Laws.{EachHasOutput, IsOneOutput};

/// A text of PL has one whole output at most, with one status; and it has one: it is explained, or refused.
pub fn one_output()
    ensures one { IsOneOutput AnswersText }
    ensures exists { EachHasOutput AnswersText }
{}

/// A text of either language has one whole output at most, with one status; and it has one: it is explained in its language, or refused.
pub fn one_either_output()
    ensures one { IsOneOutput AnswersEither }
    ensures exists { EachHasOutput AnswersEither }
{}

/// A text has one whole output at most, with one status, where the steps of its run are shown; and it has one: these and its explanation, or its refusal.
pub fn one_steps_output()
    ensures one { IsOneOutput AnswersStepsOf }
    ensures exists { EachHasOutput AnswersStepsOf }
{}

/// A text has one whole output at most, with one status, where its run that avoids deadlock is explained; and it has one: the explanation of this run, or its
/// refusal.
pub fn one_avoided_output()
    ensures one { IsOneOutput AnswersAvoided }
    ensures exists { EachHasOutput AnswersAvoided }
{}

/// A clock text has one whole output at most, with one status; and it has one: it is explained, or refused.
pub fn one_clock_output()
    ensures one { IsOneOutput AnswersClock }
    ensures exists { EachHasOutput AnswersClock }
{}

/// Of an explanation at most 60 lines are shown, where neither all of it nor less is asked for; and one more than stand in front of its paragraphs, where only these
/// and its hint are.
pub fn shown_short()
    ensures usual { IsShownShort }
    ensures short { IsShownBrief }
{}
