// Laws of messages.
ghost use Rattle.monitor_words.specs.Laws.{HasOneCircle, HasOneMessage, HasOneReason, HasSomeCircle, HasSomeReason, NumbersAscend};
ghost use Rattle.monitor_words.specs.calls.Joins.{JoinsList, JoinsRefusal, JoinsReport, JoinsResolved, JoinsTold};
ghost use Rattle.monitor_words.specs.Worked.{WorkedCircle, WorkedCrosswise, WorkedEnded, WorkedLock, WorkedRefusal};

/// Who stands first in the list has the lower number.
pub fn numbers_ascend()
    ensures { NumbersAscend }
{}

/// Of the circles of a task, if it has any, just one is the first of the shortest.
pub fn one_circle()
    ensures one { HasOneCircle }
    ensures some { HasSomeCircle }
{}

/// A task has just one of the four reasons.
pub fn one_reason()
    ensures one { HasOneReason }
    ensures some { HasSomeReason }
{}

/// A line has one message at most.
pub fn one_message()
    ensures { HasOneMessage }
{}

/// What is told, refused, reported and listed in states of worked traces.
pub fn worked_messages()
    ensures circle { WorkedCircle }
    ensures refusal { WorkedRefusal }
    ensures lock { WorkedLock }
    ensures ended { WorkedEnded }
    ensures crosswise { WorkedCrosswise }
{}

/// What the code writes of the values of a state is what the definitions of a message say of that state.
pub fn values_are_written()
    ensures told { JoinsTold }
    ensures refusal { JoinsRefusal }
    ensures resolved { JoinsResolved }
    ensures report { JoinsReport }
    ensures list { JoinsList }
{}
