// The laws of origins of clock programs: each is the contract of a function with an empty body.
ghost use Rattle.clock_source_map.specs.calls.Laws.{AwaitsComeFromWaits, MovesComeFromStatements, OpsHaveStatements, StatementsHaveOffsets, TasksAndPhasersHaveStatements};

/// The text of a clock program has an offset for each of its statements.
pub fn statements_have_offsets()
    ensures { StatementsHaveOffsets }
{}

/// Each activity, clock and finish of a clock program is a task or a phaser of its plan, each op has an origin, and each move of an activity is one of the
/// kind of the statement from which it comes. An op that waits comes from the statement at which its activity is said to wait there.
pub fn ops_have_statements()
    ensures moves { MovesComeFromStatements }
    ensures ops { OpsHaveStatements }
    ensures waits { AwaitsComeFromWaits }
    ensures all { TasksAndPhasersHaveStatements }
{}
