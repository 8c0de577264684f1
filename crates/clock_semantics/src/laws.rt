// The laws over the definition of the unfolding: each is the contract of a function with an empty body.
ghost use Rattle.clock_semantics.specs.calls.ClockTests.{ComesByTable, FaultsByTable, StopsWithRoom, StopsWithoutRoom};
ghost use Rattle.clock_semantics.specs.calls.ClockUnfolds.{ClockFaultIsFirst, UnfoldingIsUnfolded};
ghost use Rattle.clock_semantics.specs.calls.Laws.{ClockFaultIsOfText, ClockPlanIsChecked, EachActivityStops};
ghost use Rattle.clock_semantics.specs.calls.Making.{ComesAreMoves};
ghost use Rattle.clock_semantics.specs.calls.WorkedClocks.{ArePlanned, ClockLimitsHold, HaveMoves, worked_clock_faults, worked_clock_plans, worked_moves};

/// The plan to which a clock program unfolds is a checked plan.
pub fn clock_plan_is_checked()
    ensures { ClockPlanIsChecked }
{}

/// A fault of a clock program has one of the nine kinds, and the number of a statement of the program; or, with the kind of an op too many, the number 0:
/// the end of activity 0.
pub fn clock_fault_is_of_text()
    ensures { ClockFaultIsOfText }
{}

/// The unfolding goes through every activity that is started, to its end: the moves of each end with its one stop.
pub fn each_activity_stops()
    ensures { EachActivityStops }
{}

/// What a coming of the unfolding means, in other words than its computation: it passes the rows of a table of tests one by one and does what its statement
/// says, or it answers the first row that is at fault, with the statement's number; and an activity ends where there is room for the ops that leave each of
/// its clocks and finishes. Where a coming answers an unfolding, the move is one that the activity may make, by the clocks of its names, the finishes that
/// govern it, and the room that is left.
pub fn clock_coming_by_table()
    ensures answer { ComesByTable }
    ensures fault { FaultsByTable }
    ensures ends { StopsWithRoom }
    ensures full { StopsWithoutRoom }
    ensures moves { ComesAreMoves }
{}

/// A clock program has just the unfolding in which each activity, in order of number, goes from point to point of its text up to its end, the finishes that
/// govern it are those around the point, and no row of the table of tests fails; and it has just the first fault that stands on this way.
pub fn clock_unfolding_by_points()
    ensures unfolds { UnfoldingIsUnfolded }
    ensures fault { ClockFaultIsFirst }
{}

/// Small clock programs with their plans and moves, and with first faults that tell the orders of the tests; and one step more in a state at a limit.
pub fn worked_clock_programs()
    ensures plans { ArePlanned worked_clock_plans }
    ensures moves { HaveMoves worked_moves }
    ensures faults { ArePlanned worked_clock_faults }
    ensures limits { ClockLimitsHold }
{}
