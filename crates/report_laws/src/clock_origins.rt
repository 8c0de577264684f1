// Laws of what explanations of clock texts tell of clocks, finishes and waits.
ghost use Rattle.report_laws.specs.ClocksTold.{ClocksAreToldByTheirMoves};
ghost use Rattle.report_laws.specs.PendingTold.{PendingIsRemembered};
ghost use Rattle.report_laws.specs.WaitsTold.{OpsAreToldByTheirMoves, WaitsAreToldByTheirMoves};
ghost use Rattle.report_laws.specs.calls.WaitsStand.{OthersAreToldNoWait, WaitsAreToldWhereTheyStand};

/// The statement and the name that are told of a clock or finish are those at which its maker makes the move that makes it; a finish has no name.
pub fn clocks_come_from_what_is_told()
    ensures { ClocksAreToldByTheirMoves }
{}

/// The statement that is told of an op of an activity is the one at which it makes the move to which the op belongs, and so is the one at which it is said to wait.
pub fn waits_come_from_what_is_told()
    ensures ops { OpsAreToldByTheirMoves }
    ensures waits { WaitsAreToldByTheirMoves }
{}

/// A clock is told as pending, of an activity, exactly where at the ends of the machine on the text this activity remembers a phase of the clock: that of a signal after
/// which it has not yet waited.
pub fn pending_is_remembered()
    ensures { PendingIsRemembered }
{}

/// The statement at which an activity is told to wait is the one at which it stands at the ends of the machine on moves: where it makes its next move. None is told of
/// who has ended, or is not started.
pub fn waits_are_told_where_they_stand()
    ensures waits { WaitsAreToldWhereTheyStand }
    ensures others { OthersAreToldNoWait }
{}
