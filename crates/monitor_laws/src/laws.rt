// The laws of the monitor.
ghost use Rattle.monitor_laws.specs.DeadlockLaws.{StuckIsDeadlocked, UnionsAreClosed};
ghost use Rattle.monitor_laws.specs.Laws.{AllAreTold, GuardedIsLegal, NothingIsTakenBack, NoWaitMakesStuck, SameLinesSameStates, StuckStays, TrueAndOrderedLasts, WhoIsToldIsStuck};
ghost use Rattle.monitor_laws.specs.Told.{AllWereTold, OwnWaitSticks, StuckIsKnown, StuckWereTold};
ghost use Rattle.monitor_laws.specs.Worked.{HonestIsNeeded, LastingIsNeeded, OrderedJoinsAreNeeded, TrueGoesAreNeeded, WorkedEnds, WorkedFaults, WorkedGone, WorkedLimits, WorkedMembers, WorkedWildcards};

/// In every honest continuation of an honest trace whoever is stuck and is not gone stays so.
pub fn stuck_stays()
    ensures { StuckStays }
{}

/// With the guard what stands is a legal trace, and no wait of it makes anybody stuck.
pub fn no_wait_makes_stuck()
    ensures legal { GuardedIsLegal }
    ensures nobody { NoWaitMakesStuck }
{}

/// True goes and ordered joins make a trace lasting.
pub fn true_and_ordered_lasts()
    ensures { TrueAndOrderedLasts }
{}

/// Two traces without wildcards that have the same lines of each name lead to the same states of all names.
pub fn same_lines_same_states()
    ensures { SameLinesSameStates }
{}

/// Whoever is stuck in a mix of first lines of a lasting trace without wildcards is stuck in that trace.
pub fn who_is_told_is_stuck()
    ensures { WhoIsToldIsStuck }
{}

/// All that are stuck in a lasting trace without wildcards are so once all its lines have come, in whatever order, and from the line on that makes them stuck.
pub fn all_are_told()
    ensures all { AllAreTold }
    ensures back { NothingIsTakenBack }
{}

/// Where nobody has ended and there is no wildcard, stuck is deadlocked as in PL; and the union of closed sets is closed.
pub fn stuck_is_deadlocked()
    ensures same { StuckIsDeadlocked }
    ensures unions { UnionsAreClosed }
{}

/// In each state a test finds the greatest closed set.
pub fn stuck_is_known()
    ensures { StuckIsKnown }
{}

/// All that are stuck became so by a line, and were stuck from then on; in whatever order the lines of a trace without wildcards come.
pub fn stuck_were_told()
    ensures told { StuckWereTold }
    ensures all { AllWereTold }
{}

/// A wait by which anybody becomes stuck makes its own task stuck.
pub fn own_wait_sticks()
    ensures { OwnWaitSticks }
{}

/// What lines make of the list, by worked traces.
pub fn worked_lists()
    ensures members { WorkedMembers }
    ensures ends { WorkedEnds }
    ensures wildcards { WorkedWildcards }
    ensures gone { WorkedGone }
{}

/// The first fault of a line, row by row, and at both limits of the list.
pub fn worked_line_faults()
    ensures rows { WorkedFaults }
    ensures limits { WorkedLimits }
{}

/// Without each part of honest, of lasting, and of what makes a trace lasting, its law is false.
pub fn premises_are_needed()
    ensures honest { HonestIsNeeded }
    ensures lasting { LastingIsNeeded }
    ensures goes { TrueGoesAreNeeded }
    ensures joins { OrderedJoinsAreNeeded }
{}
