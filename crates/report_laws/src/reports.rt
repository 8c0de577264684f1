// Laws of the report of a run.
ghost use Rattle.report_laws.specs.Cycles.{CycleIsProof};
ghost use Rattle.report_laws.specs.calls.Cycles.{ClockCycleIsProof, GraphChangesLastLine, GraphChangesNoRefusal};
ghost use Rattle.report_laws.specs.ReportedStandings.{StandAsReported};
ghost use Rattle.report_laws.specs.calls.Reported.{ActivitiesStandAsReported, LiveLinesNameTheDead, StandAsAvoided};
ghost use Rattle.report_laws.specs.Held.{EndedHaveLeft, HeldTasksHaveEnd, HeldWaitForUnforked};

/// The status of a run, of a text of either language, is 1 exactly where its report has a cycle line, and the tasks of that line are a deadlocked set of the
/// state in which the run ends. The graph that is wanted changes the last line of a report alone, of a run and of one with avoidance and one worker.
pub fn cycle_is_proof()
    ensures proof { CycleIsProof }
    ensures clocks { ClockCycleIsProof }
    ensures graph { GraphChangesLastLine }
    ensures refusals { GraphChangesNoRefusal }
{}

/// A report calls a task dead exactly where it is dead in the state that the report is of, and so with each other standing: in the report of a run of either
/// language, which is of the state in which every maximal run ends, and in that of `avoid`. There is a live line for just the dead tasks.
pub fn stand_as_reported()
    ensures run { StandAsReported }
    ensures clocks { ActivitiesStandAsReported }
    ensures avoided { StandAsAvoided }
    ensures live { LiveLinesNameTheDead }
{}

/// A task that a run reports as held waits, through held ones, for one that has ended or is unforked. In PL 2, where a task that ends leaves its phasers, it
/// waits so for an unforked one.
pub fn held_tasks_have_end()
    ensures end { HeldTasksHaveEnd }
    ensures left { EndedHaveLeft }
    ensures two { HeldWaitForUnforked }
{}
