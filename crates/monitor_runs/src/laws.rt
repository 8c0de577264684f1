// It is the same deadlock as in PL.
ghost use Rattle.monitor_runs.specs.EndedTraces.{EndedRunsAreTraces, HasAllDone};
ghost use Rattle.monitor_runs.specs.RunTraces.{RunsAreTraces};

/// Each run of a checked plan, written as lines, is a legal and lasting trace that leads to the same memberships, phases and waits; its stuck tasks are the dead.
pub fn runs_are_traces()
    ensures { RunsAreTraces }
{}

/// With an end behind the last line of tasks that are done it is legal and lasting too, and its stuck tasks are the dead and those who wait for one that is done,
/// or for one who does so. The tasks may be all that are done.
pub fn ended_runs_are_traces()
    ensures some { EndedRunsAreTraces }
    ensures all { HasAllDone }
{}
