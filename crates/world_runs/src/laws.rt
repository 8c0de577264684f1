// Laws of runs.
ghost use Rattle.world_runs.specs.calls.AvoidedRuns.{SerialRunEnds};

/// The serial avoided run of a checked plan ends: there is a state in which it does.
pub fn serial_run_ends()
    ensures { SerialRunEnds }
{}
