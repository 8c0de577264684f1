// Laws of runs.
ghost use Rattle.monitor_messages.specs.Laws.{HasOneRun, HasOneTrace, RunsHaveTraces};

/// Lines lead to one run and call for one output.
pub fn one_run()
    ensures { HasOneRun }
{}

/// A run is of just one trace, and of what stands of it, which is legal; so what holds of traces holds of its state.
pub fn runs_have_traces()
    ensures some { RunsHaveTraces }
    ensures one { HasOneTrace }
{}
