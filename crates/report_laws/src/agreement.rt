// Laws of agreement between what two commands answer for one input.
ghost use Rattle.report_laws.specs.Avoided.{AvoidTellsAsRun};
ghost use Rattle.report_laws.specs.Explained.{ExplainsAsRun};
ghost use Rattle.report_laws.specs.ExplainedAvoid.{ExplainsAsAvoid};
ghost use Rattle.report_laws.specs.ExplainedClocks.{ExplainsAsClock};
ghost use Rattle.report_laws.specs.ExplainedSteps.{StepsEndAsExplained};
ghost use Rattle.report_laws.specs.calls.ExplainedSteps.{ClockStepsEndAsExplained};
ghost use Rattle.report_laws.specs.calls.Avoided.{WhoGainsAndPays};
ghost use Rattle.report_laws.specs.calls.Replayed.{ReplayTellsAsRun};

/// `avoid`, with whatever workers, and `run` have one status for one input; and where it is not 1, and the graph is the same, they write the same bytes.
pub fn avoid_tells_as_run()
    ensures { AvoidTellsAsRun }
{}

/// Nobody who is done is harmed by avoidance, and who is refused was not done without it: stuck, and dead where the run leaves nobody unforked.
pub fn who_gains_and_pays()
    ensures { WhoGainsAndPays }
{}

/// Whoever a pass of `replay`, or its end, names is dead at the end of the run of its text; and where its status is 1, that of the run is 1.
pub fn replay_tells_as_run()
    ensures { ReplayTellsAsRun }
{}

/// The explanation of a text knows of each task the standing that the report of its run has, and begins with the first line of that report; and where the report
/// has status 1, so has the explanation, whose verdict shows a circle that begins as the report's, and is no longer.
pub fn explains_as_run()
    ensures { ExplainsAsRun }
{}

/// The explanation of the serial avoided run knows of each task the standing that the report of `avoid` with one worker has, begins with the first line of that
/// report, and names in its second line the tasks that the report has as refused; and where the report has status 1, so has the explanation.
pub fn explains_as_avoid()
    ensures { ExplainsAsAvoid }
{}

/// The explanation of a clock text has the status of `clock`, and the counts of its report.
pub fn explains_as_clock()
    ensures { ExplainsAsClock }
{}

/// What is written where the steps of a text are shown is these steps, and behind them the bytes of its explanation, in either language; and the status is one.
pub fn steps_end_as_explained()
    ensures text { StepsEndAsExplained }
    ensures clocks { ClockStepsEndAsExplained }
{}
