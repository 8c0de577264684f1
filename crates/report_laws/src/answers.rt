// Laws of answers: what the words and the input fix.
ghost use Rattle.report_laws.specs.calls.LiveLines.{LiveClockTellsAsClock, LiveRunTellsAsRun};
ghost use Rattle.report_laws.specs.OneAnswer.{OneAnswer, RunsReportAlike};
ghost use Rattle.report_laws.specs.calls.OnePlan.{RecordGoesByPlan, ReplayGoesByPlan, TextsHaveNoSchedule};
ghost use Rattle.report_laws.specs.calls.Printed.{PrintingKeepsMeaning};

/// The words and the input alone fix the status and the text of every command but `record`, and `avoid` with several workers; live lines may come in
/// another order. So `run`, `run --sites` and `pool` write the same bytes, whatever their numbers of workers and of sites.
pub fn one_answer()
    ensures one { OneAnswer }
    ensures alike { RunsReportAlike }
{}

/// A run with live lines has the status of one without, and writes the same behind them; so it is with `clock`.
pub fn live_tells_as_run()
    ensures run { LiveRunTellsAsRun }
    ensures clock { LiveClockTellsAsClock }
{}

/// What `check --print` writes of an input has its plan, is answered and replayed as it is, and has each of its journals recorded behind it, where it is no
/// longer than a text may be; and printed again it is the same.
pub fn printing_keeps_meaning()
    ensures { PrintingKeepsMeaning }
{}

/// Texts of one plan are replayed alike, behind one schedule, and recorded with the same journals; a text alone has an empty schedule.
pub fn texts_go_by_plan()
    ensures replay { ReplayGoesByPlan }
    ensures alone { TextsHaveNoSchedule }
    ensures journals { RecordGoesByPlan }
{}
