// What is true of reports, as contracts of functions with an empty body.
ghost use Rattle.report.specs.calls.Reports.{OneReport, ReportExists};
ghost use Rattle.report.specs.calls.Counts.{CountsAddUp};
ghost use Rattle.report.specs.calls.NamedDead.{SomeDeadExtend};

/// A final state has one report only.
pub fn one_report()
    ensures { OneReport }
{}

/// Every final state has a report, whatever graph is wanted.
pub fn report_exists()
    ensures { ReportExists }
{}

/// Each task is counted, and in one way only.
pub fn counts_add_up()
    ensures { CountsAddUp }
{}

/// A list of some dead tasks goes on to one of all.
pub fn some_dead_extend()
    ensures { SomeDeadExtend }
{}
