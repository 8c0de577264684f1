// The laws of replays.
ghost use Rattle.schedule.specs.calls.Laws.{BytesHaveLines, InputIsSplit, LineIsMet, LinesAreMet, NeverBoth, OneFirstFault, OneProgress, OneReading, OneSplit, PassesNameTheDead};
ghost use Rattle.schedule.specs.calls.Records.{JournalFitsPlan, JournalReplays, RecordIsRead};

/// At any interleaving of steps and loads a pass names every task that is dead at its first load, and only tasks that are dead at its last.
pub fn passes_name_the_dead()
    ensures named { PassesNameTheDead }
{}

/// An input has one text and one schedule, and a schedule is one list of lines.
pub fn one_schedule()
    ensures split { OneSplit }
    ensures lines { OneReading }
{}

/// Lines lead to one progress at most, have one first fault at most, and never both.
pub fn one_replay()
    ensures progress { OneProgress }
    ensures never_both { NeverBoth }
    ensures fault { OneFirstFault }
{}

/// After a plain run each line is taken or at fault, and so lines lead to a progress or have a first fault.
pub fn each_replay()
    ensures line { LineIsMet }
    ensures lines { LinesAreMet }
{}

/// Each input has a text and a schedule, and each schedule a list of lines.
pub fn each_schedule()
    ensures split { InputIsSplit }
    ensures lines { BytesHaveLines }
{}

/// A replay reads in the bytes of a record its text and the steps of its journal, which is no longer than its plan allows.
pub fn records_are_read()
    ensures read { RecordIsRead }
    ensures fits { JournalFitsPlan }
{}

/// Whatever a replay answers for the lines of the journal of a plain run, it finds no line at fault: unless memory is wanting, it has as many steps as
/// the journal, no pass, and the dead tasks of the state in which the run ends.
pub fn journals_replay()
    ensures { JournalReplays }
{}
