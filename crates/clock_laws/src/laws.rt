// The laws of the two machines of clock programs: each is the contract of a function with an empty body.
ghost use Rattle.clock_laws.specs.calls.Laws.{DirectEndsAreExact, DirectEndsAreThoseOfTasks, DirectRunsAreBounded, DirectRunsEnd, DirectRunsMatch};
ghost use Rattle.clock_laws.specs.calls.Laws.{NoClockTaskIsHeld, NoneIsUnforkedUnderDone, StartedAreForked};
ghost use Rattle.clock_laws.specs.calls.WorkedRuns.{AreStuck, EndSo, stuck_runs, worked_runs};
ghost use Rattle.clock_laws.specs.calls.TextLaws.{NoRunFails, TextEndsAreThoseOfTasks, TextEndsAreTold, TextRunsAreBounded, TextRunsAreDirect, TextRunsEnd};
ghost use Rattle.clock_laws.specs.calls.TextNumbers.{EachMadeIsNamed, EachNumberIsNamed, MadeHaveOneName};
ghost use Rattle.clock_laws.specs.calls.WorkedTexts.{ComeToEnds, ComeToFaults, faulty_texts, worked_texts};

/// Each run of the direct machine on a program without fault has at most two steps for each move, can be continued until no activity can make a step, and has
/// a run of the program's plan that stands for it: the same activities are started and forked, a clock's activities are its phaser's members, those that have
/// not signalled stand at the clock's phase and the others one above, and a finish waits for its phaser's members but the one that made it.
pub fn clock_runs()
    ensures bounded { DirectRunsAreBounded }
    ensures end { DirectRunsEnd }
    ensures matched { DirectRunsMatch }
{}

/// All ends of the direct machine are alike. At each an activity has ended exactly where its task is done in the final state of the plan; it waits at an
/// advance of clock p and remembers phase k exactly where its task is blocked on p@(k + 1); it waits at the end of finish f exactly where its task is blocked
/// on f@1; and it is not started exactly where its task is unforked. Whom some run starts is no unforked task, and none is unforked whose parent is done.
pub fn clock_ends()
    ensures of_tasks { DirectEndsAreThoseOfTasks }
    ensures exact { DirectEndsAreExact }
    ensures started { StartedAreForked }
    ensures unforked { NoneIsUnforkedUnderDone }
{}

/// Each blocked task of a clock program's plan is dead: none is held.
pub fn no_clock_task_is_held()
    ensures { NoClockTaskIsHeld }
{}

/// Small runs of the direct machine with how their activities stand at the end, and runs with a step that cannot be made.
pub fn worked_clock_runs()
    ensures ends { EndSo worked_runs }
    ensures stuck { AreStuck stuck_runs }
{}

/// Each number of an activity of an unfolding has one name by where the activity comes from, and each number of a clock or finish one by who makes it.
pub fn numbers_are_named()
    ensures activities { EachNumberIsNamed }
    ensures named { EachMadeIsNamed }
    ensures made { MadeHaveOneName }
{}

/// For each run of the machine on the text of a program without fault there is one of the machine on moves, by some of the same steps: the same activities
/// are started, and each clock and finish has the same phase and the same sets. No run comes to a statement at fault; each is bounded by the text, and can be
/// continued until no activity goes.
pub fn clock_text_runs()
    ensures direct { TextRunsAreDirect }
    ensures fails { NoRunFails }
    ensures bounded { TextRunsAreBounded }
    ensures end { TextRunsEnd }
{}

/// Where no activity of the machine on the text goes, each stands as its task has ended in the final state of the program's plan: it has ended where the task
/// is done; it waits at an advance of a clock of the unfolding and remembers phase k where the task is blocked on phase k + 1 of its phaser; it waits at the
/// end of a finish of the unfolding where the task is blocked on phase 1 of that; and it is not started where the task is unforked. So all these ends are
/// alike; and there is one.
pub fn clock_text_ends()
    ensures of_tasks { TextEndsAreThoseOfTasks }
    ensures told { TextEndsAreTold }
{}

/// Small programs on the machine on the text, with how their activities stand where none can go; and small programs with a statement at fault.
pub fn worked_clock_texts()
    ensures ends { ComeToEnds worked_texts }
    ensures faults { ComeToFaults faulty_texts }
{}
