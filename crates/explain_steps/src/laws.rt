// Laws of serial plain runs and of the lines of their steps: each is the contract of a function with an empty body.
ghost use Rattle.explain_steps.specs.calls.Laws.{FirstStepsAreSerial, OneSerialRun, OneShowing, SerialIsPlain, SerialRunExists, SerialRunReplays, ShowingExists};
ghost use Rattle.explain_steps.specs.calls.ClockLaws.{ClockShowingExists, OneClockShowing};

/// A serial plain run is a plain run, and its first steps, which are those that are shown, are a serial plain run; and each checked plan has one that has come
/// to its end, and no other.
pub fn one_serial_run()
    ensures plain { SerialIsPlain }
    ensures first { FirstStepsAreSerial }
    ensures one { OneSerialRun }
    ensures exists { SerialRunExists }
{}

/// A replay of the steps of a serial plain run accepts them, and names the dead of the state after them.
pub fn serial_run_replays()
    ensures { SerialRunReplays }
{}

/// The steps of a run are shown by one list of lines, and no other.
pub fn one_showing()
    ensures one { OneShowing }
    ensures exists { ShowingExists }
{}

/// The steps of a run of a clock text's plan are shown by one list of lines, and no other.
pub fn one_clock_showing()
    ensures one { OneClockShowing }
    ensures exists { ClockShowingExists }
{}
