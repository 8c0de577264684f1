// Laws of what a seat has seen.
ghost use Rattle.armus_base.specs.calls.SeatLaws.{AllScannedIsReached, AwaitLoadIsBefore, AwaitLoadKeepsFar, BusyIsBefore, BusyKeepsFar, EarlierIsLawful, EarlierPlaces, HolderMayHold, KnownAreLeastDead, LeastExists, LeastLawfulExists, PhaseLoadIsBefore, PhaseLoadKeepsFar, ScannedStays};

/// The least lawful state, on a board that detects deadlock: the shorter places of two lawful states are lawful, so there is a least lawful state as
/// far on as what a viewer has seen, and the known dead are the dead in it. The same of plain runs.
pub fn least_state()
    ensures earlier { EarlierIsLawful }
    ensures least { LeastLawfulExists }
    ensures earlier_run { EarlierPlaces }
    ensures least_run { LeastExists }
    ensures dead_after_it { KnownAreLeastDead }
{}

/// What was scanned stays scanned, and where all tasks are scanned the awaited event is reached.
pub fn scanned_stays()
    ensures below { ScannedStays }
    ensures all { AllScannedIsReached }
{}

/// A place that is seen by a load, or by a try for the lock that finds it held, is at or before the lawful one.
pub fn seen_is_before()
    ensures await_load { AwaitLoadIsBefore }
    ensures phase_load { PhaseLoadIsBefore }
    ensures holder { HolderMayHold }
    ensures busy { BusyIsBefore }
{}

/// Lawful places as far on as what a seat has seen stay so after each load that tells what stands there, and after a try for the lock that finds it held.
pub fn seen_keeps_far()
    ensures await_load { AwaitLoadKeepsFar }
    ensures phase_load { PhaseLoadKeepsFar }
    ensures busy { BusyKeepsFar }
{}
