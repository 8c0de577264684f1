// What holds of all stuck tasks that are known.
ghost use Rattle.monitor_search.specs.Known.{OneKnown};

/// The stuck tasks of a state are known in one way.
pub fn one_known()
    ensures { OneKnown }
{}
