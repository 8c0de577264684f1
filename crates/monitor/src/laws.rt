// Laws of what traces call for.
ghost use Rattle.monitor.specs.Laws.{HasOneCut, HasOneLastOutput, HasOneHeardOutput, HasOneWholeOutput, HasSomeCut};

/// Bytes are cut into lines in just one way.
pub fn one_cut()
    ensures some { HasSomeCut }
    ensures one { HasOneCut }
{}

/// Bytes call for one output and lead to one run, whether the trace goes on behind them or ends.
pub fn one_heard_output()
    ensures going_on { HasOneHeardOutput }
    ensures at_end { HasOneLastOutput }
{}

/// A whole trace calls for one output, with one status.
pub fn one_whole_output()
    ensures { HasOneWholeOutput }
{}
