// Laws of runs.
ghost use Rattle.armus_base.specs.calls.RunLaws.{MaximalExists, NextIsLegal, OneEnd, OneSerialEnd, PlacesFixState, ReachedStays, ReachedStaysInRun, SamePlacesSameState, SerialFinalIsAvoided, SerialIsAvoided};

/// The places fix the state: after each legal run of a checked plan the state is the one that its places fix, and two runs to the same places end in the same
/// state.
pub fn places_fix_state()
    ensures fixed { PlacesFixState }
    ensures same { SamePlacesSameState }
{}

/// What is reached stays reached: an event of a phaser that has been made, once reached, is reached after each run whose places are all at or after, and when
/// the run goes on.
pub fn reached_stays()
    ensures later { ReachedStays }
    ensures longer { ReachedStaysInRun }
{}

/// No step is stuck: after a legal run of a checked plan, the next action by its code of a forked task that is neither published nor refused is legal.
pub fn next_is_legal()
    ensures { NextIsLegal }
{}

/// There is one end: a checked plan has a maximal plain run, and all its maximal plain runs end with the same places and the same state.
pub fn one_end()
    ensures exists { MaximalExists }
    ensures same { OneEnd }
{}

/// The serial avoided run is an avoided run; where it has ended it is a maximal one; and there is one end.
pub fn serial_is_avoided()
    ensures run { SerialIsAvoided }
    ensures end { SerialFinalIsAvoided }
    ensures same { OneSerialEnd }
{}
