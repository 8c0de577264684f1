// Laws of places.
ghost use Rattle.armus_base.specs.calls.PlaceLaws.{AvoidedStepIsLawful, FreeingIsLawful, HolderIsTask, LawfulIsReachable, LawfulPlacesAreOf, OpeningIsLawful, PlainStepIsLawful, ReachableIsFixed, ReachableSteps, ReachedStaysAtReachable, RefusedHasDropped, TakersFree, TakingIsLawful};

/// Reachable places fix the state, a legal next step leads to reachable places and to the state after it, what is reached stays reached, and a refused
/// task that is a member of nothing has made all its drops.
pub fn reachable_places()
    ensures fixed { ReachableIsFixed }
    ensures steps { ReachableSteps }
    ensures reached { ReachedStaysAtReachable }
    ensures dropped { RefusedHasDropped }
{}

/// The lawful places of both boards are reachable, and places of their tasks; they begin with the opening ones, and each step, taking and freeing that
/// the board allows keeps them lawful.
pub fn lawful_places()
    ensures reachable { LawfulIsReachable }
    ensures places { LawfulPlacesAreOf }
    ensures opening { OpeningIsLawful }
    ensures plain_step { PlainStepIsLawful }
    ensures avoided_step { AvoidedStepIsLawful }
    ensures taking { TakingIsLawful }
    ensures freeing { FreeingIsLawful }
{}

/// The lock of a board that avoids deadlock excludes: between two takings whoever took it first frees it. Its holder is a task of the plan.
pub fn lock_excludes()
    ensures takings { TakersFree }
    ensures holder { HolderIsTask }
{}
