// Laws of plans.
ghost use Rattle.armus_base.specs.calls.PlanLaws.{AwaitedPhasesFit, CheckedByCodes, FirstPlanIsChecked, MakersAreTasks, PhasesFit, PhasesStayFixed, PlanGrows};

/// A plan stays checked while it is unfolded: only what is new is to be looked at, and what it fixes of a task so far stays fixed.
pub fn plan_grows()
    ensures first { FirstPlanIsChecked }
    ensures checked { PlanGrows }
    ensures fixed { PhasesStayFixed }
    ensures makers { MakersAreTasks }
{}

/// A plan stays checked whatever its pieces are.
pub fn checked_by_codes()
    ensures { CheckedByCodes }
{}

/// A phase is at most the number of all ops, and so is one that is awaited.
pub fn phases_fit()
    ensures phases { PhasesFit }
    ensures awaited { AwaitedPhasesFit }
{}
