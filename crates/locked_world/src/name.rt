// Which plan a recorded run is of.
use std::marker::Brand;

/// A name of one plan, which contracts alone see: the types of a recorded run keep that they are of this plan. A caller passes `Brand`, and its proof picks
/// the plan.
pub trait PlanName: Send + Sync {
    ghost use Rattle.armus_base.specs.Plans.{Plan};

    /// The plan.
    ghost plan: { Plan };
}

impl PlanName for Brand {
    ghost use Rattle.armus_base.specs.calls.CheckedPlans.{first_plan};

    ghost plan = { first_plan };
}
