// What the next step of a task can change for others.
ghost use Rattle.std.specs.Prelude.{◌<◌, MatchOption, length};
ghost use Rattle.armus_base.specs.CheckedPlans.{IsCheckedPlan};
ghost use Rattle.armus_base.specs.Runs.{IsReachable};
ghost use Rattle.pl_core.specs.calls.Stands.{IsBeforeOp, IsEnabled};
ghost use Rattle.pl_core.specs.calls.Worlds.{places_of};
ghost use Rattle.run_queue.specs.calls.StepKinds.{IsOfKind};

use armus_base::{Op, PhaserId, TaskId};
use pl_core::{Stand, World};

/// What the next step of a task can change for other tasks.
#[derive(Clone, Copy, Debug, PartialEq, Eq)]
pub enum StepKind {
    /// It forks this task.
    Forks(TaskId),
    /// It changes phases of this phaser alone.
    Changes(PhaserId),
    /// It stands at an await, which is published, or is refused and drops all phasers.
    Awaits,
    /// It waits and passes.
    Passes,
}

// The kind of the op before which a task stands.
fn op_kind(world: &World, t: TaskId) -> StepKind
    requires task { t.0 < length world.now.plan.parents }
    requires ready { IsBeforeOp world.now t.0 }
    ensures { IsOfKind world.now t.0 result }
{
    match world.op_before(t) {
        Op::Fork { c } => StepKind::Forks(c),
        Op::Make { p } | Op::Reg { c: _, p } | Op::Adv { p } | Op::Drop { p } => {
            StepKind::Changes(p)
        }
        Op::Await { p: _, off: _ } => unreachable!(),
    }
}

/// Of what kind the next step of task `t` is; None exactly where it may not go on.
pub fn step_kind(world: &World, t: TaskId) -> Option<StepKind>
    requires task { t.0 < length world.now.plan.parents }
    ensures kind { MatchOption result (IsEnabled world.now t.0 → ⊥) (λ kind. IsEnabled world.now t.0 × IsOfKind world.now t.0 kind) }
    ensures checked { IsCheckedPlan world.now.plan }
    ensures reachable { IsReachable world.now.plan (places_of world.now) }
{
    match world.stand(t) {
        Stand::Ready => Some(op_kind(world, t)),
        Stand::Await(_) => Some(StepKind::Awaits),
        Stand::Waits(event) => {
            if world.is_reached(event) {
                Some(StepKind::Passes)
            } else {
                None
            }
        }
        Stand::Unforked | Stand::Done | Stand::Refused(_) => None,
    }
}
