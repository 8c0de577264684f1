// Rounds of turns in a world.
ghost use Rattle.std.specs.Prelude.{◌≡◌, ◌<◌, ℕ, IfOk, MatchOption, OnOk, length};
ghost use Rattle.armus_base.specs.CheckedPlans.{IsCheckedPlan};
ghost use Rattle.armus_base.specs.Runs.{IsReachable};
ghost use Rattle.pl_core.specs.calls.Stands.{IsEnabled};
ghost use Rattle.pl_core.specs.calls.Worlds.{WorldValue, places_of};
ghost use Rattle.run_queue.specs.calls.RunQueues.{HasTurnLeft, IsRunQueue};
ghost use Rattle.run_queue.specs.calls.StepKinds.{IsOfKind};
ghost use Rattle.world_runs.specs.calls.NextTurns.{IsNextTurn};
ghost use Rattle.world_runs.specs.inside.WorldRounds.{IsRoundBy, IsTurnBy, LeavesLess};

use crate::next_step::NextStep;
use armus_base::{Gate, NoMemory, Point, TaskId};
use pl_core::World;
use run_queue::{RunQueue, StepKind, step_kind};
use std::alloc::Global;

/// One turn of each task that is forked now, in order of number, by such steps; answers whether one was made. The gate is called before each op. It looks at
/// no task that may not act.
pub(crate) fn round<S: NextStep, G: Gate>(
    alloc: Global,
    world: &mut World,
    queue: &mut RunQueue,
    step: &mut S,
    gate: &G,
) -> Result<bool, NoMemory>
    requires keeps { S.keeps world.old }
    requires queue { IsRunQueue world.old world.old queue.old }
    ensures left { IfOk result (LeavesLess S.keeps world.old world.new) }
    ensures round { IfOk result (IsRoundBy S.makes world.old world.new) }
    ensures queue { OnOk result (IsRunQueue world.new world.new queue.new) }
{
    let moved = turns(alloc, world, queue, step, gate)?;
    queue.round_ended();
    Ok(moved)
}

// One turn of each task that has one, in order of number; answers whether a step was made.
fn turns<S: NextStep, G: Gate>(
    alloc: Global,
    world: &mut World,
    queue: &mut RunQueue,
    step: &mut S,
    gate: &G,
) -> Result<bool, NoMemory>
    requires keeps { S.keeps world.old }
    requires queue { IsRunQueue world.old world.old queue.old }
    ensures left { IfOk result (LeavesLess S.keeps world.old world.new) }
    ensures round { IfOk result (IsRoundBy S.makes world.old world.new) }
    ensures queue { OnOk result (IsRunQueue world.old world.new queue.new) }
{
    // the plan is checked
    let _plan = world.plan();
    let mut moved = false;
    let mut from = 0;
    'turns: while let Some(t) = next_turn(world, queue, from) {
        let acted = turn(alloc, world, queue, t, step, gate)?;
        moved = moved || acted;
        from = t.0 + 1;
    }
    Ok(moved)
}

/// The first task from this number on that has a turn, in a round of a world with this queue; who was forked when the round began and is passed over may not
/// act.
pub fn next_turn(world: &World, queue: &RunQueue, from: u32) -> Option<TaskId>
    ensures { (first : WorldValue) → IsRunQueue first world.now queue.now → IsNextTurn first world.now queue.now from result }
{
    // the plan is checked
    let _plan = world.plan();
    queue.next(from)
}

// The turn of a task: it goes on until it may not; answers whether a step was made.
fn turn<S: NextStep, G: Gate>(
    alloc: Global,
    world: &mut World,
    queue: &mut RunQueue,
    t: TaskId,
    step: &mut S,
    gate: &G,
) -> Result<bool, NoMemory>
    requires task { t.0 < length world.old.plan.parents }
    requires keeps { S.keeps world.old }
    ensures left { IfOk result (LeavesLess S.keeps world.old world.new) }
    ensures turn { IfOk result (IsTurnBy S.makes t.0 world.old world.new) }
    ensures queue { OnOk result ((first : WorldValue) → HasTurnLeft queue.old t.0 → IsRunQueue first world.old queue.old → IsRunQueue first world.new queue.new) }
{
    let keeps_order = step.keeps_order();
    let mut moved = false;
    'turn: while let Some(kind) = next_kind(world, t, gate, keeps_order) {
        step.make(alloc, world, t)?;
        queue.step_made(world, t, kind)?;
        moved = true;
    }
    queue.turn_ended(world, t)?;
    Ok(moved)
}

/// Of what kind the next step of a task is, if it may go on; before an op, and before an await that an order is asked for, it calls the gate.
pub(crate) fn next_kind<G: Gate>(
    world: &World,
    t: TaskId,
    gate: &G,
    keeps_order: bool,
) -> Option<StepKind>
    requires task { t.0 < length world.now.plan.parents }
    ensures kind { MatchOption result (IsEnabled world.now t.0 → ⊥) (λ kind. IsEnabled world.now t.0 × IsOfKind world.now t.0 kind) }
    ensures checked { IsCheckedPlan world.now.plan }
    ensures reachable { IsReachable world.now.plan (places_of world.now) }
{
    let kind = step_kind(world, t);
    match kind {
        None | Some(StepKind::Passes) => {}
        Some(_) => gate.at(Point::Op { t, k: world.op(t) }),
    }
    if keeps_order && kind == Some(StepKind::Awaits) {
        gate.at(Point::Ordered { t });
    }
    kind
}
