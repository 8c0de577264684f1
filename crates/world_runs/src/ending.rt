// The end of a run in one thread, from its opening or from where its tasks stand.
ghost use Rattle.std.specs.Prelude.{◌≡◌, ℕ, Option, Some, false, true, IfOk, OnOk, length, slice_get};
ghost use Rattle.armus_base.specs.CheckedPlans.{IsCheckedPlan};
ghost use Rattle.armus_base.specs.Runs.{IsReachable};
ghost use Rattle.armus_base.specs.calls.Boards.{IsLawful};
ghost use Rattle.pl_core.specs.declared.place.Place.{Place as KeptPlace};
ghost use Rattle.pl_core.specs.calls.Worlds.{places_at};
ghost use Rattle.world_runs.specs.calls.AvoidedRuns.{IsAvoidedEnd, IsSerialEnd};
ghost use Rattle.world_runs.specs.calls.EndWorlds.{IsWorldEnd};
ghost use Rattle.world_runs.specs.calls.PlainRuns.{IsPlainEnd};
ghost use Rattle.world_runs.specs.inside.WorldRounds.{HasEndedBy};

use crate::next_step::{NextStep, PlainStep};
use crate::world_round::round;
use armus_base::{Final, Gate, NoMemory, Plan, Still};
use avoider::{Judge, Judging};
use pl_core::{Place, World};
use run_queue::RunQueue;
use std::alloc::Global;

/// The world in which a run ends, and the value of its state.
#[derive(Drop)]
pub struct WorldEnd<'p> {
    /// The world: who stands where when no task may go on.
    pub world: World<'p>,
    /// The value of its state.
    pub end: Final,
}

/// Runs the plan in one thread, without a board: in rounds each task goes on until it is done or waits, in order of number. The gate is called before each
/// op.
pub fn run_plain<G: Gate>(alloc: Global, plan: &Plan, gate: &G) -> Result<Final, NoMemory>
    ensures end { IfOk result (λ end. IsPlainEnd plan.now end) }
{
    let world = World::start(alloc, plan)?;
    let ended = end_by(alloc, world, &mut PlainStep, gate)?;
    Ok(ended.end)
}

/// The world in which the run ends whose tasks stand at these places, none refused. The gate is called before each op.
pub fn world_end_from<'p, G: Gate>(
    alloc: Global,
    plan: &'p Plan,
    places: &[Place],
    gate: &G,
) -> Result<WorldEnd<'p>, NoMemory>
    requires one_each { length places.now ≡ length plan.now.parents }
    requires reachable { IsReachable plan.now (places_at plan.now places.now) }
    requires plain { (t : ℕ) (place : KeptPlace) → slice_get places.now t ≡ Some place → place.refused ≡ false }
    ensures end { IfOk result (IsWorldEnd plan.now) }
    ensures checked { OnOk result (IsCheckedPlan plan.now) }
{
    let world = World::at(alloc, plan, places)?;
    let ended = end_by(alloc, world, &mut PlainStep, gate)?;
    Ok(ended)
}

/// Runs the plan in one thread, without a board, and answers the world in which the run ends: in rounds each task goes on until it is done or waits, in order
/// of number.
pub fn run_to_world<'p>(alloc: Global, plan: &'p Plan) -> Result<WorldEnd<'p>, NoMemory>
    ensures end { IfOk result (IsWorldEnd plan.now) }
{
    let world = World::start(alloc, plan)?;
    let ended = end_by(alloc, world, &mut PlainStep, &Still)?;
    Ok(ended)
}

/// The serial avoided run, in one thread, without a board: in a round each task that was forked before it acts, in order of number, until it is done, or
/// waits on an event that is not reached, or is refused. Awaits are judged so. The gate is called before each op.
pub fn run_serial_avoid<G: Gate>(
    alloc: Global,
    plan: &Plan,
    judging: Judging,
    gate: &G,
) -> Result<Final, NoMemory>
    ensures end { IfOk result (λ end. IsAvoidedEnd plan.now end) }
    ensures serial { IfOk result (λ end. IsSerialEnd plan.now end) }
{
    let world = World::start(alloc, plan)?;
    let ended = end_by(alloc, world, &mut Judge::new(judging), gate)?;
    Ok(ended.end)
}

/// The end of an avoided run whose tasks stand at these places, which are lawful on a board that avoids deadlock: turns go on by rounds in order of number
/// until no task may go on. Awaits are judged so. The gate is called before each op.
pub fn avoided_end_from<G: Gate>(
    alloc: Global,
    plan: &Plan,
    places: &[Place],
    judging: Judging,
    gate: &G,
) -> Result<Final, NoMemory>
    requires one_each { length places.now ≡ length plan.now.parents }
    requires lawful { (lock : Option ℕ) × IsLawful true plan.now (places_at plan.now places.now) lock }
    ensures end { IfOk result (λ end. IsAvoidedEnd plan.now end) }
{
    let world = World::at(alloc, plan, places)?;
    // the plan is checked
    let _plan = world.plan();
    let ended = end_by(alloc, world, &mut Judge::new(judging), gate)?;
    Ok(ended.end)
}

// Ends the run that has come to this world: turns go on by rounds in order of number, by such steps, until no task may go on. The gate is called before
// each op.
fn end_by<'p, S: NextStep, G: Gate>(
    alloc: Global,
    mut world: World<'p>,
    step: &mut S,
    gate: &G,
) -> Result<WorldEnd<'p>, NoMemory>
    requires keeps { S.keeps world }
    ensures end { IfOk result (HasEndedBy S.makes S.keeps world.entry) }
{
    let mut queue = RunQueue::start(alloc, &world)?;
    'rounds: while round(alloc, &mut world, &mut queue, step, gate)? {}
    let end = world.finish(alloc)?;
    Ok(WorldEnd { world, end })
}
