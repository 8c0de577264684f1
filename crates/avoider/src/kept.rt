// Decisions by an order that is kept from one await to the next.
ghost use Rattle.std.specs.Prelude.{◌≡◌, ◌<◌, length, Contains, IfOk, OnErr, OnOk};
ghost use Rattle.armus_base.specs.Deadlocks.{NobodyDead};
ghost use Rattle.armus_base.specs.calls.Finals.{statuses_of};
ghost use Rattle.armus_base.specs.calls.Statuses.{IsInOrder};
ghost use Rattle.armus_base.specs.declared.status.Status.{Status};
ghost use Rattle.armus_base.specs.CheckedPlans.{IsCheckedPlan};
ghost use Rattle.order_graph.specs.calls.Following.{AnswersFollow};
ghost use Rattle.order_graph.specs.calls.Orders.{IsOrder, IsTaskOf};
ghost use Rattle.pl_core.specs.calls.Worlds.{state_of};
ghost use Rattle.avoider.specs.calls.Decisions.{IsBeforeStep, IsDecision, IsOutcome, supposed_statuses};
ghost use Rattle.avoider.specs.calls.Kept.{HoldsIfPublished};
ghost use Rattle.avoider.specs.inside.Followings.{HoldsOrOtherDead};

use crate::Decision;
use crate::step::{carry_out, death_of, event_before};
use crate::waiting::waits_if;
use adaptive::Wanted;
use armus_base::{Event, NoMemory, Status, TaskId};
use dep_state::DepState;
use order_graph::{Followed, Order};
use pl_core::World;
use std::alloc::Global;
use verdict::Cycle;

/// Decides as `avoid_step` does, by an order of the plan's tasks: it follows the statuses with the task's own, and only what differs from the last
/// await is mended. After Published its edges are the pairs of the wait-for graph of the world's statuses. After `NoMemory` the world is as before,
/// and the edges may be any.
pub fn avoid_step_kept(
    alloc: Global,
    world: &mut World,
    t: TaskId,
    order: &mut Order,
) -> Result<Decision, NoMemory>
    requires before { IsBeforeStep world.old t.0 }
    requires tasks { length order.old.positions ≡ length world.old.plan.parents }
    ensures decision { IfOk result (IsDecision world.old world.new t.0) }
    ensures nobody { NobodyDead (state_of world.new) }
    ensures same { OnErr result (world.new ≡ world.old) }
    ensures tasks { length order.new.positions ≡ length order.old.positions }
    ensures pairs { IfOk result (HoldsIfPublished (statuses_of world.new.plan (state_of world.new)) order.old order.new) }
{
    let event = event_before(world, t);
    let found = death_in_world(alloc, order, world, t, event)?;
    Ok(carry_out(world, t, event, found))
}

// The cycle of the statuses with the task's own, where the task is dead by them; they are made only where the order cannot follow them.
fn death_in_world(
    alloc: Global,
    order: &mut Order,
    world: &World,
    t: TaskId,
    event: Event,
) -> Result<Option<Cycle>, NoMemory>
    requires checked { IsCheckedPlan world.now.plan }
    requires task { t.0 < length world.now.plan.parents }
    requires phaser { event.p.0 < length world.now.plan.makers }
    requires tasks { length order.old.positions ≡ length world.now.plan.parents }
    ensures tasks { length order.new.positions ≡ length order.old.positions }
    ensures outcome { IfOk result (IsOutcome (supposed_statuses world.now t.0 event) t.0) }
    ensures pairs { IfOk result (HoldsOrOtherDead (supposed_statuses world.now t.0 event) order.old order.new) }
{
    match follow_world(alloc, order, world, t, event)? {
        Followed::Kept => Ok(None),
        Followed::Dead => {
            let list = world.statuses_if(alloc, t, event)?;
            death_of(alloc, list.as_slice(), t, Wanted::Wfg)
        }
    }
}

// The order follows the statuses with the task's own, by the relations of them where many events are awaited.
fn follow_world(
    alloc: Global,
    order: &mut Order,
    world: &World,
    t: TaskId,
    event: Event,
) -> Result<Followed, NoMemory>
    requires checked { IsCheckedPlan world.now.plan }
    requires task { t.0 < length world.now.plan.parents }
    requires phaser { event.p.0 < length world.now.plan.makers }
    requires tasks { length order.old.positions ≡ length world.now.plan.parents }
    ensures tasks { length order.new.positions ≡ length order.old.positions }
    ensures order { OnOk result (IsOrder order.new) }
    ensures followed { IfOk result (AnswersFollow (supposed_statuses world.now t.0 event) order.old order.new) }
{
    match waits_if(alloc, world, t, event)? {
        Some(waits) => order.follow_waits(alloc, &waits),
        None => {
            let list = world.statuses_if(alloc, t, event)?;
            let deps = DepState::of(alloc, list.as_slice())?;
            order.follow(alloc, &deps)
        }
    }
}

// The cycle of the statuses, where the task is dead by them. Nothing is searched where the order can follow them: nobody is dead then.
pub(crate) fn death_kept(
    alloc: Global,
    order: &mut Order,
    list: &[Status],
    t: TaskId,
) -> Result<Option<Cycle>, NoMemory>
    requires in_order { IsInOrder list.now }
    requires tasks { (s : Status) → Contains list.now s → IsTaskOf order.old s.t }
    ensures tasks { length order.new.positions ≡ length order.old.positions }
    ensures outcome { IfOk result (IsOutcome list.now t.0) }
    ensures pairs { IfOk result (HoldsOrOtherDead list.now order.old order.new) }
{
    let deps = DepState::of(alloc, list)?;
    match order.follow(alloc, &deps)? {
        Followed::Kept => Ok(None),
        Followed::Dead => death_of(alloc, list, t, Wanted::Wfg),
    }
}
