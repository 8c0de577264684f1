// The edges of an order are made the pairs of a relation.
ghost use Rattle.std.specs.Prelude.{◌≡◌, ◌<◌, length, All, IfOk, OnOk};
ghost use Rattle.order_graph.specs.calls.Orders.{IsOrder, IsTaskOf};
ghost use Rattle.order_graph.specs.calls.Waits.{AreWaitsAmong, Awaits, own_set};
ghost use Rattle.order_graph.specs.inside.Steps.{AnswersEdges, HasOthers, KeepsPairs, PairsFrom, ToWanted};

use crate::{Added, Followed, Order, TaskSet, Waits};
use armus_base::{NoMemory, TaskId};
use std::alloc::{AllocError, Global};

// The set of those for whom a task waits.
fn own_set(waits: &Waits, t: u32) -> &TaskSet
    requires task { t < length waits.now.own.items }
    requires inside { All (λ i. i < length waits.now.sets.items) waits.now.own.items }
    ensures { result.now ≡ own_set waits.now (record { 0 = t }) }
{
    &waits.sets[waits.own[t as usize] as usize]
}

/// Takes away each edge that is no pair, and tells which tasks may have too few.
pub(crate) fn drop_others(
    alloc: Global,
    order: &mut Order,
    waits: &Waits,
) -> Result<Vec<TaskId>, AllocError>
    requires among { AreWaitsAmong (length order.old.positions) waits.now }
    ensures order { IsOrder order.new }
    ensures tasks { length order.new.positions ≡ length order.old.positions }
    ensures pairs { OnOk result (KeepsPairs (Awaits waits.now) order.old order.new) }
    ensures behind { IfOk result (λ behind. All (IsTaskOf order.old) behind.items) }
    ensures others { IfOk result (λ behind. HasOthers (Awaits waits.now) behind.items order.new) }
{
    let mut behind = Vec::new(alloc);
    for t in 0..order.tasks() {
        if !order.keep_only(TaskId(t), own_set(waits, t)) {
            behind.push(TaskId(t))?;
        }
    }
    Ok(behind)
}

/// Adds the pairs of some tasks that are missing, task by task.
pub(crate) fn add_missing(
    alloc: Global,
    order: &mut Order,
    waits: &Waits,
    behind: &[TaskId],
) -> Result<Followed, NoMemory>
    requires order { IsOrder order.old }
    requires among { AreWaitsAmong (length order.old.positions) waits.now }
    requires tasks { All (IsTaskOf order.old) behind.now }
    ensures order { IsOrder order.new }
    ensures tasks { length order.new.positions ≡ length order.old.positions }
    ensures pairs { IfOk result (AnswersEdges (PairsFrom (Awaits waits.now) behind.now) order.old order.new) }
{
    for t in behind {
        if let Followed::Dead = add_row(alloc, order, *t, own_set(waits, t.0))? {
            return Ok(Followed::Dead);
        }
    }
    Ok(Followed::Kept)
}

// Adds the edges from a task to the tasks of a set that are missing.
fn add_row(
    alloc: Global,
    order: &mut Order,
    t: TaskId,
    wanted: &TaskSet,
) -> Result<Followed, NoMemory>
    requires order { IsOrder order.old }
    requires task { IsTaskOf order.old t }
    requires wanted { All (IsTaskOf order.old) wanted.now }
    ensures order { IsOrder order.new }
    ensures tasks { length order.new.positions ≡ length order.old.positions }
    ensures row { IfOk result (AnswersEdges (ToWanted t wanted.now) order.old order.new) }
{
    let row = order.row(t);
    if row.is_same(wanted) {
        return Ok(Followed::Kept);
    }
    let missing = wanted.tasks_less(alloc, row)?;
    add_edges(alloc, order, t, &missing)
}

// Adds the edges from a task to others.
fn add_edges(
    alloc: Global,
    order: &mut Order,
    t: TaskId,
    wanted: &[TaskId],
) -> Result<Followed, NoMemory>
    requires order { IsOrder order.old }
    requires task { IsTaskOf order.old t }
    requires wanted { All (IsTaskOf order.old) wanted.now }
    ensures order { IsOrder order.new }
    ensures tasks { length order.new.positions ≡ length order.old.positions }
    ensures row { IfOk result (AnswersEdges (ToWanted t wanted.now) order.old order.new) }
{
    for b in wanted {
        match order.add(alloc, t, *b)? {
            Added::Kept => {}
            Added::Cycle(_) => return Ok(Followed::Dead),
        }
    }
    Ok(Followed::Kept)
}
