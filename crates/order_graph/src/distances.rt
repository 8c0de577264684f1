// How many edges lead from the tasks of a stretch to the task at its end: one pass from there down, since edges go up.
ghost use Rattle.std.specs.Prelude.{◌≡◌, ◌<◌, ◌≤◌, ◌+◌, [], ◌∷◌, ◌++◌, List, length, vec_len, All, IfOk};
ghost use Rattle.armus_base.specs.declared.ids.TaskId.{TaskId};
ghost use Rattle.order_graph.specs.calls.Orders.{OrderValue, IsEdge, IsOrder, IsTaskOf, position_of, successors_of};
ghost use Rattle.order_graph.specs.inside.Distances.{TellsDistance, TellDistances, TellsNearest, IsListedIn, distance_in};
ghost use Rattle.order_graph.specs.inside.Mending.{IsStretch};

use crate::Order;
use armus_base::TaskId;
use std::alloc::{AllocError, Global};

/// A task, and how many edges are left from it to a goal.
#[derive(Clone, Copy)]
pub(crate) struct Near {
    pub(crate) next: TaskId,
    pub(crate) left: u32,
}

/// What a list of distances from a goal has of a task.
pub(crate) fn distance_in(
    order: &Order,
    goal: TaskId,
    far: &[Option<u32>],
    t: TaskId,
) -> Option<u32>
    requires goal { IsTaskOf order.now goal }
    requires listed { IsListedIn order.now goal far.now t }
    ensures { result ≡ distance_in order.now goal far.now t }
{
    let end = order.position(goal);
    let at = order.position(t);
    if end < at {
        return None;
    }
    far[(end - at) as usize]
}

// The nearest of some tasks and of one with a larger number.
fn nearer(best: Option<Near>, next: TaskId, found: Option<u32>) -> Option<Near>
    ensures { (o : OrderValue) (goal : TaskId) (ts : List TaskId) → TellsNearest o goal ts best → All (λ c. c.0 ≤ next.0) ts →
        TellsDistance o goal next found → TellsNearest o goal (ts ++ next ∷ []) result }
{
    match (best, found) {
        (_, None) => best,
        (None, Some(left)) => Some(Near { next, left }),
        (Some(near), Some(left)) => {
            if near.left <= left {
                best
            } else {
                Some(Near { next, left })
            }
        }
    }
}

/// The nearest successor of a task, if one reaches the goal.
pub(crate) fn nearest(
    alloc: Global,
    order: &Order,
    goal: TaskId,
    far: &[Option<u32>],
    t: TaskId,
) -> Result<Option<Near>, AllocError>
    requires order { IsOrder order.now }
    requires goal { IsTaskOf order.now goal }
    requires task { IsTaskOf order.now t }
    requires listed { (c : TaskId) → IsEdge order.now t c → IsListedIn order.now goal far.now c }
    requires tells { TellDistances order.now goal far.now }
    ensures { IfOk result (TellsNearest order.now goal (successors_of order.now t)) }
{
    let successors = order.row(t).tasks(alloc)?;
    let mut best = None;
    for next in &successors {
        let found = distance_in(order, goal, far, *next);
        best = nearer(best, *next, found);
    }
    Ok(best)
}

// The distance of the task that is one position ahead of those whose distances are known.
fn distance(
    alloc: Global,
    order: &Order,
    goal: TaskId,
    far: &[Option<u32>],
    t: TaskId,
) -> Result<Option<u32>, AllocError>
    requires order { IsOrder order.now }
    requires goal { IsTaskOf order.now goal }
    requires task { IsTaskOf order.now t }
    requires ahead { position_of order.now goal ≤ length far.now + position_of order.now t }
    requires tells { TellDistances order.now goal far.now }
    ensures { IfOk result (TellsDistance order.now goal t) }
{
    if t == goal {
        return Ok(Some(0));
    }
    let found = nearest(alloc, order, goal, far, t)?;
    match found {
        Some(near) => Ok(Some(near.left + 1)),
        None => Ok(None),
    }
}

/// The distances of the tasks of a stretch from the task at its end, which come first.
pub(crate) fn distances(
    alloc: Global,
    order: &Order,
    goal: TaskId,
    stretch: &[TaskId],
) -> Result<Vec<Option<u32>>, AllocError>
    requires order { IsOrder order.now }
    requires goal { IsTaskOf order.now goal }
    requires stretch { (b : TaskId) × IsStretch order.now b goal stretch.now }
    ensures tells { IfOk result (λ far. TellDistances order.now goal far.items) }
    ensures sized { IfOk result (λ far. vec_len far ≡ length stretch.now) }
{
    let mut far = Vec::with_capacity(alloc, stretch.len())?;
    for k in 0..stretch.len() {
        let t = stretch[stretch.len() - 1 - k];
        let found = distance(alloc, order, goal, &far, t)?;
        far.push(found)?;
    }
    Ok(far)
}
