// A stretch of an order, put into an order in which an edge from its end to its start goes up.
ghost use Rattle.std.specs.Prelude.{◌≡◌, ◌≤◌, All, IfOk, is_some};
ghost use Rattle.armus_base.specs.declared.ids.TaskId.{TaskId};
ghost use Rattle.order_graph.specs.calls.Orders.{IsOrder, IsTaskOf, position_of};
ghost use Rattle.order_graph.specs.inside.Distances.{IsListedIn, NeverReaches, TellDistances, distance_in};
ghost use Rattle.order_graph.specs.inside.FoundBelow.{TellsFound};
ghost use Rattle.order_graph.specs.inside.Mending.{IsMended, IsStretch};

use crate::Order;
use crate::distances::{distance_in, distances};
use crate::walk::nearest_walk;
use armus_base::TaskId;
use std::alloc::{AllocError, Global};

/// What was found of an edge that goes down.
#[derive(Drop)]
pub(crate) enum FoundBelow {
    /// The edge would close a cycle; this is the walk from its end to its start.
    Walk(Vec<TaskId>),
    /// The tasks of the stretch in an order in which the edge goes up.
    Mended(Vec<TaskId>),
}

// Whether a task reaches the goal.
fn reaches(order: &Order, goal: TaskId, far: &[Option<u32>], t: TaskId) -> bool
    requires goal { IsTaskOf order.now goal }
    requires listed { IsListedIn order.now goal far.now t }
    ensures { result ≡ is_some (distance_in order.now goal far.now t) }
{
    distance_in(order, goal, far, t).is_some()
}

// Those of the stretch that reach the goal, and then the others, each as they stood.
fn mended(
    alloc: Global,
    order: &Order,
    goal: TaskId,
    far: &[Option<u32>],
    stretch: &[TaskId],
) -> Result<Vec<TaskId>, AllocError>
    requires order { IsOrder order.now }
    requires goal { IsTaskOf order.now goal }
    requires listed { All (IsListedIn order.now goal far.now) stretch.now }
    ensures { IfOk result (λ ts. (b : TaskId) → IsTaskOf order.now b → IsStretch order.now b goal stretch.now → TellDistances order.now goal far.now →
        NeverReaches order.now goal b → IsMended order.now goal b ts.items) }
{
    let mut front = Vec::with_capacity(alloc, stretch.len())?;
    let mut back = Vec::new(alloc);
    for t in stretch {
        if reaches(order, goal, far, *t) {
            front.push(*t)?;
        } else {
            back.push(*t)?;
        }
    }
    front.extend_from_slice(&back)?;
    Ok(front)
}

/// What is to be done for an edge from `a` to `b`, which goes down: one pass over the tasks between the two.
pub(crate) fn look(
    alloc: Global,
    order: &Order,
    a: TaskId,
    b: TaskId,
) -> Result<FoundBelow, AllocError>
    requires from { IsTaskOf order.now a }
    requires to { IsTaskOf order.now b }
    requires down { position_of order.now b ≤ position_of order.now a }
    ensures { IfOk result (TellsFound order.now a b) }
{
    let stretch = order.stretch(b, a);
    let far = distances(alloc, order, a, stretch)?;
    if reaches(order, a, &far, b) {
        let list = nearest_walk(alloc, order, b, a, &far)?;
        return Ok(FoundBelow::Walk(list));
    }
    let ts = mended(alloc, order, a, &far, stretch)?;
    Ok(FoundBelow::Mended(ts))
}
