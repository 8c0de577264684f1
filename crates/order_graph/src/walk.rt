// The walk from a task to a goal by nearest successors.
ghost use Rattle.std.specs.Prelude.{◌≢◌, ℕ, IfOk};
ghost use Rattle.armus_base.specs.calls.Relations.{Walk};
ghost use Rattle.order_graph.specs.calls.Adding.{IsNearest, IsNearestWalk};
ghost use Rattle.order_graph.specs.calls.Orders.{IsEdge, IsOrder, IsTaskOf};
ghost use Rattle.order_graph.specs.inside.Distances.{IsListedFurther, IsListedIn, TellDistances};

use crate::Order;
use crate::distances::nearest;
use armus_base::TaskId;
use std::alloc::{AllocError, Global};

// The nearest successor of a task that reaches the goal and is not the goal.
fn next(
    alloc: Global,
    order: &Order,
    goal: TaskId,
    far: &[Option<u32>],
    t: TaskId,
) -> Result<TaskId, AllocError>
    requires order { IsOrder order.now }
    requires goal { IsTaskOf order.now goal }
    requires listed { IsListedIn order.now goal far.now t }
    requires tells { TellDistances order.now goal far.now }
    requires reaches { (n : ℕ) × Walk (IsEdge order.now) n t goal }
    requires other { t ≢ goal }
    ensures nearest { IfOk result (IsNearest order.now goal t) }
    ensures goes_on { IfOk result (IsListedFurther order.now goal far.now t) }
{
    let found = nearest(alloc, order, goal, far, t)?;
    match found {
        Some(near) => Ok(near.next),
        None => unreachable!(),
    }
}

/// The walk from a task that reaches the goal, by nearest successors.
pub(crate) fn nearest_walk(
    alloc: Global,
    order: &Order,
    start: TaskId,
    goal: TaskId,
    far: &[Option<u32>],
) -> Result<Vec<TaskId>, AllocError>
    requires order { IsOrder order.now }
    requires goal { IsTaskOf order.now goal }
    requires listed { IsListedIn order.now goal far.now start }
    requires tells { TellDistances order.now goal far.now }
    requires reaches { (n : ℕ) × Walk (IsEdge order.now) n start goal }
    ensures { IfOk result (λ list. IsNearestWalk order.now start goal list.items) }
{
    let mut list = Vec::new(alloc);
    let mut t = start;
    'walk: while t != goal {
        list.push(t)?;
        t = next(alloc, order, goal, far, t)?;
    }
    list.push(t)?;
    Ok(list)
}
