// Laws of kept orders.
ghost use Rattle.order_graph.specs.calls.Laws.{OneNearestWalk};

/// The walk that `add` answers for an edge that would close a cycle is the only one by nearest successors.
pub fn there_is_one_nearest_walk()
    ensures { OneNearestWalk }
{}
