// The edges of the whole state graph, event by event.
ghost use Rattle.std.specs.Prelude.{◌≡◌, ◌↔◌, ◌⊎◌, ◌<◌, ℕ, length, Contains, slice_index, IfOk, OnOk};
ghost use Rattle.digraph.specs.calls.Graph.{HasEdge};
ghost use Rattle.dep_state.specs.calls.Deps.{impeders_of};
ghost use Rattle.state_graph.specs.inside.Growing.{IsWhole};

use armus_base::NoMemory;
use dep_state::DepState;
use digraph::Digraph;
use std::alloc::Global;

// Adds the edges from an event to what the tasks that impede it await.
fn add_awaits(graph: &mut Digraph, deps: &DepState, event: u32) -> Result<(), NoMemory>
    requires sized { length graph.old ≡ length deps.now.events }
    requires event { event < length deps.now.events }
    ensures nodes { length graph.new ≡ length graph.old }
    ensures edges { OnOk result ((i j : ℕ) → HasEdge graph.new i j ↔
        (HasEdge graph.old i j ⊎ ((u : ℕ) × Contains (impeders_of deps.now event) u × ((i ≡ event) × (j ≡ slice_index deps.now.awaits u))))) }
{
    for u in deps.impeders_at(event) {
        let _ = graph.add(event, deps.awaits_at(*u))?;
    }
    Ok(())
}

/// The graph of all pairs.
pub fn whole(alloc: Global, deps: &DepState) -> Result<Digraph, NoMemory>
    ensures { IfOk result (IsWhole deps.now) }
{
    let events = deps.events().len() as u32;
    let mut graph = Digraph::new(alloc, events)?;
    for e in 0..events {
        add_awaits(&mut graph, deps, e)?;
    }
    Ok(graph)
}
