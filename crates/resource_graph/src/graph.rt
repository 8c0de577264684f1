// The general resource graph.
ghost use Rattle.std.specs.Prelude.{◌≡◌, ◌↔◌, ◌+◌, ◌<◌, ℕ, List, length, IfOk, OnOk, slice_index};
ghost use Rattle.armus_base.specs.Counts.{IsCount};
ghost use Rattle.armus_base.specs.DeadLists.{IsDeadList};
ghost use Rattle.armus_base.specs.Graphs.{Resource, ResourceEdge};
ghost use Rattle.armus_base.specs.calls.Statuses.{IsInOrder};
ghost use Rattle.armus_base.specs.declared.status.Status.{Status};
ghost use Rattle.digraph.specs.calls.Graph.{HasEdge};
ghost use Rattle.dep_state.specs.calls.Deps.{Deps, IsDepsOf};
ghost use Rattle.resource_graph.specs.calls.ResourceEdges.{IsResourcePair, IsResourceGraphOf};

use armus_base::{List, NoMemory, TaskId};
use dep_state::{DepState, picked};
use digraph::Digraph;
use std::alloc::Global;
use std::marker::Model;

/// The general resource graph: an edge goes from each blocked task to the event that it awaits, and from each awaited event to each blocked
/// task that impedes it (PPoPP 2015). Its nodes are the places of the tasks, and after them those of the events.
#[derive(Drop)]
pub struct ResourceGraph {
    tasks: Vec<TaskId>,
    graph: Digraph,
}

impl Model for ResourceGraph {
    ghost use Rattle.std.specs.Prelude.{◌≤◌, length};
    ghost use Rattle.resource_graph.specs.calls.ResourceEdges.{ResourceEdges};

    ghost Value = { ResourceEdges };

    ghost view = { λ g. record { tasks = g.tasks.items; edges = g.graph } };

    ghost invariant = { λ g. length g.tasks.items ≤ length g.graph };
}

// Adds the edge from each task to its event.
fn add_awaits(graph: &mut Digraph, deps: &DepState) -> Result<(), NoMemory>
    requires nodes { length graph.old ≡ length deps.now.tasks + length deps.now.events }
    requires none { (x y : ℕ) → HasEdge graph.old x y → ⊥ }
    ensures nodes { length graph.new ≡ length graph.old }
    ensures edges { OnOk result ((x y : ℕ) → HasEdge graph.new x y ↔
        ((x < length deps.now.tasks) × (y ≡ length deps.now.tasks + slice_index deps.now.awaits x))) }
{
    let count = deps.tasks().len() as u32;
    let events = deps.events().len() as u32;
    for k in 0..count {
        let event = deps.awaits_at(k);
        let _ = graph.add(k, count + event)?;
    }
    Ok(())
}

// Adds the edges from each event to the tasks that impede it.
fn add_impeders(graph: &mut Digraph, deps: &DepState) -> Result<(), NoMemory>
    requires nodes { length graph.old ≡ length deps.now.tasks + length deps.now.events }
    requires awaits { (x y : ℕ) → HasEdge graph.old x y ↔
        ((x < length deps.now.tasks) × (y ≡ length deps.now.tasks + slice_index deps.now.awaits x)) }
    ensures nodes { length graph.new ≡ length graph.old }
    ensures edges { OnOk result ((x y : ℕ) → HasEdge graph.new x y ↔ IsResourcePair deps.now x y) }
{
    let count = deps.tasks().len() as u32;
    let events = deps.events().len() as u32;
    for e in 0..events {
        graph.add_all(count + e, deps.impeders_at(e))?;
    }
    Ok(())
}

impl ResourceGraph {
    /// The graph of these relations.
    pub fn build(alloc: Global, deps: &DepState) -> Result<ResourceGraph, NoMemory>
        ensures { IfOk result (IsResourceGraphOf deps.now) }
    {
        let tasks = Vec::from_slice(alloc, deps.tasks())?;
        let count = tasks.len() as u32;
        let events = deps.events().len() as u32;
        let mut graph = Digraph::new(alloc, count + events)?;
        add_awaits(&mut graph, deps)?;
        add_impeders(&mut graph, deps)?;
        Ok(ResourceGraph { tasks, graph })
    }

    /// The dead tasks of the statuses, in order of number: those that reach a cycle.
    pub fn dead(&self, alloc: Global) -> Result<List<TaskId>, NoMemory>
        ensures { (ss : List Status) (d : Deps) → IsInOrder ss → IsDepsOf ss d → IsResourceGraphOf d self.now →
            IfOk result (IsDeadList ss) }
    {
        let answers = self.graph.reaching(alloc)?;
        let dead = picked(alloc, &self.tasks, answers.as_slice())?;
        Ok(List::from_vec(dead))
    }

    /// The number of distinct edges.
    pub fn edges(&self) -> u64
        ensures { (ss : List Status) (d : Deps) → IsInOrder ss → IsDepsOf ss d → IsResourceGraphOf d self.now →
            IsCount (λ (p : Resource × Resource). ResourceEdge ss p.0 p.1) result }
    {
        self.graph.edges()
    }
}
