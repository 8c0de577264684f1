// The wait-for graph.
ghost use Rattle.std.specs.Prelude.{List, IfOk};
ghost use Rattle.armus_base.specs.Counts.{IsCount};
ghost use Rattle.armus_base.specs.DeadLists.{IsDeadList};
ghost use Rattle.armus_base.specs.Graphs.{WaitsFor};
ghost use Rattle.armus_base.specs.calls.Statuses.{IsInOrder};
ghost use Rattle.armus_base.specs.declared.ids.TaskId.{TaskId};
ghost use Rattle.armus_base.specs.declared.status.Status.{Status};
ghost use Rattle.dep_state.specs.calls.Deps.{Deps, IsDepsOf};
ghost use Rattle.wait_graph.specs.calls.WaitEdges.{IsWaitGraphOf};

use armus_base::{List, NoMemory, TaskId};
use dep_state::{DepState, picked};
use digraph::Digraph;
use std::alloc::Global;
use std::marker::Model;

/// The wait-for graph: an edge goes from a blocked task to each blocked task that impedes the event that it awaits (PPoPP 2015). Its nodes
/// are the places of the tasks.
#[derive(Drop)]
pub struct WaitGraph {
    tasks: Vec<TaskId>,
    graph: Digraph,
}

impl Model for WaitGraph {
    ghost use Rattle.std.specs.Prelude.{◌≡◌, length};
    ghost use Rattle.wait_graph.specs.calls.WaitEdges.{WaitEdges};

    ghost Value = { WaitEdges };

    ghost view = { λ g. record { tasks = g.tasks.items; edges = g.graph } };

    ghost invariant = { λ g. length g.graph ≡ length g.tasks.items };
}

impl WaitGraph {
    /// The graph of these relations.
    pub fn build(alloc: Global, deps: &DepState) -> Result<WaitGraph, NoMemory>
        ensures { IfOk result (IsWaitGraphOf deps.now) }
    {
        let tasks = Vec::from_slice(alloc, deps.tasks())?;
        let count = tasks.len() as u32;
        let mut graph = Digraph::new(alloc, count)?;
        for i in 0..count {
            let event = deps.awaits_at(i);
            graph.add_all(i, deps.impeders_at(event))?;
        }
        Ok(WaitGraph { tasks, graph })
    }

    /// The dead tasks of the statuses, in order of number: those that reach a cycle.
    pub fn dead(&self, alloc: Global) -> Result<List<TaskId>, NoMemory>
        ensures { (ss : List Status) (d : Deps) → IsInOrder ss → IsDepsOf ss d → IsWaitGraphOf d self.now →
            IfOk result (IsDeadList ss) }
    {
        let answers = self.graph.reaching(alloc)?;
        let dead = picked(alloc, &self.tasks, answers.as_slice())?;
        Ok(List::from_vec(dead))
    }

    /// The number of distinct edges.
    pub fn edges(&self) -> u64
        ensures { (ss : List Status) (d : Deps) → IsInOrder ss → IsDepsOf ss d → IsWaitGraphOf d self.now →
            IsCount (λ (p : TaskId × TaskId). WaitsFor ss p.0 p.1) result }
    {
        self.graph.edges()
    }
}
