// The state graph.
ghost use Rattle.std.specs.Prelude.{◌≡◌, ◌↔◌, ◌<◌, ℕ, List, length, All, IfOk, MatchResult};
ghost use Rattle.armus_base.specs.Counts.{IsCount};
ghost use Rattle.armus_base.specs.DeadLists.{IsDeadList};
ghost use Rattle.armus_base.specs.Graphs.{StateEdge, StaysSmall};
ghost use Rattle.armus_base.specs.calls.Statuses.{IsInOrder};
ghost use Rattle.armus_base.specs.declared.event.Event.{Event};
ghost use Rattle.armus_base.specs.declared.status.Status.{Status};
ghost use Rattle.digraph.specs.calls.Graph.{HasEdge};
ghost use Rattle.dep_state.specs.calls.Deps.{Deps, IsDepsOf};
ghost use Rattle.state_graph.specs.calls.StateEdges.{IsStateGraphOf, IsStatePair};
ghost use Rattle.state_graph.specs.inside.Growing.{IsAnswersAt};
ghost use Rattle.state_graph.specs.calls.BoundedEnds.{IsBoundedEnd};

use crate::end::SgEnd;
use crate::growth::{grow, start};
use crate::whole::whole;
use armus_base::{List, NoMemory, TaskId};
use dep_state::{DepState, picked};
use digraph::Digraph;
use std::alloc::{AllocError, Global};
use std::marker::Model;

/// The state graph: an edge goes from an awaited event to another where one task impedes the first and awaits the second (PPoPP 2015). Its
/// nodes are the places of the events.
#[derive(Drop)]
pub struct StateGraph {
    tasks: Vec<TaskId>,
    awaits: Vec<u32>,
    graph: Digraph,
}

impl Model for StateGraph {
    ghost use Rattle.std.specs.Prelude.{◌≡◌, ◌<◌, length, All};
    ghost use Rattle.state_graph.specs.calls.StateEdges.{StateEdges};

    ghost Value = { StateEdges };

    ghost view = { λ g. record { tasks = g.tasks.items; awaits = g.awaits.items; edges = g.graph } };

    ghost invariant = { λ g. (length g.awaits.items ≡ length g.tasks.items) × All (λ e. e < length g.graph) g.awaits.items };
}

// The graph with all tasks added, and what it takes to tell the dead ones.
fn finish(alloc: Global, deps: &DepState, graph: Digraph) -> Result<StateGraph, AllocError>
    requires nodes { length graph ≡ length deps.now.events }
    requires pairs { (i j : ℕ) → HasEdge graph i j ↔ IsStatePair deps.now (length deps.now.tasks) i j }
    ensures { IfOk result (λ g. IsStateGraphOf deps.now g) }
{
    let tasks = Vec::from_slice(alloc, deps.tasks())?;
    let awaits = Vec::from_slice(alloc, deps.places())?;
    Ok(StateGraph {
        tasks,
        awaits,
        graph,
    })
}

// The answers at places.
fn at_places(alloc: Global, answers: &[bool], places: &[u32]) -> Result<Vec<bool>, AllocError>
    requires { All (λ e. e < length answers.now) places.now }
    ensures { IfOk result (λ ats. IsAnswersAt answers.now places.now (length places.now) ats.items) }
{
    let mut ats = Vec::new(alloc);
    for k in 0..places.len() {
        ats.push(answers[places[k] as usize])?;
    }
    Ok(ats)
}

impl StateGraph {
    /// The whole graph of these relations, event by event.
    pub fn build(alloc: Global, deps: &DepState) -> Result<StateGraph, NoMemory>
        ensures { IfOk result (IsStateGraphOf deps.now) }
    {
        let graph = whole(alloc, deps)?;
        let whole = finish(alloc, deps, graph)?;
        Ok(whole)
    }

    /// The graph of these relations, task by task in order of number. `Left` comes exactly where over some first k tasks it has more than 2 k
    /// edges, with the first such k.
    pub fn build_bounded(alloc: Global, deps: &DepState) -> Result<StateGraph, SgEnd>
        ensures { (ss : List Status) → IsInOrder ss → IsDepsOf ss deps.now →
            MatchResult result (λ g. IsStateGraphOf deps.now g × StaysSmall ss) (IsBoundedEnd ss) }
    {
        let Ok(mut growth) = start(alloc, deps) else {
            return Err(SgEnd::NoMemory);
        };
        match grow(alloc, &mut growth, deps) {
            Ok(()) => (),
            Err(end) => return Err(end),
        }
        match finish(alloc, deps, growth.graph) {
            Ok(whole) => Ok(whole),
            Err(_) => Err(SgEnd::NoMemory),
        }
    }

    /// The dead tasks of the statuses, in order of number: those whose event reaches a cycle.
    pub fn dead(&self, alloc: Global) -> Result<List<TaskId>, NoMemory>
        ensures { (ss : List Status) (d : Deps) → IsInOrder ss → IsDepsOf ss d → IsStateGraphOf d self.now →
            IfOk result (IsDeadList ss) }
    {
        let answers = self.graph.reaching(alloc)?;
        let ats = at_places(alloc, answers.as_slice(), &self.awaits)?;
        let dead = picked(alloc, &self.tasks, &ats)?;
        Ok(List::from_vec(dead))
    }

    /// The number of distinct edges.
    pub fn edges(&self) -> u64
        ensures { (ss : List Status) (d : Deps) → IsInOrder ss → IsDepsOf ss d → IsStateGraphOf d self.now →
            IsCount (λ (r : Event × Event). StateEdge ss r.0 r.1) result }
    {
        self.graph.edges()
    }
}
