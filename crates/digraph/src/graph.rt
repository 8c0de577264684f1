// A directed graph to which edges are added.
ghost use Rattle.std.specs.Prelude.{◌≡◌, ◌<◌, ℕ, [], length, replicate, All, IfOk, OnOk, OnErr, MatchBool, MatchOption};
ghost use Rattle.armus_base.specs.Counts.{IsCount};
ghost use Rattle.armus_base.specs.calls.Relations.{ReachesCycle};
ghost use Rattle.armus_base.specs.Relations.{IsWalkCycle};
ghost use Rattle.digraph.specs.calls.Graph.{TellsCycles, HasEdge, AddsEdge, AddsEdges, AddsSomeEdges};
ghost use Rattle.digraph.specs.calls.Cycle.{IsLeastSuccessor};

use crate::cycle::{successors, walk_cycle};
use crate::rows::add_edge;
use crate::search::reaching;
use armus_base::{List, NoMemory};
use std::alloc::Global;
use std::marker::Model;

/// A directed graph on the nodes from 0 up to a number that is given when it is made. Contracts see it as the list of each node's
/// successors, ascending without repeats.
#[derive(Drop)]
pub struct Digraph {
    rows: Vec<Vec<u32>>,
    count: u64,
}

impl Model for Digraph {
    ghost use Rattle.std.specs.Prelude.{◌≡◌, ◌<◌, List, ℕ, length};
    ghost use Rattle.digraph.specs.calls.Graph.{graph_of};
    ghost use Rattle.digraph.specs.inside.Rows.{IsDigraph};

    ghost Value = { List (List ℕ) };

    ghost view = { λ g. graph_of g.rows.items };

    ghost invariant = { λ g. IsDigraph (graph_of g.rows.items) g.count };
}

impl Digraph {
    /// A graph with this number of nodes and no edges.
    pub fn new(alloc: Global, nodes: u32) -> Result<Digraph, NoMemory>
        ensures { IfOk result (λ g. g ≡ replicate nodes []) }
    {
        let mut rows = Vec::with_capacity(alloc, nodes as usize)?;
        for _ in 0..nodes {
            rows.push(Vec::new(alloc))?;
        }
        Ok(Digraph { rows, count: 0 })
    }

    /// Adds the edge from `a` to `b`. False comes exactly where the edge was there. After `NoMemory` the graph is as it was.
    pub fn add(&mut self, a: u32, b: u32) -> Result<bool, NoMemory>
        requires from { a < length self.old }
        requires to { b < length self.old }
        ensures edges { OnOk result (AddsEdge self.old self.new a b) }
        ensures fresh { IfOk result (λ fresh. MatchBool fresh (¬ HasEdge self.old a b) (HasEdge self.old a b)) }
        ensures err { OnErr result (self.new ≡ self.old) }
    {
        let fresh = add_edge(&mut self.rows, a, b)?;
        if fresh {
            self.count += 1;
        }
        Ok(fresh)
    }

    /// Adds an edge from `a` to each node of a list. After `NoMemory` some of them may have been added, and the edges that were there still are.
    pub fn add_all(&mut self, a: u32, list: &[u32]) -> Result<(), NoMemory>
        requires from { a < length self.old }
        requires to { All (λ b. b < length self.old) list.now }
        ensures nodes { length self.new ≡ length self.old }
        ensures edges { OnOk result (AddsEdges self.old self.new a list.now) }
        ensures err { OnErr result (AddsSomeEdges self.old self.new a list.now) }
    {
        for b in list {
            let _ = self.add(a, *b)?;
        }
        Ok(())
    }

    /// The number of distinct edges.
    pub fn edges(&self) -> u64
        ensures { IsCount (λ (p : ℕ × ℕ). HasEdge self.now p.0 p.1) result }
    {
        self.count
    }

    /// Whether each node reaches a cycle, in linear time in nodes and edges. A loop edge is a cycle.
    pub fn reaching(&self, alloc: Global) -> Result<List<bool>, NoMemory>
        ensures { IfOk result (λ answers. TellsCycles self.now answers) }
    {
        let answers = reaching(alloc, &self.rows)?;
        Ok(List::from_vec(answers))
    }

    /// The walk from `v` that goes each time to the least successor that reaches a cycle: its part from the first node that comes back.
    /// None exactly where `v` reaches no cycle.
    pub fn cycle_from(&self, alloc: Global, v: u32) -> Result<Option<List<u32>>, NoMemory>
        requires { v < length self.now }
        ensures { IfOk result (λ found. MatchOption found (¬ ReachesCycle (HasEdge self.now) v) (λ cycle. IsWalkCycle (IsLeastSuccessor self.now) v cycle)) }
    {
        let answers = reaching(alloc, &self.rows)?;
        if !answers[v as usize] {
            return Ok(None);
        }
        let next = successors(alloc, &self.rows, &answers)?;
        let cycle = walk_cycle(alloc, &next, v)?;
        Ok(Some(List::from_vec(cycle)))
    }
}
