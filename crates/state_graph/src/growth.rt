// The state graph of the first tasks, one task after another.
ghost use Rattle.std.specs.Prelude.{◌≡◌, ◌↔◌, ◌⊎◌, ◌∷◌, ◌+◌, ◌<◌, ◌≤◌, ℕ, List, [], length, replicate, slice_index, IfOk, OnOk, MatchResult};
ghost use Rattle.digraph.specs.calls.Graph.{HasEdge, graph_of};
ghost use Rattle.dep_state.specs.calls.Deps.{impeders_of};
ghost use Rattle.state_graph.specs.inside.Growing.{AreSized, IsGrown, IsGrowing, IsPassing, IsPairBetween, IsWhole, RowsAscend, StaysSmallBelow};
ghost use Rattle.state_graph.specs.inside.Ends.{IsEndAt};

use crate::end::SgEnd;
use armus_base::NoMemory;
use dep_state::DepState;
use digraph::Digraph;
use std::alloc::{AllocError, Global};
use std::mem;

/// The graph of the tasks that were added so far, with what tells where each awaited event goes on: so the tasks that impede an event are visited
/// once, and none of them before a task has awaited it.
#[derive(Drop)]
pub struct Growth {
    /// Its nodes are the places of the events.
    pub graph: Digraph,
    // Of each event whether one of the tasks that were added awaits it.
    seen: Vec<bool>,
    // Of each event how many of the tasks that impede it were passed, in the order of its row.
    next: Vec<usize>,
    // Of each task that was not added the awaited events of which it is the next to be passed.
    waiting: Vec<Vec<u32>>,
}

// Adds the edges from an event to what the tasks up to k that impede it await, from a place of its row on, and gives the place after these.
fn add_impeders(
    graph: &mut Digraph,
    deps: &DepState,
    k: u32,
    event: u32,
    from: usize,
) -> Result<usize, NoMemory>
    requires sized { length graph.old ≡ length deps.now.events }
    requires event { event < length deps.now.events }
    requires from { from ≤ length (impeders_of deps.now event) }
    ensures nodes { length graph.new ≡ length graph.old }
    ensures place { IfOk result (IsPassing (impeders_of deps.now event) k from) }
    ensures edges { IfOk result (λ at. (i j : ℕ) → HasEdge graph.new i j ↔ (HasEdge graph.old i j ⊎ IsPairBetween deps.now event from at i j)) }
{
    let row = deps.impeders_at(event);
    for at in from..row.len() {
        if row[at] > k {
            return Ok(at);
        }
        let _ = graph.add(event, deps.awaits_at(row[at]))?;
    }
    Ok(row.len())
}

// Puts an event to the task at a place of its row, where one stands there.
fn put(
    waiting: &mut Vec<Vec<u32>>,
    deps: &DepState,
    event: u32,
    at: usize,
) -> Result<(), AllocError>
    requires sized { length waiting.old.items ≡ length deps.now.tasks }
    requires event { event < length deps.now.events }
    ensures sized { length waiting.new.items ≡ length waiting.old.items }
    ensures rows { OnOk result ((t e : ℕ) → HasEdge (graph_of waiting.new.items) t e ↔
        (HasEdge (graph_of waiting.old.items) t e ⊎ ((at < length (impeders_of deps.now event)) × (t ≡ slice_index (impeders_of deps.now event) at) × (e ≡ event)))) }
{
    let row = deps.impeders_at(event);
    if at < row.len() {
        waiting[row[at] as usize].push(event)?;
    }
    Ok(())
}

// Passes the tasks up to k that impede an event.
fn follow(growth: &mut Growth, deps: &DepState, k: u32, event: u32) -> Result<(), NoMemory>
    requires sized { AreSized deps.now growth.old.graph growth.old.seen.items growth.old.next.items (graph_of growth.old.waiting.items) }
    requires event { event < length deps.now.events }
    requires from { slice_index growth.old.next.items event ≤ length (impeders_of deps.now event) }
    ensures { (left : List ℕ) → IsGrowing deps.now k (event ∷ left) growth.old.graph growth.old.seen.items growth.old.next.items (graph_of growth.old.waiting.items) →
        OnOk result (IsGrowing deps.now k left growth.new.graph growth.new.seen.items growth.new.next.items (graph_of growth.new.waiting.items)) }
{
    let at = add_impeders(
        &mut growth.graph,
        deps,
        k,
        event,
        growth.next[event as usize],
    )?;
    growth.next[event as usize] = at;
    put(&mut growth.waiting, deps, event, at)?;
    Ok(())
}

// Follows each event of a list.
fn follow_all(growth: &mut Growth, deps: &DepState, k: u32, due: &[u32]) -> Result<(), NoMemory>
    requires growing { IsGrowing deps.now k due.now growth.old.graph growth.old.seen.items growth.old.next.items (graph_of growth.old.waiting.items) }
    ensures { OnOk result (IsGrown deps.now (k + 1) growth.new.graph growth.new.seen.items growth.new.next.items (graph_of growth.new.waiting.items)) }
{
    for event in due {
        follow(growth, deps, k, *event)?;
    }
    Ok(())
}

// Adds the task at k.
fn add_task(alloc: Global, growth: &mut Growth, deps: &DepState, k: u32) -> Result<(), NoMemory>
    requires grown { IsGrown deps.now k growth.old.graph growth.old.seen.items growth.old.next.items (graph_of growth.old.waiting.items) }
    requires task { k < length deps.now.tasks }
    ensures { OnOk result (IsGrown deps.now (k + 1) growth.new.graph growth.new.seen.items growth.new.next.items (graph_of growth.new.waiting.items)) }
{
    let event = deps.awaits_at(k);
    let mut due = mem::replace(&mut growth.waiting[k as usize], Vec::new(alloc));
    if !growth.seen[event as usize] {
        growth.seen[event as usize] = true;
        due.push(event)?;
    }
    follow_all(growth, deps, k, &due)
}

/// Adds the tasks one after another, while at most 2 k edges stand after the first k.
pub fn grow(alloc: Global, growth: &mut Growth, deps: &DepState) -> Result<(), SgEnd>
    requires grown { IsGrown deps.now 0 growth.old.graph growth.old.seen.items growth.old.next.items (graph_of growth.old.waiting.items) }
    ensures { MatchResult result
        (λ _. IsWhole deps.now growth.new.graph × (RowsAscend deps.now → StaysSmallBelow deps.now (length deps.now.tasks + 1)))
        (λ end. RowsAscend deps.now → IsEndAt deps.now end) }
{
    let count = deps.places().len() as u32;
    for k in 0..count {
        if add_task(alloc, growth, deps, k).is_err() {
            return Err(SgEnd::NoMemory);
        }
        let edges = growth.graph.edges();
        if edges > 2 * (k as u64 + 1) {
            return Err(SgEnd::Left { k: k + 1, edges });
        }
    }
    Ok(())
}

// Rows with nothing in them.
fn empty_rows(alloc: Global, count: u32) -> Result<Vec<Vec<u32>>, AllocError>
    ensures { IfOk result (λ rows. graph_of rows.items ≡ replicate count []) }
{
    let mut rows = Vec::new(alloc);
    for _ in 0..count {
        rows.push(Vec::new(alloc))?;
    }
    Ok(rows)
}

/// Before the first task is added.
pub fn start(alloc: Global, deps: &DepState) -> Result<Growth, NoMemory>
    ensures { IfOk result (λ g. IsGrown deps.now 0 g.graph g.seen.items g.next.items (graph_of g.waiting.items)) }
{
    let events = deps.events().len();
    let graph = Digraph::new(alloc, events as u32)?;
    let seen = vec![in alloc; false; events]?;
    let next = vec![in alloc; 0usize; events]?;
    let waiting = empty_rows(alloc, deps.tasks().len() as u32)?;
    Ok(Growth {
        graph,
        seen,
        next,
        waiting,
    })
}
