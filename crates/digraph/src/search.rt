// A search of each node in turn for cycles that it reaches, along a stack of nodes.
ghost use Rattle.std.specs.Prelude.{◌≡◌, ◌^◌, ℕ, ◌<◌, ◌≤◌, List, [], length, map, All, IfOk, OnOk, IfSome, IfNone, ◌-◌, slice_index, count_by};
ghost use Rattle.armus_base.specs.calls.Relations.{ReachesCycle};
ghost use Rattle.digraph.specs.calls.Graph.{TellsCycles, HasEdge, graph_of};
ghost use Rattle.digraph.specs.inside.Rows.{IsGraph};
ghost use Rattle.digraph.specs.inside.Search.{AllAreMarked, IsAhead, IsMarked, IsSearch, KeepsMarked, is_cyclic, is_unvisited, row_of, work};

use std::alloc::{AllocError, Global};

#[derive(Clone, Copy, PartialEq, Eq)]
enum Mark {
    // no step was made to the node
    Unvisited,
    // the node stands on the stack
    OnStack,
    // the node reaches no cycle
    Acyclic,
    // the node reaches a cycle
    Cyclic,
}

// Marks the nodes on the stack as reaching a cycle, and empties it.
fn mark_cyclic(marks: &mut Vec<Mark>, stack: &mut Vec<u32>)
    requires { All (λ v. v < length marks.old.items) stack.old.items }
    ensures empty { stack.new.items ≡ [] }
    ensures fewer { count_by is_unvisited marks.new.items ≤ count_by is_unvisited marks.old.items }
    ensures stays { KeepsMarked marks.old.items marks.new.items }
    ensures search { (g : List (List ℕ)) (left : List ℕ) → IsSearch g marks.old.items left stack.old.items →
        All (ReachesCycle (HasEdge g)) stack.old.items → IsSearch g marks.new.items left [] }
{
    while let Some(v) = stack.pop() {
        marks[v as usize] = Mark::Cyclic;
    }
}

// The top of the stack.
fn last(stack: &[u32]) -> u32
    requires { 0 < length stack.now }
    ensures { result ≡ slice_index stack.now (length stack.now - 1) }
{
    stack[stack.len() - 1]
}

// The successor of a node that is looked at next, if one is left.
fn ahead(rows: &[Vec<u32>], left: &[usize], node: u32) -> Option<u32>
    requires graph { IsGraph (graph_of rows.now) }
    requires node { node < length rows.now }
    requires sized { length left.now ≡ length rows.now }
    requires bounded { slice_index left.now node ≤ length (row_of (graph_of rows.now) node) }
    ensures none { IfNone result (slice_index left.now node ≡ 0) }
    ensures some { IfSome result (IsAhead (graph_of rows.now) left.now node) }
{
    let unseen = left[node as usize];
    if unseen == 0 {
        return None;
    }
    let row = &rows[node as usize];
    Some(row[unseen - 1])
}

// One step of the search: looks at one more successor of the node on top of the stack.
fn step(
    rows: &[Vec<u32>],
    marks: &mut Vec<Mark>,
    left: &mut Vec<usize>,
    stack: &mut Vec<u32>,
) -> Result<(), AllocError>
    requires graph { IsGraph (graph_of rows.now) }
    requires search { IsSearch (graph_of rows.now) marks.old.items left.old.items stack.old.items }
    requires more { 0 < length stack.old.items }
    ensures search { OnOk result (IsSearch (graph_of rows.now) marks.new.items left.new.items stack.new.items) }
    ensures stays { OnOk result (KeepsMarked marks.old.items marks.new.items) }
    ensures less { OnOk result (work left.new.items marks.new.items stack.new.items < work left.old.items marks.old.items stack.old.items) }
{
    let top = last(stack);
    match ahead(rows, left, top) {
        None => {
            marks[top as usize] = Mark::Acyclic;
            let _ = stack.pop();
        }
        Some(next) => match marks[next as usize] {
            Mark::Acyclic => left[top as usize] -= 1,
            Mark::Unvisited => {
                stack.push(next)?;
                marks[next as usize] = Mark::OnStack;
            }
            _ => mark_cyclic(marks, stack),
        },
    }
    Ok(())
}

// Finds out whether a node reaches a cycle.
fn settle(
    alloc: Global,
    rows: &[Vec<u32>],
    marks: &mut Vec<Mark>,
    left: &mut Vec<usize>,
    node: u32,
) -> Result<(), AllocError>
    requires graph { IsGraph (graph_of rows.now) }
    requires search { IsSearch (graph_of rows.now) marks.old.items left.old.items [] }
    requires node { node < length rows.now }
    ensures search { OnOk result (IsSearch (graph_of rows.now) marks.new.items left.new.items []) }
    ensures stays { OnOk result (KeepsMarked marks.old.items marks.new.items) }
    ensures marked { OnOk result (IsMarked marks.new.items node) }
{
    let mut stack = Vec::new(alloc);
    stack.push(node)?;
    marks[node as usize] = Mark::OnStack;
    'search: while !stack.is_empty() {
        step(rows, marks, left, &mut stack)?;
    }
    Ok(())
}

// Marks each node by whether it reaches a cycle.
fn settle_all(alloc: Global, rows: &[Vec<u32>]) -> Result<Vec<Mark>, AllocError>
    requires graph { IsGraph (graph_of rows.now) }
    requires few { length rows.now < 2 ^ 32 }
    ensures { IfOk result (λ marks. AllAreMarked (graph_of rows.now) marks.items) }
{
    let mut marks = vec![in alloc; Mark::Unvisited; rows.len()]?;
    let mut left: Vec<usize> = rows.iter().map(|row| row.len()).collect(alloc)?;
    for node in 0..rows.len() as u32 {
        if marks[node as usize] == Mark::Unvisited {
            settle(alloc, rows, &mut marks, &mut left, node)?;
        }
    }
    Ok(marks)
}

// Which of the marks are that of a node that reaches a cycle.
fn answers(alloc: Global, marks: &[Mark]) -> Result<Vec<bool>, AllocError>
    ensures { IfOk result (λ v. v.items ≡ map is_cyclic marks.now) }
{
    marks
        .iter()
        .map(|mark| matches!(mark, Mark::Cyclic))
        .collect(alloc)
}

/// Which nodes reach a cycle: each node is pushed once, and each edge is looked at at most twice.
pub fn reaching(alloc: Global, rows: &[Vec<u32>]) -> Result<Vec<bool>, AllocError>
    requires graph { IsGraph (graph_of rows.now) }
    requires few { length rows.now < 2 ^ 32 }
    ensures { IfOk result (λ answers. TellsCycles (graph_of rows.now) answers.items) }
{
    let marks = settle_all(alloc, rows)?;
    answers(alloc, &marks)
}
