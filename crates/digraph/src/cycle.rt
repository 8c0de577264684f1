// The walk to a cycle.
ghost use Rattle.std.specs.Prelude.{◌≡◌, ◌^◌, ◌<◌, true, false, length, All, Contains, IfOk, IfSome, IfNone, slice_index, slice_index_or};
ghost use Rattle.armus_base.specs.Relations.{IsWalkCycle};
ghost use Rattle.digraph.specs.calls.Graph.{Ascends, TellsCycles, graph_of};
ghost use Rattle.digraph.specs.inside.Rows.{IsGraph};
ghost use Rattle.digraph.specs.inside.NextTables.{AreNext, IsStepOn};
ghost use Rattle.digraph.specs.calls.Cycle.{IsLeastMarked};

use std::alloc::{AllocError, Global};

/// The least element of an ascending row whose mark is set. None exactly where no element's mark is.
pub fn least_marked(row: &[u32], marks: &[bool]) -> Option<u32>
    requires inside { All (λ b. b < length marks.now) row.now }
    requires ascends { Ascends row.now }
    ensures none { IfNone result (All (λ b. slice_index_or marks.now b false ≡ false) row.now) }
    ensures some { IfSome result (IsLeastMarked row.now marks.now) }
{
    for b in row {
        if marks[*b as usize] {
            return Some(*b);
        }
    }
    None
}

// The least successor that reaches a cycle, of a node that does; another is its own next one.
fn successor(rows: &[Vec<u32>], answers: &[bool], node: u32) -> u32
    requires graph { IsGraph (graph_of rows.now) }
    requires tells { TellsCycles (graph_of rows.now) answers.now }
    requires node { node < length rows.now }
    ensures step { IsStepOn (graph_of rows.now) answers.now node result }
    ensures inside { result < length rows.now }
{
    match least_marked(&rows[node as usize], answers) {
        Some(next) => next,
        None => node,
    }
}

/// For each node its least successor that reaches a cycle, if one does.
pub(crate) fn successors(
    alloc: Global,
    rows: &[Vec<u32>],
    answers: &[bool],
) -> Result<Vec<u32>, AllocError>
    requires graph { IsGraph (graph_of rows.now) }
    requires tells { TellsCycles (graph_of rows.now) answers.now }
    requires few { length rows.now < 2 ^ 32 }
    ensures { IfOk result (λ next. AreNext (IsStepOn (graph_of rows.now) answers.now) (length rows.now) (length rows.now) next.items) }
{
    let mut next = Vec::with_capacity(alloc, rows.len())?;
    for k in 0..rows.len() {
        next.push(successor(rows, answers, k as u32))?;
    }
    Ok(next)
}

/// The walk from a node by a table of each node's next one, to where it comes back: the cycle.
pub fn walk_cycle(alloc: Global, next: &[u32], start: u32) -> Result<Vec<u32>, AllocError>
    requires inside { All (λ b. b < length next.now) next.now }
    requires start { start < length next.now }
    ensures { IfOk result (λ cycle. IsWalkCycle (λ a b. b ≡ slice_index next.now a) start cycle.items) }
{
    let mut seen = vec![in alloc; false; next.len()]?;
    let mut path: Vec<u32> = Vec::new(alloc);
    let mut node = start;
    'walk: while !seen[node as usize] {
        seen[node as usize] = true;
        path.push(node)?;
        node = next[node as usize];
    }
    let at = place(&path, node);
    Vec::from_slice(alloc, &path[at..])
}

// Where a node stands in a list that has it.
fn place(path: &[u32], node: u32) -> usize
    requires { Contains path.now node }
    ensures inside { result < length path.now }
    ensures there { slice_index path.now result ≡ node }
{
    let mut at = 0;
    while path[at] != node {
        at += 1;
    }
    at
}
