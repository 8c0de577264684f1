// The successors of each node, as ascending rows.
ghost use Rattle.std.specs.Prelude.{◌≡◌, ◌↔◌, ◌⊎◌, ℕ, ◌+◌, ◌<◌, length, IfOk, OnOk, OnErr, MatchBool, All, Contains, if◌then◌else◌};
ghost use Rattle.digraph.specs.calls.Graph.{HasEdge, AddsEdge, graph_of, Ascends};
ghost use Rattle.digraph.specs.inside.Rows.{IsGraph, edge_count};

use std::alloc::AllocError;

// Puts a number into an ascending row, unless it stands there.
fn put(row: &mut Vec<u32>, b: u32) -> Result<bool, AllocError>
    requires { Ascends row.old.items }
    ensures ascends { Ascends row.new.items }
    ensures within { (n : ℕ) → b < n → All (λ x. x < n) row.old.items → All (λ x. x < n) row.new.items }
    ensures members { OnOk result ((x : ℕ) → Contains row.new.items x ↔ (Contains row.old.items x ⊎ (x ≡ b))) }
    ensures fresh { IfOk result (λ fresh. MatchBool fresh (¬ Contains row.old.items b) (Contains row.old.items b)) }
    ensures len { IfOk result (λ fresh. length row.new.items ≡ length row.old.items + (if fresh then 1 else 0)) }
    ensures err { OnErr result (row.new.items ≡ row.old.items) }
{
    match row.binary_search(&b) {
        Ok(_) => Ok(false),
        Err(place) => {
            row.insert(place, b)?;
            Ok(true)
        }
    }
}

/// Adds an edge to the rows; false where it was there.
pub fn add_edge(rows: &mut Vec<Vec<u32>>, a: u32, b: u32) -> Result<bool, AllocError>
    requires graph { IsGraph (graph_of rows.old.items) }
    requires from { a < length rows.old.items }
    requires to { b < length rows.old.items }
    ensures graph { IsGraph (graph_of rows.new.items) }
    ensures edges { OnOk result (AddsEdge (graph_of rows.old.items) (graph_of rows.new.items) a b) }
    ensures fresh { IfOk result (λ fresh. MatchBool fresh (¬ HasEdge (graph_of rows.old.items) a b) (HasEdge (graph_of rows.old.items) a b)) }
    ensures count { IfOk result (λ fresh. edge_count (graph_of rows.new.items) ≡ edge_count (graph_of rows.old.items) + (if fresh then 1 else 0)) }
    ensures err { OnErr result (graph_of rows.new.items ≡ graph_of rows.old.items) }
{
    put(&mut rows[a as usize], b)
}
