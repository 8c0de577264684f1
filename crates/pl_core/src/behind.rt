// Which members of a phaser have a phase below a number, in order of task.
ghost use Rattle.std.specs.Prelude.{◌<◌, length, MatchBool};
ghost use Rattle.pl_core.specs.inside.Behind.{IsBelow, IsNextBelow};
ghost use Rattle.pl_core.specs.inside.Cells.{CellsAscend, phase_among, phase_in_cell};

use crate::cell::{Cell, phase_at, place_from};
use armus_base::Phase;

// Whether the cell at a place has a phase below `n`.
fn is_behind(cells: &[Cell], at: usize, n: Phase) -> bool
    requires { at < length cells.now }
    ensures { MatchBool result (IsBelow (phase_in_cell cells.now at) n) (IsBelow (phase_in_cell cells.now at) n → ⊥) }
{
    match phase_at(cells, at) {
        Some(m) => m < n,
        None => false,
    }
}

/// The first task from `from` on that is a member with a phase below `n`.
pub(crate) fn next_behind(cells: &[Cell], from: u32, n: Phase) -> Option<u32>
    requires { CellsAscend cells.now }
    ensures { IsNextBelow (phase_among cells.now) n from result }
{
    let first = place_from(cells, from);
    for at in first..cells.len() {
        if is_behind(cells, at, n) {
            return Some(cells[at].task);
        }
    }
    None
}
