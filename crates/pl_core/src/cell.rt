// The cells of one phaser: a cell for each task that is a member of it at some time.
ghost use Rattle.std.specs.Prelude.{◌≡◌, ◌<◌, Some, length, slice_get, MatchOption, MatchBool};
ghost use Rattle.pl_core.specs.inside.Cells.{CellsAscend, IsLowerBoundIn, StandsInCell, StandsIn, phase_in_cell};

use armus_base::Phase;

/// A task, and its phase where it is a member.
#[derive(Clone, Copy, Debug, PartialEq, Eq)]
pub(crate) struct Cell {
    pub(crate) task: u32,
    pub(crate) phase: Option<Phase>,
}

// Whether the cell at a place is that of task `t`.
fn is_at(cells: &[Cell], at: usize, t: u32) -> bool
    ensures { MatchBool result (StandsInCell cells.now at t) (StandsInCell cells.now at t → ⊥) }
{
    at < cells.len() && cells[at].task == t
}

// The place at which the cell of task `t` stands where the cells are those of consecutive tasks.
fn guess(cells: &[Cell], t: u32) -> usize {
    if cells.len() > 0 && cells[0].task <= t {
        (t - cells[0].task) as usize
    } else {
        0
    }
}

// The first place from which on no task is below `t`.
fn first_from(cells: &[Cell], t: u32) -> usize
    requires { CellsAscend cells.now }
    ensures { IsLowerBoundIn cells.now t result }
{
    cells.partition_point(|cell| cell.task < t)
}

/// The place of the cell of task `t`: one look where the cells are those of consecutive tasks, and else a binary search.
pub(crate) fn place_of(cells: &[Cell], t: u32) -> Option<usize>
    requires ascend { CellsAscend cells.now }
    ensures { MatchOption result (StandsIn cells.now t → ⊥) (λ k. StandsInCell cells.now k t) }
{
    let near = guess(cells, t);
    if is_at(cells, near, t) {
        return Some(near);
    }
    let at = first_from(cells, t);
    if is_at(cells, at, t) { Some(at) } else { None }
}

/// The first place from which on no task is below `t`: one look where the cells are those of consecutive tasks, and else a binary search.
pub(crate) fn place_from(cells: &[Cell], t: u32) -> usize
    requires ascend { CellsAscend cells.now }
    ensures { IsLowerBoundIn cells.now t result }
{
    let near = guess(cells, t);
    if is_at(cells, near, t) {
        return near;
    }
    first_from(cells, t)
}

/// The phase in the cell at a place.
pub(crate) fn phase_at(cells: &[Cell], at: usize) -> Option<Phase>
    requires { at < length cells.now }
    ensures { result ≡ phase_in_cell cells.now at }
{
    cells[at].phase
}
