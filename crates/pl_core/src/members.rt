// The members of one phaser.
ghost use Rattle.std.specs.Prelude.{◌≡◌, ◌≢◌, ◌↔◌, ℕ, ◌<◌, ◌≤◌, ◌+◌, [], Some, false, length, IsTrue, OnOk};
ghost use Rattle.pl_core.specs.inside.Behind.{IsNextBelow};
ghost use Rattle.pl_core.specs.inside.Cells.{AreBelow, CellsAscend, StandsInCell, StandsIn, phase_among};
ghost use Rattle.pl_core.specs.inside.LeastPhases.{IsLeastCell};

use crate::behind::next_behind;
use crate::cell::{Cell, phase_at, place_of};
use crate::least::{Least, least_after};
use armus_base::{NoMemory, Phase};
use std::alloc::Global;

// A cell for each task that is a member at some time, in the order of tasks. The member with the least phase is found anew only when that one goes
// on, and among these cells alone; so whether an event is reached is one comparison.
#[derive(Drop)]
pub(crate) struct Members {
    cells: Vec<Cell>,
    least: Option<Least>,
    ghost ascend: { CellsAscend cells.items },
    ghost least_kept: { IsLeastCell cells.items least },
}

// Whether the last cell is that of task `t`.
fn ends_with(cells: &[Cell], t: u32) -> bool
    ensures there { IsTrue result → StandsIn cells.now t }
    ensures other { result ≡ false → (k : ℕ) → k + 1 ≡ length cells.now → StandsInCell cells.now k t → ⊥ }
{
    cells.len() > 0 && cells[cells.len() - 1].task == t
}

impl Members {
    /// No task has a cell.
    pub(crate) fn none(alloc: Global) -> Members
        ensures empty { result.cells.items ≡ [] }
    {
        Members {
            cells: Vec::new(alloc),
            least: None,
        }
    }

    /// Task `t` gets a cell behind those of the tasks below it; nothing where it has one. It is no member yet.
    pub(crate) fn admit(&mut self, t: u32) -> Result<(), NoMemory>
        requires below { AreBelow (t + 1) self.old.cells.items }
        ensures below { AreBelow (t + 1) self.new.cells.items }
        ensures there { OnOk result (StandsIn self.new.cells.items t) }
        ensures keeps { (u : ℕ) → StandsIn self.old.cells.items u → StandsIn self.new.cells.items u }
        ensures phases { (u : ℕ) → phase_among self.new.cells.items u ≡ phase_among self.old.cells.items u }
    {
        if !ends_with(&self.cells, t) {
            self.cells.push(Cell {
                task: t,
                phase: None,
            })?;
        }
        Ok(())
    }

    /// The phase of task `t`.
    pub(crate) fn get(&self, t: u32) -> Option<Phase>
        ensures { result ≡ phase_among self.now.cells.items t }
    {
        match place_of(&self.cells, t) {
            Some(at) => phase_at(&self.cells, at),
            None => None,
        }
    }

    /// Sets the phase of task `t`; a task without a cell stays no member.
    pub(crate) fn set(&mut self, t: u32, phase: Option<Phase>)
        requires cell { (n : ℕ) → phase ≡ Some n → StandsIn self.old.cells.items t }
        ensures here { phase_among self.new.cells.items t ≡ phase }
        ensures others { (u : ℕ) → u ≢ t → phase_among self.new.cells.items u ≡ phase_among self.old.cells.items u }
        ensures cells { (u : ℕ) → StandsIn self.old.cells.items u → StandsIn self.new.cells.items u }
    {
        if let Some(at) = place_of(&self.cells, t) {
            self.put(at, t, phase);
        }
    }

    // Sets the phase in the cell of task `t`.
    fn put(&mut self, at: usize, t: u32, phase: Option<Phase>)
        requires cell { StandsInCell self.old.cells.items at t }
        ensures here { phase_among self.new.cells.items t ≡ phase }
        ensures others { (u : ℕ) → u ≢ t → phase_among self.new.cells.items u ≡ phase_among self.old.cells.items u }
        ensures cells { (u : ℕ) → StandsIn self.old.cells.items u → StandsIn self.new.cells.items u }
    {
        let before = self.least;
        self.cells[at] = Cell { task: t, phase };
        self.least = least_after(&self.cells, at, before);
    }

    /// The first task from `from` on that is a member with a phase below `n`.
    pub(crate) fn next_behind(&self, from: u32, n: Phase) -> Option<u32>
        ensures { IsNextBelow (phase_among self.now.cells.items) n from result }
    {
        next_behind(&self.cells, from, n)
    }

    /// Whether each member has phase `n` at least.
    pub(crate) fn is_reached(&self, n: u32) -> bool
        ensures { IsTrue result ↔ ((u m : ℕ) → phase_among self.now.cells.items u ≡ Some m → n ≤ m) }
    {
        match self.least {
            None => true,
            Some(member) => n <= member.phase,
        }
    }
}
