// The passes of a detector beside running tasks.
ghost use Rattle.std.specs.Prelude.{◌≡◌, ℕ, false, [], IfOk, OnErr, length};
ghost use Rattle.armus_base.specs.calls.Statuses.{IsInOrder};
ghost use Rattle.board.specs.calls.Seats.{IsOf};
ghost use Rattle.phase_scan.specs.calls.Collecting.{HasCollected};
ghost use Rattle.collector.specs.calls.Passes.{IsPass, was_named};

use crate::naming::{fresh, name};
use crate::verdict::Verdict;
use adaptive::{Wanted, dead_by};
use armus_base::{List, NoMemory, Status};
use board::{Board, ViewSeat};
use phase_scan::Cells;
use std::alloc::Global;
use std::marker::Model;

/// A detector of one board. Contracts see for how many tasks and phasers it is, which tasks it has named, and the statuses that its last pass found.
#[derive(Drop)]
pub struct Collector {
    cells: Cells,
    names: Vec<bool>,
}

impl Model for Collector {
    ghost use Rattle.collector.specs.calls.Passes.{Watch};

    ghost Value = { Watch };

    ghost use Rattle.collector.specs.calls.Collectors.{watch_of};
    ghost use Rattle.collector.specs.inside.Collectors.{IsCollector};

    ghost view = { watch_of };

    ghost invariant = { IsCollector };
}

impl Collector {
    /// A detector of this board, which has named nobody.
    pub fn start(alloc: Global, board: &Board) -> Result<Collector, NoMemory>
        ensures tasks { IfOk result (λ c. c.tasks ≡ length board.now.plan.parents) }
        ensures phasers { IfOk result (λ c. c.phasers ≡ length board.now.plan.makers) }
        ensures nobody { IfOk result (λ c. (t : ℕ) → was_named c.names t ≡ false) }
        ensures nothing { IfOk result (λ c. c.statuses ≡ []) }
    {
        let tasks = board.tasks();
        Ok(Collector {
            cells: Cells::start(alloc, tasks, board.phasers())?,
            names: vec![in alloc; false; tasks as usize]?,
        })
    }

    /// Makes one collect, and names the dead tasks of its statuses. Each task that is dead in every lawful state as far on as what the viewer had
    /// seen before is among them, and only tasks that are dead in every one as far on as what it has seen after. Where the viewer has taken in every
    /// seat, they are just the tasks that are dead in the state that the board is in. After `NoMemory` the named tasks are as before, and the viewer
    /// may have seen more.
    pub fn pass(
        &mut self,
        alloc: Global,
        view: &mut ViewSeat,
        board: &Board,
        wanted: Wanted,
    ) -> Result<Verdict, NoMemory>
        requires made { IsOf view.old board.now }
        requires tasks { self.old.tasks ≡ length board.now.plan.parents }
        requires phasers { self.old.phasers ≡ length board.now.plan.makers }
        ensures tasks { self.new.tasks ≡ self.old.tasks }
        ensures phasers { self.new.phasers ≡ self.old.phasers }
        ensures collected { HasCollected board.now.plan self.new.statuses view.old view.new }
        ensures pass { IfOk result (IsPass self.old self.new view.old view.new) }
        ensures err { OnErr result (self.new.names ≡ self.old.names) }
    {
        self.cells.collect(view, board);
        let list = self.cells.statuses(alloc)?;
        let dead = dead_by(alloc, list.as_slice(), wanted)?;
        let fresh = fresh(alloc, &self.names, list.as_slice(), dead.as_slice())?;
        name(&mut self.names, dead.as_slice());
        Ok(Verdict { dead, fresh })
    }

    /// The statuses that the last pass found, in order.
    pub fn statuses(&self, alloc: Global) -> Result<List<Status>, NoMemory>
        ensures statuses { IfOk result (λ list. list ≡ self.now.statuses) }
        ensures in_order { IsInOrder self.now.statuses }
    {
        self.cells.statuses(alloc)
    }
}
