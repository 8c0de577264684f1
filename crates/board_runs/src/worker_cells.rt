// The cells of a worker, and its judge.
ghost use Rattle.std.specs.Prelude.{◌≡◌, ◌≤◌, ◌+◌, IfOk, OnOk, length};
ghost use Rattle.board_runs.specs.calls.Turns.{in_64_bits};

use armus_base::NoMemory;
use avoider::{Judge, Judging};
use board::Board;
use phase_scan::Cells;
use std::alloc::Global;
use std::marker::Model;

/// The cells with which a worker collects what it decides by, and its judge. The cells are made when they are first needed, and both are kept from round to
/// round.
#[derive(Drop)]
pub struct WorkerCells {
    tasks: u32,
    phasers: u32,
    cells: Option<Cells>,
    judging: Judging,
    judge: Judge,
    // how many words the awaits that were begun with these load, as a board is defined
    loads_for_awaits: u64,
    // how many of these loads were made for sure
    loads: u64,
}

impl Model for WorkerCells {
    ghost use Rattle.board_runs.specs.calls.Turns.{WorkerLoads};
    ghost use Rattle.board_runs.specs.inside.Workers.{Fit, worker_of};

    ghost Value = { WorkerLoads };

    ghost view = { worker_of };

    ghost invariant = { Fit };
}

impl WorkerCells {
    /// No cells yet, and a judge that has judged nothing.
    pub fn new(judging: Judging) -> WorkerCells {
        WorkerCells {
            tasks: 0,
            phasers: 0,
            cells: None,
            judging,
            judge: Judge::new(judging),
            loads_for_awaits: 0,
            loads: 0,
        }
    }

    /// Whether its judge keeps an order.
    pub(crate) fn keeps_order(&self) -> bool {
        match self.judging {
            Judging::Graph(_) => false,
            Judging::Order => true,
        }
    }

    /// How many words the awaits that were begun with these cells load, as a board is defined, up to 2^64 - 1: each that was published one of each task, and
    /// each on which was decided those of its collect.
    pub fn loads_for_awaits(&self) -> u64 {
        self.loads_for_awaits
    }

    /// An await was begun, which loads so many words.
    pub(crate) fn note_await(&mut self, loads: u64)
        ensures { self.new.loads ≡ self.old.loads }
    {
        self.loads_for_awaits = self.loads_for_awaits.saturating_add(loads);
    }

    /// How many loads the seats of the tasks have made that acted with these cells, up to 2^64 - 1: those of their looks and of their tries for the lock, and
    /// of each collect those of the await words.
    pub(crate) fn loads(&self) -> u64
        ensures { result ≡ self.now.loads }
    {
        self.loads
    }

    /// A seat has made so many loads more.
    pub(crate) fn note_loads(&mut self, loads: u64)
        ensures { self.new.loads ≡ in_64_bits (self.old.loads + loads) }
    {
        self.loads = self.loads.saturating_add(loads);
    }

    /// Takes the cells and the judge out, and makes the cells where there are none for this board.
    pub(crate) fn take(&mut self, alloc: Global, board: &Board) -> Result<(Cells, Judge), NoMemory>
        ensures tasks { IfOk result (λ own. own.0.tasks ≡ length board.now.plan.parents) }
        ensures phasers { IfOk result (λ own. own.0.phasers ≡ length board.now.plan.makers) }
        ensures loads { self.new.loads ≡ self.old.loads }
    {
        let tasks = board.tasks();
        let phasers = board.phasers();
        let fit = self.tasks == tasks && self.phasers == phasers;
        let cells = match (self.cells.take(), fit) {
            (Some(cells), true) => cells,
            _ => Cells::start(alloc, tasks, phasers)?,
        };
        let judge = std::mem::replace(&mut self.judge, Judge::new(self.judging));
        Ok((cells, judge))
    }

    /// Keeps the cells and the judge.
    pub(crate) fn keep(&mut self, board: &Board, cells: Cells, judge: Judge)
        requires tasks { cells.tasks ≡ length board.now.plan.parents }
        requires phasers { cells.phasers ≡ length board.now.plan.makers }
        ensures loads { self.new.loads ≡ self.old.loads }
    {
        self.tasks = board.tasks();
        self.phasers = board.phasers();
        self.cells = Some(cells);
        self.judge = judge;
    }
}

/// As many cells as workers, and for one worker at least.
pub(crate) fn provide(
    cells: &mut Vec<WorkerCells>,
    workers: u8,
    judging: Judging,
) -> Result<(), NoMemory>
    ensures enough { OnOk result (workers ≤ length cells.new.items) }
    ensures cells { OnOk result (1 ≤ length cells.new.items) }
{
    let enough = workers.max(1) as usize;
    for _count in cells.len()..enough {
        cells.push(WorkerCells::new(judging))?;
    }
    Ok(())
}
