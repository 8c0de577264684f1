// The cells of a collect.
ghost use Rattle.std.specs.Prelude.{◌≡◌, ◌<◌, ◌≤◌, ◌*◌, [], IfOk, length};
ghost use Rattle.armus_base.specs.Limits.{max_cells, max_tasks};
ghost use Rattle.armus_base.specs.calls.Statuses.{IsInOrder};
ghost use Rattle.board.specs.calls.Seats.{IsOf};
ghost use Rattle.phase_scan.specs.calls.Looks.{LoadsAlone};
ghost use Rattle.phase_scan.specs.calls.OffCycle.{SupposesOrExcludes};
ghost use Rattle.phase_scan.specs.calls.Supposed.{IsSupposed};
ghost use Rattle.phase_scan.specs.calls.Collecting.{HasCollected};

use crate::findings::Findings;
use armus_base::{Event, List, NoMemory, Phase, Status};
use board::{Board, Loads, TaskSeat};
use std::alloc::Global;
use std::marker::Model;

/// Room for what a collect finds. Contracts see for how many tasks and phasers it is, and the statuses that the last collect found.
#[derive(Drop)]
pub struct Cells {
    found: Findings,
    // of each task found waiting the phase on the phaser of an event that counts; None for the others
    column: Vec<Option<Phase>>,
}

impl Model for Cells {
    ghost use Rattle.phase_scan.specs.calls.Collects.{Collection};

    ghost Value = { Collection };

    ghost use Rattle.phase_scan.specs.calls.Buffers.{collection_of};
    ghost use Rattle.phase_scan.specs.inside.Cells.{AreCells};

    ghost view = { collection_of };

    ghost invariant = { AreCells };
}

impl Cells {
    /// Room for a collect of a board with so many tasks and phasers. Nothing is found yet.
    pub fn start(alloc: Global, tasks: u32, phasers: u32) -> Result<Cells, NoMemory>
        requires tasks { tasks ≤ max_tasks }
        requires cells { tasks * phasers ≤ max_cells }
        ensures tasks { IfOk result (λ cells. cells.tasks ≡ tasks) }
        ensures phasers { IfOk result (λ cells. cells.phasers ≡ phasers) }
        ensures nothing { IfOk result (λ cells. cells.statuses ≡ []) }
    {
        Ok(Cells {
            found: Findings::new(alloc, tasks, phasers)?,
            column: vec![in alloc; None; tasks as usize]?,
        })
    }

    /// Loads the await words of all tasks, in order, and then, for each task found waiting, its phase word on each of the distinct phasers found
    /// awaited, both in order. A seat that knows all tasks exactly, as a viewer that has taken in every seat, finds the statuses of the state that
    /// the board is in.
    pub fn collect<L: Loads>(&mut self, by: &mut L, board: &Board)
        requires made { IsOf (L.known by.old) board.now }
        requires tasks { self.old.tasks ≡ length board.now.plan.parents }
        requires phasers { self.old.phasers ≡ length board.now.plan.makers }
        ensures tasks { self.new.tasks ≡ self.old.tasks }
        ensures phasers { self.new.phasers ≡ self.old.phasers }
        ensures collected { HasCollected board.now.plan self.new.statuses (L.known by.old) (L.known by.new) }
    {
        self.found.unmark();
        self.found.load_awaits(by, board);
        self.found.load_rows(by, board);
    }

    /// How many words the last collect loaded, up to 2^64 - 1: the await word of each task, and of each one found waiting a phase on each phaser found
    /// awaited.
    pub fn loads(&self) -> u64 {
        self.found.loads()
    }

    /// The statuses that the last collect found, in order: of each task found waiting, with its phases on the phasers found awaited.
    pub fn statuses(&self, alloc: Global) -> Result<List<Status>, NoMemory>
        ensures statuses { IfOk result (λ list. list ≡ self.now.statuses) }
        ensures in_order { IsInOrder self.now.statuses }
    {
        self.found.statuses(alloc)
    }

    /// The statuses that the last collect found, and that of the seat's own task as if it had published the event, with phases on the event's phaser
    /// too. First it loads the phase on that phaser of each task found waiting, in order, and then the own ones. Where a task was found waiting on that
    /// phaser, the collect has found the phases on it, and these count; else those that are loaded now.
    pub fn supposed(
        &mut self,
        alloc: Global,
        seat: &mut TaskSeat,
        board: &Board,
        event: Event,
    ) -> Result<List<Status>, NoMemory>
        requires made { IsOf seat.old board.now }
        requires tasks { self.old.tasks ≡ length board.now.plan.parents }
        requires phasers { self.old.phasers ≡ length board.now.plan.makers }
        requires event { event.p.0 < length board.now.plan.makers }
        ensures cells { self.new ≡ self.old }
        ensures goes_on { LoadsAlone seat.old seat.new }
        ensures supposed { IfOk result (λ list. IsSupposed board.now.plan self.old.statuses event list seat.old seat.new) }
    {
        let t = seat.id();
        self.found
            .load_column(self.column.as_mut_slice(), seat, board, event.p);
        let list = self
            .found
            .supposed(alloc, seat, board, t, event, self.column.as_slice())?;
        Ok(list)
    }

    /// The same, by the same loads. There is no list where by these statuses nobody impedes the event, or the own task impedes no awaited event: then it lies
    /// on no cycle of them, and no list is made.
    pub fn supposed_on_cycle(
        &mut self,
        alloc: Global,
        seat: &mut TaskSeat,
        board: &Board,
        event: Event,
    ) -> Result<Option<List<Status>>, NoMemory>
        requires made { IsOf seat.old board.now }
        requires tasks { self.old.tasks ≡ length board.now.plan.parents }
        requires phasers { self.old.phasers ≡ length board.now.plan.makers }
        requires event { event.p.0 < length board.now.plan.makers }
        ensures cells { self.new ≡ self.old }
        ensures goes_on { LoadsAlone seat.old seat.new }
        ensures supposed { IfOk result (λ found. SupposesOrExcludes board.now.plan self.old.statuses event found seat.old seat.new) }
    {
        let t = seat.id();
        self.found
            .load_column(self.column.as_mut_slice(), seat, board, event.p);
        let column = self.column.as_slice();
        if self.found.excludes_cycle(seat, board, event, column) {
            return Ok(None);
        }
        let list = self.found.supposed(alloc, seat, board, t, event, column)?;
        Ok(Some(list))
    }
}
