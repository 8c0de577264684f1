// The words that threads share.
ghost use Rattle.std.specs.Prelude.{◌≡◌, ◌+◌, ◌*◌, ◌<◌, ◌≤◌, [], Some, None, replicate, length, IfOk};
ghost use Rattle.armus_base.specs.CheckedPlans.{IsCheckedPlan};
ghost use Rattle.armus_base.specs.Limits.{max_tasks, max_phasers};
ghost use Rattle.armus_base.specs.calls.Seats.{seen_by_child};
ghost use Rattle.board.specs.calls.Words.{await_index, phase_index, word_count};
ghost use Rattle.board.specs.calls.Views.{seen};
ghost use Rattle.board.specs.calls.Closing.{AreLastOf};
ghost use Rattle.board.specs.inside.FirstViews.{IsFirstView};
ghost use Rattle.board.specs.calls.Seats.{IsOf, IsNewSeat, nothing_seen};

use crate::mode::{Mode, Setting};
use crate::rule::{BoardTable, TableSeat};
use crate::task_seat::TaskSeat;
use crate::view_seat::ViewSeat;
use crate::words::Words;
use armus_base::{NoMemory, PhaserId, Plan, TaskId};
use std::alloc::Global;
use std::marker::Model;
use std::snapshot::Snapshot;

/// The words of a plan that runs: one lock word, what each task awaits, and its phase on each phaser. Threads share it without a lock (this project's
/// own).
#[derive(Drop)]
pub struct Board {
    pub(crate) cells: BoardTable,
    tasks: u32,
    phasers: u32,
    setting: Setting,
}

impl Model for Board {
    ghost use Rattle.board.specs.calls.Seats.{Frame};

    ghost Value = { Frame };

    ghost use Rattle.board.specs.calls.Boarding.{frame_of};
    ghost use Rattle.board.specs.inside.Boards.{IsBoard};

    ghost view = { frame_of };

    ghost invariant = { IsBoard };
}

// The words of the opening.
fn opening_words(alloc: Global, count: usize) -> Result<Vec<u64>, NoMemory>
    ensures { IfOk result (λ v. v.items ≡ replicate count 0) }
{
    let mut words = Vec::new(alloc);
    words.resize(count, 0)?;
    Ok(words)
}

impl Board {
    /// The board in the opening state, the seat of task 0 and one viewer's seat.
    pub fn start(
        alloc: Global,
        plan: &Plan,
        mode: Mode,
    ) -> Result<(Board, TaskSeat, ViewSeat), NoMemory>
        ensures board { IfOk result (λ r. (r.0.plan ≡ plan.now) × (r.0.mode ≡ mode)) }
        ensures seat { IfOk result (λ r. IsNewSeat r.0 (Some 0) (seen_by_child 0 nothing_seen) r.1) }
        ensures viewer { IfOk result (λ r. IsNewSeat r.0 None nothing_seen r.2) }
    {
        let (board, place) = Board::open(alloc, plan, mode)?;
        let (seat, other) = TaskSeat::begin(&board, place);
        Ok((board, seat, ViewSeat::of(other)))
    }

    // The board, and the first seat's place in its table.
    fn open(alloc: Global, plan: &Plan, mode: Mode) -> Result<(Board, TableSeat), NoMemory>
        ensures board { IfOk result (λ r. (r.0.plan ≡ plan.now) × (r.0.mode ≡ mode)) }
        ensures place { IfOk result (λ r. (r.1.table_id ≡ r.0.table) × (r.1.me.1 ≡ []) × IsFirstView r.0 r.1.me.0) }
    {
        let tasks = plan.tasks();
        let phasers = plan.phasers();
        let words = opening_words(alloc, tasks as usize * (phasers as usize + 1) + 1)?;
        let setting = Setting {
            plan: Snapshot::of(plan),
            mode,
        };
        let (cells, place) = BoardTable::of_words(alloc, words.as_slice(), &setting)?;
        let board = Board {
            cells,
            tasks,
            phasers,
            setting,
        };
        Ok((board, place))
    }

    /// How many tasks the plan has.
    pub fn tasks(&self) -> u32
        ensures counted { result ≡ length self.now.plan.parents }
        ensures checked { IsCheckedPlan self.now.plan }
    {
        self.tasks
    }

    /// How many phasers the plan has.
    pub fn phasers(&self) -> u32
        ensures counted { result ≡ length self.now.plan.makers }
        ensures checked { IsCheckedPlan self.now.plan }
    {
        self.phasers
    }

    /// What the board was started for.
    pub fn mode(&self) -> Mode
        ensures { result ≡ self.now.mode }
    {
        self.setting.mode
    }

    // Where the await word of a task stands.
    pub(crate) fn await_index(&self, t: TaskId) -> usize
        requires { t.0 < length self.now.plan.parents }
        ensures index { result ≡ await_index t.0 }
        ensures inside { result < self.now.table.words }
    {
        let _ = &self.tasks;
        1 + t.0 as usize
    }

    // Where the phase word of a task on a phaser stands.
    pub(crate) fn phase_index(&self, t: TaskId, p: PhaserId) -> usize
        requires { (t.0 < length self.now.plan.parents) × (p.0 < length self.now.plan.makers) }
        ensures index { result ≡ phase_index self.now.plan t.0 p.0 }
        ensures inside { result < self.now.table.words }
    {
        1 + self.tasks as usize + p.0 as usize * self.tasks as usize + t.0 as usize
    }

    /// Ends the board. Its words are those of a lawful state as far on as what the viewer has seen. Where each task that is forked at the viewer's
    /// seen places was taken in, they are those of exactly these places.
    pub fn close(self, view: ViewSeat) -> Words
        requires made { IsOf view self }
        ensures board { (result.plan ≡ self.plan) × (result.mode ≡ self.mode) }
        ensures words { AreLastOf self.plan self.mode (seen view.view) result.words }
    {
        let Board {
            cells,
            tasks,
            phasers: _,
            setting,
        } = self;
        let closed = cells.close_with(view.into_place());
        Words::of(closed, tasks, setting)
    }
}
