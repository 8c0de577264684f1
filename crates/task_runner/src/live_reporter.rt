// Who tells of the dead tasks of a run, while it goes on.
ghost use Rattle.std.specs.Prelude.{◌≡◌, ◌++◌, ℕ, List, [], None, false, IfOk, OnOk};
ghost use Rattle.armus_base.specs.declared.status.Dead.{Dead};
ghost use Rattle.report.specs.Live.{live_text};
ghost use Rattle.board.specs.declared.mode.Mode.TheVariants.{Detect};
ghost use Rattle.board.specs.calls.Closing.{AreLastOf};
ghost use Rattle.board.specs.calls.Seats.{IsNewSeat, IsOf, nothing_seen};
ghost use Rattle.board.specs.calls.Views.{seen};
ghost use Rattle.phase_scan.specs.calls.Looks.{LoadsAlone};
ghost use Rattle.board_runs.specs.calls.TaskSeats.{AreTasksOf, KnowsTasks, all_of};
ghost use Rattle.task_runner.specs.calls.DetectRuns.{told};
ghost use Rattle.task_runner.specs.inside.LiveReporters.{HasPassed, TellsMore, IsWatching};

use crate::RunEnd;
use crate::beside::Beside;
use adaptive::Wanted;
use armus_base::{Dead, List, NoMemory, Point, TaskId, Writes};
use board::{Board, ViewSeat, Words};
use board_runs::{BoardTasks, Calls};
use collector::{Collector, Verdict};
use report::live_lines;
use std::alloc::Global;
use std::marker::Model;

/// Tells of the dead tasks of a run on a board, while it goes on.
#[derive(Drop)]
pub(crate) struct LiveReporter {
    collector: Collector,
    view: ViewSeat,
    // the tasks that were named, with their events
    dead: Vec<Dead>,
    // the dead tasks of the last pass, in order
    last: List<TaskId>,
    // the graph that is wanted
    wanted: Wanted,
}

impl Model for LiveReporter {
    ghost use Rattle.task_runner.specs.inside.LiveReporters.{Telling};

    ghost Value = { Telling };

    ghost use Rattle.task_runner.specs.inside.Watching.{telling_of};

    ghost view = { telling_of };
}

impl LiveReporter {
    /// Before the first pass.
    pub(crate) fn start(
        alloc: Global,
        board: &Board,
        view: ViewSeat,
        wanted: Wanted,
    ) -> Result<LiveReporter, NoMemory>
        requires new { IsNewSeat board.now None nothing_seen view }
        ensures watches { IfOk result (IsWatching board.now) }
        ensures nobody { IfOk result (λ live_reporter. live_reporter.dead ≡ []) }
        ensures view { IfOk result (λ live_reporter. live_reporter.view ≡ view) }
    {
        Ok(LiveReporter {
            collector: Collector::start(alloc, board)?,
            view,
            dead: Vec::new(alloc),
            last: List::new(alloc),
            wanted,
        })
    }

    /// One pass, and a line for each task that it is the first to name. After the lines it calls the gate.
    pub(crate) fn tell<C: Calls, K: Writes>(
        &mut self,
        alloc: Global,
        board: &Board,
        gate: &C,
        out: &mut K,
    ) -> Result<(), RunEnd>
        requires watches { IsWatching board.now self.old }
        requires detects { board.now.mode ≡ Detect }
        ensures watches { OnOk result (IsWatching board.now self.new) }
        ensures goes_on { LoadsAlone self.old.view self.new.view }
        ensures passed { OnOk result (HasPassed self.old.view self.new) }
        ensures told { TellsMore board.now.plan self.old.dead self.new.dead (told K.bytes K.failures out.old) (told K.bytes K.failures out.new) result }
    {
        let lines = self.name(alloc, board)?;
        out.write_all(lines.as_slice())?;
        let count = u32::try_from(self.dead.len()).unwrap_or(u32::MAX);
        gate.call(Point::Named { count });
        Ok(())
    }

    /// One pass; answers the lines of the tasks that it is the first to name.
    pub(crate) fn name(&mut self, alloc: Global, board: &Board) -> Result<List<u8>, NoMemory>
        requires watches { IsWatching board.now self.old }
        requires detects { board.now.mode ≡ Detect }
        ensures watches { OnOk result (IsWatching board.now self.new) }
        ensures named { IfOk result (λ lines. (fresh : List Dead) × (self.new.dead ≡ self.old.dead ++ fresh) × (lines ≡ live_text fresh)) }
        ensures goes_on { LoadsAlone self.old.view self.new.view }
        ensures passed { OnOk result (HasPassed self.old.view self.new) }
    {
        let wanted = self.wanted;
        let Verdict { dead, fresh } = self.collector.pass(alloc, &mut self.view, board, wanted)?;
        let lines = live_lines(alloc, fresh.as_slice())?;
        self.dead.append(&mut fresh.into_vec())?;
        self.last = dead;
        Ok(lines)
    }

    /// The tasks end their turns: the viewer knows each of them exactly then.
    pub(crate) fn take_in(&mut self, board: &Board, board_tasks: BoardTasks<'_>)
        requires watches { IsWatching board.now self.old }
        requires tasks { AreTasksOf board.now board_tasks }
        requires unknown { (u : ℕ) → (seen self.old.view.view).exact u ≡ false }
        ensures watches { IsWatching board.now self.new }
        ensures known { KnowsTasks board.now (all_of board_tasks.entry) self.new.view }
        ensures same { self.new.dead ≡ self.old.dead }
    {
        board_tasks.take_in(board, &mut self.view);
    }

    /// Ends the board; answers its words, the tasks that were named, and those that the last pass named.
    pub(crate) fn close(self, board: Board) -> (Words, Vec<Dead>, List<TaskId>)
        requires watches { IsWatching board self }
        ensures board { (result.0.plan ≡ board.plan) × (result.0.mode ≡ board.mode) }
        ensures words { AreLastOf board.plan board.mode (seen self.view.view) result.0.words }
        ensures dead { result.1.items ≡ self.dead }
        ensures last { result.2 ≡ self.last }
    {
        (board.close(self.view), self.dead, self.last)
    }
}

impl<K: Writes> Beside<K> for LiveReporter {
    ghost use Rattle.std.specs.Prelude.{◌≡◌, Result, Ok, Err, true};
    ghost use Rattle.std.proofs.Common.{refl, subst, ◌∙◌};
    ghost use Rattle.board.specs.declared.mode.Mode.TheVariants.{Detect};
    ghost use Rattle.task_runner.specs.declared.ran.RunEnd.TheVariants.{NoMemory};
    ghost use Rattle.task_runner.specs.calls.DetectRuns.{AreDeadAtTheEnd, told};
    ghost use Rattle.task_runner.specs.inside.LiveReporters.{SeesOn, TellsAfter, IsWatching};

    type Early = RunEnd;

    ghost there = { true };

    ghost fits = { λ f x a. IsWatching f x × (f.mode ≡ Detect) };

    ghost passes = { λ f x a y b r. SeesOn x.view y.view × TellsAfter f.plan x.dead y.dead (told K.bytes K.failures a) (told K.bytes K.failures b) r };

    ghost no_memory = { NoMemory };

    ghost none = { λ f x a fits. ((λ u. refl), (λ first start so_far. so_far)) };

    ghost more = { λ f x y z a b c r p q. ((λ u. q.0 u ∙ p.0 u), (λ first start so_far. q.1 first start (p.1 first start so_far))) };

    ghost wanting = { λ f x y a b fits p. (p.0, (λ first start so_far. let t = p.1 first start so_far in (t.0, subst (AreDeadAtTheEnd f.plan) t.1 fits.0.dead, t.2))) };

    fn is_there(&self) -> bool {
        true
    }

    fn pass<C: Calls>(
        &mut self,
        alloc: Global,
        board: &Board,
        gate: &C,
        out: &mut K,
    ) -> Result<(), RunEnd> {
        self.tell(alloc, board, gate, out)
    }

    fn early(error: NoMemory) -> RunEnd {
        RunEnd::from(error)
    }
}
