// The rounds of a run on a board, with passes beside them or with none.
ghost use Rattle.std.specs.Prelude.{◌≡◌, ◌<◌, ℕ, Bool, Option, Some, Ok, Err, true, false, IfOk, IfErr, OnOk, length};
ghost use Rattle.armus_base.specs.calls.Boards.{IsLawful};
ghost use Rattle.armus_base.specs.calls.Seats.{seen_by_child};
ghost use Rattle.board.specs.calls.Seats.{IsNewSeat, IsOf, IsSeat, nothing_seen};
ghost use Rattle.board.specs.calls.Views.{avoids, seen};
ghost use Rattle.board_runs.specs.calls.TaskSeats.{left_to};
ghost use Rattle.pl_core.specs.calls.Worlds.{places_at};
ghost use Rattle.task_runner.specs.inside.BoardRuns.{HasHadRound, HaveAllEnded, IsOnBoard};

use crate::RunOptions;
use crate::beside::Beside;
use crate::leaving::{are_many_on, bound_on_loads, goes_on};
use crate::pass_times::PassTimes;
use crate::worker_room::with_room;
use armus_base::{Gate, List, NoMemory, Plan};
use avoider::Judging;
use board::{Board, TaskSeat, ViewSeat};
use board_runs::{BoardTasks, Rounded, TurnSetting};
use pl_core::Place;
use std::alloc::Global;
use std::thread::{Threads, join_mut};
use world_runs::RoundWorkers;

/// The tasks of a run on a board, and what their rounds need.
#[derive(Drop)]
pub(crate) struct BoardRun<'p> {
    pub(crate) alloc: Global,
    pub(crate) plan: &'p Plan,
    pub(crate) options: RunOptions,
    pub(crate) board_tasks: BoardTasks<'p>,
    round_workers: RoundWorkers,
    pass_times: PassTimes,
}

impl<'p> BoardRun<'p> {
    /// Task 0 alone, whose seat this is, before its first step. Awaits are judged so where deadlock is avoided.
    pub(crate) fn start(
        alloc: Global,
        board: &Board,
        seat: TaskSeat,
        plan: &'p Plan,
        options: &RunOptions,
        judging: Judging,
    ) -> Result<BoardRun<'p>, NoMemory>
        requires plan { board.now.plan ≡ plan.now }
        requires new { IsNewSeat board.now (Some 0) (seen_by_child 0 nothing_seen) seat }
        ensures on_board { IfOk result (λ run. IsOnBoard board.now run.plan.now run.board_tasks) }
        ensures given { IfOk result (λ run. (run.plan.now ≡ plan.now) × (run.options ≡ options.now)) }
    {
        Ok(BoardRun {
            alloc,
            plan,
            options: *options,
            board_tasks: BoardTasks::start(alloc, board, seat, plan, judging)?,
            round_workers: RoundWorkers::new(),
            pass_times: PassTimes::new(plan),
        })
    }

    /// Rounds until all tasks have come to the end of their turns: until one in which nobody acts or, where there is no pass beside them, one in which
    /// nobody was forked once the board costs too much.
    pub(crate) fn go<R: Threads + Sync, G: Gate, O: Send, B: Beside<O> + Send>(
        &mut self,
        rt: &R,
        board: &Board,
        gate: &G,
        beside: &mut B,
        out: &mut O,
    ) -> Result<(), B::Early>
        requires on_board { IsOnBoard board.now self.old.plan.now self.old.board_tasks }
        requires fits { B.fits board.now beside.old out.old }
        ensures given { (self.new.plan ≡ self.old.plan) × (self.new.options ≡ self.old.options) }
        ensures on_board { OnOk result (IsOnBoard board.now self.new.plan.now self.new.board_tasks) }
        ensures ends { OnOk result (HaveAllEnded board.now B.there self.new.board_tasks) }
        ensures fits { OnOk result (B.fits board.now beside.new out.new) }
        ensures passes { B.passes board.now beside.old out.old beside.new out.new result }
    {
        'rounds: while self.go_round(rt, board, gate, beside, out)? {}
        Ok(())
    }

    // One round, and a pass where one is due; answers whether another one is to come.
    fn go_round<R: Threads + Sync, G: Gate, O: Send, B: Beside<O> + Send>(
        &mut self,
        rt: &R,
        board: &Board,
        gate: &G,
        beside: &mut B,
        out: &mut O,
    ) -> Result<bool, B::Early>
        requires on_board { IsOnBoard board.now self.old.plan.now self.old.board_tasks }
        requires fits { B.fits board.now beside.old out.old }
        ensures given { (self.new.plan ≡ self.old.plan) × (self.new.options ≡ self.old.options) }
        ensures on_board { OnOk result (IsOnBoard board.now self.new.plan.now self.new.board_tasks) }
        ensures further { IfOk result (λ more. more ≡ true → left_to board.now.plan self.new.board_tasks < left_to board.now.plan self.old.board_tasks) }
        ensures ends { IfOk result (λ more. more ≡ false → HaveAllEnded board.now B.there self.new.board_tasks) }
        ensures fits { OnOk result (B.fits board.now beside.new out.new) }
        ensures passes { OnOk result (B.passes board.now beside.old out.old beside.new out.new (Ok tt)) }
        ensures early { IfErr result (λ e. B.passes board.now beside.old out.old beside.new out.new (Err e)) }
    {
        let (made, passed) = self.take_round(rt, board, gate, beside, out);
        passed?;
        match made {
            Ok(made) => {
                self.round_workers.note(made.actions);
                self.pass_times.note(made.actions);
                let too_many = are_many_on(board, self.board_tasks.loads());
                Ok(goes_on(made, too_many, beside.is_there()))
            }
            Err(error) => Err(B::early(error)),
        }
    }

    // A round, and a pass where one is due: beside the round, or after it on the same thread where there is little work.
    fn take_round<R: Threads + Sync, G: Gate, O: Send, B: Beside<O> + Send>(
        &mut self,
        rt: &R,
        board: &Board,
        gate: &G,
        beside: &mut B,
        out: &mut O,
    ) -> (Result<Rounded, NoMemory>, Result<(), B::Early>)
        requires on_board { IsOnBoard board.now self.old.plan.now self.old.board_tasks }
        requires fits { B.fits board.now beside.old out.old }
        ensures given { (self.new.plan ≡ self.old.plan) × (self.new.options ≡ self.old.options) }
        ensures round { IfOk result.0 (HasHadRound board.now self.new.plan.now B.there self.old.board_tasks self.new.board_tasks) }
        ensures fits { OnOk result.1 (B.fits board.now beside.new out.new) }
        ensures passes { B.passes board.now beside.old out.old beside.new out.new result.1 }
    {
        let alloc = self.alloc;
        let with_pass = beside.is_there();
        if !self.pass_times.is_due() {
            return (self.round(rt, board, gate, with_pass), Ok(()));
        }
        if !with_pass || !self.round_workers.wants_threads() {
            let made = self.round(rt, board, gate, with_pass);
            return (made, beside.pass(alloc, board, gate, out));
        }
        join_mut(
            rt,
            &mut || -> Result<Rounded, NoMemory>
                requires { IsOnBoard board.now self.now.plan.now self.now.board_tasks }
            { self.round(rt, board, gate, true) },
            &mut || -> Result<(), B::Early>
                requires { B.fits board.now beside.now out.now }
            { beside.pass(alloc, board, gate, out) },
        )
    }

    // One round of a run with passes or with none.
    fn round<R: Threads + Sync, G: Gate>(
        &mut self,
        rt: &R,
        board: &Board,
        gate: &G,
        with_pass: bool,
    ) -> Result<Rounded, NoMemory>
        requires on_board { IsOnBoard board.now self.old.plan.now self.old.board_tasks }
        ensures given { (self.new.plan ≡ self.old.plan) × (self.new.options ≡ self.old.options) }
        ensures round { IfOk result (HasHadRound board.now self.new.plan.now with_pass self.old.board_tasks self.new.board_tasks) }
    {
        let workers = with_room(board, self.round_workers.workers(self.options.workers));
        let setting = TurnSetting {
            rt,
            alloc: self.alloc,
            board,
            gate,
            bound: bound_on_loads(board, with_pass),
        };
        let made = self.board_tasks.round(&setting, self.plan, workers)?;
        Ok(made)
    }

    /// Ends the run on its board, where all its tasks have come to the end of their turns: the viewer takes their seats in, and the board is closed. It answers
    /// the place of each task, and these are lawful.
    pub(crate) fn leave(self, board: Board, mut view: ViewSeat) -> Result<List<Place>, NoMemory>
        requires on_board { IsOnBoard board self.plan.now self.board_tasks }
        requires ends { (with_pass : Bool) × HaveAllEnded board with_pass self.board_tasks }
        requires made { IsOf view board }
        requires kept { IsSeat view }
        requires unknown { (u : ℕ) → (seen view.view).exact u ≡ false }
        ensures one_each { IfOk result (λ places. length places ≡ length self.entry.plan.now.parents) }
        ensures lawful { IfOk result (λ places. (lock : Option ℕ) × IsLawful (avoids board.mode) self.entry.plan.now (places_at self.entry.plan.now places) lock) }
    {
        let BoardRun {
            alloc,
            plan,
            board_tasks,
            ..
        } = self;
        let places = board_tasks.places(alloc, &board, plan)?;
        board_tasks.take_in(&board, &mut view);
        let _ = board.close(view);
        Ok(places)
    }
}
