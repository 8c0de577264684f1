// A task that walks along its code on a board.
ghost use Rattle.std.specs.Prelude.{◌≡◌, ◌≢◌, ◌<◌, Some, IfOk, IfSome, IsSome, MatchOption, true, false, length};
ghost use Rattle.armus_base.specs.Plans.{Aim, Blocks};
ghost use Rattle.armus_base.specs.Runs.{first_place};
ghost use Rattle.board.specs.declared.mode.Mode.TheVariants.{Detect};
ghost use Rattle.board.specs.calls.Views.{avoids, next_action, own_place};
ghost use Rattle.board.specs.calls.Seats.{IsOf, MakesStep, aim_at, event_of};
ghost use Rattle.board.specs.inside.Walking.{IsActionOfPlan, begins};

use armus_base::{Cursor, Event, NoMemory, Offset, Op, Phase, PhaserId, Plan, TaskId};
use board::{Board, Loads, Mode, Seen, TaskSeat, ViewSeat};
use std::alloc::Global;
use std::marker::Model;

/// Why a walker makes no step.
#[derive(Clone, Copy, Debug, PartialEq, Eq)]
pub enum Halt {
    /// It is published and not all tasks are scanned, or its next op is an await on a board that avoids deadlock.
    Waits,
    /// Its code is done, or an await of it was decided.
    Ended,
}

/// A task's seat, with a cursor at the first op of the task's code that is not begun. Contracts see it as the seat.
#[derive(Drop)]
pub struct Walker<'p> {
    pub(crate) seat: TaskSeat,
    pub(crate) cursor: Cursor<'p>,
    // whether an await was decided: it begins no further op then
    pub(crate) decided: bool,
}

impl<'p> Model for Walker<'p> {
    ghost use Rattle.board.specs.calls.Seats.{Known};

    ghost Value = { Known };

    ghost use Rattle.tests_board.specs.calls.Rooms.{Walks};

    ghost view = { λ w. w.seat };

    ghost invariant = { λ w. Walks w.decided w.cursor w.seat };
}

/// A board that detects deadlock, task 0 at its opening, and a viewer.
pub fn begin(alloc: Global, plan: &Plan) -> Result<(Board, Walker<'_>, ViewSeat), NoMemory>
    ensures board { IfOk result (λ r. (r.0.plan ≡ plan.now) × (r.0.mode ≡ Detect)) }
    ensures seats { IfOk result (λ r. IsOf r.1 r.0 × IsOf r.2 r.0) }
{
    begin_as(alloc, plan, Mode::Detect)
}

// A board of this kind, task 0 at its opening, and a viewer.
pub(crate) fn begin_as(
    alloc: Global,
    plan: &Plan,
    mode: Mode,
) -> Result<(Board, Walker<'_>, ViewSeat), NoMemory>
    ensures board { IfOk result (λ r. (r.0.plan ≡ plan.now) × (r.0.mode ≡ mode)) }
    ensures seats { IfOk result (λ r. IsOf r.1 r.0 × IsOf r.2 r.0) }
{
    let (board, seat, view) = Board::start(alloc, plan, mode)?;
    Ok((board, Walker::of(seat, plan), view))
}

// The phaser that the op awaits, and with which offset, if it awaits one.
fn awaited(op: Op) -> Option<(PhaserId, Offset)>
    ensures { MatchOption result ((aim : Aim) → begins op ≢ Blocks aim) (λ r. begins op ≡ Blocks (aim_at r.0.0 r.1)) }
{
    match op {
        Op::Await { p, off } => Some((p, off)),
        Op::Make { .. } | Op::Reg { .. } | Op::Adv { .. } | Op::Drop { .. } | Op::Fork { .. } =>
            None,
    }
}

// Whether the op may begin on a board of this kind with no decision.
fn may_begin(op: Op, mode: Mode) -> bool
    ensures { result ≡ true → avoids mode ≡ true → (aim : Aim) → begins op ≢ Blocks aim }
{
    match mode {
        Mode::Detect => true,
        Mode::Avoid => awaited(op).is_none(),
    }
}

// Makes the step with which an op begins. It answers the seat of the child that it forks.
fn make_step(seat: &mut TaskSeat, alloc: Global, board: &Board, op: Op) -> Option<TaskSeat>
    requires made { IsOf seat.old board.now }
    requires plain { avoids board.now.mode ≡ true → (aim : Aim) → begins op ≢ Blocks aim }
    requires unlocked { seat.old.view.holds ≡ false }
    requires next { next_action seat.old.view ≡ Some (begins op) }
    requires plan { IsActionOfPlan board.now.plan (begins op) }
    ensures step { MakesStep (begins op) seat.old seat.new }
    ensures made { IfSome result (λ child. IsOf child board.now) }
    ensures child { IfSome result (λ child. (own_place child.view ≡ first_place) × (child.view.holds ≡ false)) }
{
    match op {
        Op::Make { p } => seat.make(board, p),
        Op::Reg { c, p } => seat.reg(board, c, p),
        Op::Adv { p } => {
            seat.adv(board, p);
        }
        Op::Drop { p } => seat.drop_phaser(board, p),
        Op::Await { p, off } => {
            seat.publish(board, p, off);
        }
        Op::Fork { c } => return seat.fork(alloc, board, c).ok(),
    }
    None
}

impl<'p> Walker<'p> {
    // A task that has made no step.
    fn of(seat: TaskSeat, plan: &'p Plan) -> Walker<'p>
        requires first { own_place seat.view ≡ first_place }
        requires free { seat.view.holds ≡ false }
        requires plan { seat.view.plan ≡ plan.now }
        ensures seat { result ≡ seat }
    {
        let cursor = plan.cursor(seat.id());
        Walker {
            seat,
            cursor,
            decided: false,
        }
    }

    /// Makes the task's next step. It answers the child that it forks, and an error where it makes no step.
    pub fn go(
        &mut self,
        alloc: Global,
        board: &Board,
        plan: &'p Plan,
    ) -> Result<Option<Walker<'p>>, Halt>
        requires made { IsOf self.old board.now }
        requires plan { board.now.plan ≡ plan.now }
        ensures made { IsOf self.new board.now }
        ensures child { IfOk result (λ o. IfSome o (λ child. IsOf child board.now)) }
    {
        if self.event().is_some() {
            return self.pass(board);
        }
        if self.decided {
            return Err(Halt::Ended);
        }
        let _ = self.seat.id();
        let Some(op) = self.cursor.peek() else {
            return Err(Halt::Ended);
        };
        if !may_begin(op, board.mode()) {
            return Err(Halt::Waits);
        }
        let _op = self.cursor.next();
        match make_step(&mut self.seat, alloc, board, op) {
            Some(child) => Ok(Some(Walker::of(child, plan))),
            None => Ok(None),
        }
    }

    // Withdraws the event, if all tasks are scanned.
    fn pass(&mut self, board: &Board) -> Result<Option<Walker<'p>>, Halt>
        requires made { IsOf self.old board.now }
        requires event { IsSome (event_of self.old) }
        ensures made { IsOf self.new board.now }
        ensures child { IfOk result (λ o. IfSome o (λ child. IsOf child board.now)) }
    {
        let _ = self.seat.id();
        if self.seat.scanned() < board.tasks() {
            return Err(Halt::Waits);
        }
        self.seat.withdraw(board);
        Ok(None)
    }

    /// The await that is its next op and is not published: of which phaser, and with which offset.
    pub(crate) fn awaits(&self, board: &Board) -> Option<(PhaserId, Offset)>
        requires made { IsOf self.now board.now }
        ensures next { IfSome result (λ r. (next_action self.now.view ≡ Some (Blocks (aim_at r.0.0 r.1))) × (r.0.0 < length board.now.plan.makers)) }
    {
        if self.decided || self.event().is_some() {
            return None;
        }
        let _ = board;
        let _ = self.seat.id();
        let op = self.cursor.peek()?;
        let aim = awaited(op)?;
        Some(aim)
    }

    /// Its published event.
    pub fn event(&self) -> Option<Event>
        ensures { result ≡ event_of self.now }
    {
        self.seat.event()
    }

    /// Ends the walk.
    pub fn into_seat(self) -> TaskSeat
        ensures { (result ≡ self.entry) × (result.view.holds ≡ false) }
    {
        self.seat
    }
}

impl<'p> Loads for Walker<'p> {
    ghost known = { λ w. w };

    fn load_await(&mut self, board: &Board, t: TaskId) -> Seen {
        let _ = self.seat.id();
        self.seat.load_await(board, t)
    }

    fn load_phase(&mut self, board: &Board, t: TaskId, p: PhaserId) -> Option<Phase> {
        let _ = self.seat.id();
        self.seat.load_phase(board, t, p)
    }
}
