// A task of a run: its seat, how far it has come, and the seats of the children that it forked.
ghost use Rattle.std.specs.Prelude.{◌≡◌, ◌↔◌, ◌+◌, ◌++◌, ◌≤◌, ◌<◌, ℕ, [], ◌∷◌, List, Some, None, true, false, IfOk, IfSome, IsSome, IsTrue, OnOk, OnErr, length};
ghost use Rattle.armus_base.specs.Plans.{Action};
ghost use Rattle.armus_base.specs.Runs.{first_place};
ghost use Rattle.board.specs.calls.Views.{own_place};
ghost use Rattle.board.specs.calls.Seats.{IsOf, event_of};
ghost use Rattle.phase_scan.specs.calls.Looks.{IsLook, LoadsAlone};
ghost use Rattle.board_runs.specs.calls.Turns.{MakesActions, ActsNoMore, CountsActions, CountsLoadsOf, EndsTurn, EndsTurnWithin, PausesAt, StandsAtAwait, in_64_bits, standing_of};
ghost use Rattle.board_runs.specs.inside.Tasks.{MakesSome};

use crate::beginning::{Attempt, await_to_decide, begin};
use crate::rounds::{Calls, TakeTurn, TurnSetting};
use crate::worker_cells::WorkerCells;
use armus_base::{Cursor, List, NoMemory, Op, Plan, Point, TaskId};
use board::{Board, TaskSeat};
use phase_scan::{Look, look};
use pl_core::Place;
use std::alloc::Global;
use std::marker::Model;

/// Why a task acts no further for now.
#[derive(Clone, Copy, Debug, PartialEq, Eq)]
pub enum Pause {
    /// It has forked a task, whose seat is the last of its children's.
    Forked,
    /// Its turn is over.
    TurnOver,
}

/// What a stretch of a turn was.
#[derive(Clone, Copy, Debug, PartialEq, Eq)]
pub struct Stretch {
    /// How many actions the task made.
    pub actions: u32,
    /// Why it acts no further.
    pub pause: Pause,
}

/// A task of a run on a board. Contracts see its seat, and the seats of the children that it forked and that were not taken.
#[derive(Drop)]
pub struct Task<'p> {
    seat: TaskSeat,
    // stands at the first of its ops that is not begun
    cursor: Cursor<'p>,
    // how many of its ops are begun
    begun: u32,
    // how many actions of its code it has made
    actions: u32,
    refused: bool,
    children: Vec<TaskSeat>,
}

impl<'p> Model for Task<'p> {
    ghost use Rattle.board_runs.specs.calls.Turns.{Working};

    ghost Value = { Working };

    ghost use Rattle.board_runs.specs.inside.Tasks.{IsWorking, working_of};

    ghost view = { working_of };

    ghost invariant = { IsWorking };
}

impl<'p> Task<'p> {
    /// The task of a seat that has made no step, on a board of this plan. It stands before its first op, and has no child's seat.
    pub fn new(alloc: Global, seat: TaskSeat, plan: &'p Plan) -> Task<'p>
        requires first { own_place seat.view ≡ first_place }
        requires plan { seat.view.plan ≡ plan.now }
        ensures seat { result.seat ≡ seat }
        ensures no_child { result.children ≡ [] }
    {
        let cursor = plan.cursor(seat.id());
        Task {
            seat,
            cursor,
            begun: 0,
            actions: 0,
            refused: false,
            children: Vec::new(alloc),
        }
    }

    /// The seats of the children that it forked; it has none after it.
    pub fn take_children(&mut self, alloc: Global) -> List<TaskSeat>
        ensures children { result ≡ self.old.children }
        ensures none { self.new.children ≡ [] }
        ensures seat { self.new.seat ≡ self.old.seat }
    {
        List::from_vec(std::mem::replace(&mut self.children, Vec::new(alloc)))
    }

    /// Its number.
    pub fn id(&self) -> TaskId
        ensures { self.now.seat.view.own ≡ Some result.0 }
    {
        self.seat.id()
    }

    /// Its place.
    pub fn place(&self) -> Place
        ensures { result ≡ standing_of self.now.seat }
    {
        Place {
            events: self.actions,
            refused: self.refused,
        }
    }

    /// Whether it acts no more: its code is done, or it is refused.
    pub fn has_ended(&self) -> bool
        ensures { IsTrue result ↔ ActsNoMore self.now.seat }
    {
        if self.refused {
            return true;
        }
        self.seat.event().is_none() && self.cursor.peek().is_none()
    }

    /// Its seat.
    pub fn into_seat(self) -> TaskSeat
        requires no_child { self.children ≡ [] }
        ensures seat { result ≡ self.entry.seat }
    {
        self.seat
    }

    /// A stretch of its turn: it acts until it has forked a task, or until its turn is over, as it is done, or is published and finds a member behind, or is
    /// refused, or finds the lock taken; once more loads than the bound were counted with these cells, its turn is over at the next await. It answers how many
    /// actions were made, and which of the two it was. The gate is called before each op that it tries. After `NoMemory` it stands where its own steps brought
    /// it, and has forked nobody.
    pub fn act<R, C: Calls>(
        &mut self,
        setting: &TurnSetting<'_, R, C>,
        cells: &mut WorkerCells,
    ) -> Result<Stretch, NoMemory>
        requires made { IsOf self.old.seat setting.now.board.now }
        requires free { self.old.seat.view.holds ≡ false }
        ensures acts { (own : List Action) × MakesActions setting.now.board.now own self.old self.new × IfOk result (λ acted. acted.actions ≡ length own) }
        ensures few { (n : ℕ) → CountsActions n self.old → IfOk result (λ acted. CountsActions (n + acted.actions) self.new) }
        ensures pause { IfOk result (λ acted. PausesAt setting.now.bound cells.new.loads acted.pause self.old self.new) }
        ensures nobody { OnErr result (self.new.children ≡ self.old.children) }
        ensures counted { CountsLoadsOf self.old.seat self.new.seat cells.old cells.new }
    {
        let _ = self.seat.id();
        let had = self.children.len();
        let mut actions = 0;
        'act: while let Some(more) = self.go_on(setting, cells)? {
            actions += more;
            if self.children.len() > had {
                let pause = Pause::Forked;
                return Ok(Stretch { actions, pause });
            }
        }
        let pause = Pause::TurnOver;
        Ok(Stretch { actions, pause })
    }

    // Makes its next action, if it may, and after a refusal its drops; answers how many actions were made.
    fn go_on<R, C: Calls>(
        &mut self,
        setting: &TurnSetting<'_, R, C>,
        cells: &mut WorkerCells,
    ) -> Result<Option<u32>, NoMemory>
        requires made { IsOf self.old.seat setting.now.board.now }
        requires free { self.old.seat.view.holds ≡ false }
        ensures some { IfOk result (λ o. IfSome o (λ n. MakesSome setting.now.board.now n self.old self.new)) }
        ensures none { IfOk result (λ o. o ≡ None → MakesActions setting.now.board.now [] self.old self.new × EndsTurnWithin setting.now.bound cells.new.loads self.old.seat self.new.seat) }
        ensures err { OnErr result (MakesActions setting.now.board.now [] self.old self.new) }
        ensures counted { CountsLoadsOf self.old.seat self.new.seat cells.old cells.new }
    {
        let t = self.seat.id();
        if self.refused {
            return Ok(None);
        }
        if self.is_cut_short(setting.board, cells, setting.bound) {
            return Ok(None);
        }
        if self.seat.event().is_some() {
            return Ok(self.pass(setting.board, cells));
        }
        let Some(op) = self.cursor.peek() else {
            return Ok(None);
        };
        let keeps_order = cells.keeps_order();
        call_gate(setting.gate, t, self.begun, op, keeps_order);
        let (alloc, board, children) = (setting.alloc, setting.board, &mut self.children);
        match begin(&mut self.seat, children, alloc, board, op, cells)? {
            Attempt::LockedOut => Ok(None),
            Attempt::Begun => {
                let _op = self.cursor.next();
                self.begun += 1;
                self.actions += 1;
                Ok(Some(1))
            }
            Attempt::Refused(drops) => {
                self.refused = true;
                Ok(Some(drops + 1))
            }
        }
    }

    // Whether its turn is over though it may go on: more loads than the bound were counted with these cells, and it is published or, where deadlock is avoided,
    // stands before an await that it has not published.
    fn is_cut_short(&self, board: &Board, cells: &WorkerCells, bound: u64) -> bool
        requires made { IsOf self.now.seat board.now }
        requires free { self.now.seat.view.holds ≡ false }
        requires unrefused { (own_place self.now.seat.view).dropped ≡ None }
        ensures { result ≡ true → bound < in_64_bits cells.now.loads × StandsAtAwait self.now.seat }
    {
        if cells.loads() <= bound {
            return false;
        }
        let _ = self.seat.id();
        if self.seat.event().is_some() {
            return true;
        }
        let Some(next) = self.cursor.peek() else {
            return false;
        };
        match await_to_decide(next, board) {
            Some(_) => true,
            None => false,
        }
    }

    // Passes the await on which it is published, if its event is reached; answers how many actions were made.
    fn pass(&mut self, board: &Board, cells: &mut WorkerCells) -> Option<u32>
        requires made { IsOf self.old.seat board.now }
        requires free { self.old.seat.view.holds ≡ false }
        requires unrefused { (own_place self.old.seat.view).dropped ≡ None }
        requires event { IsSome (event_of self.old.seat) }
        ensures some { IfSome result (λ n. MakesSome board.now n self.old self.new) }
        ensures none { result ≡ None → MakesActions board.now [] self.old self.new × EndsTurn self.old.seat self.new.seat }
        ensures counted { CountsLoadsOf self.old.seat self.new.seat cells.old cells.new }
    {
        let _ = self.seat.id();
        match look_by(&mut self.seat, board, cells) {
            Look::Behind { t: _, phase: _ } => None,
            Look::Reached => {
                self.seat.withdraw(board);
                self.actions += 1;
                Some(1)
            }
        }
    }
}

// Calls the gate before op `k` of the code of task `t`, and before an await that an order is asked for.
fn call_gate<C: Calls>(gate: &C, t: TaskId, k: u32, op: Op, keeps_order: bool) {
    gate.call(Point::Op { t, k });
    if !keeps_order {
        return;
    }
    match op {
        Op::Await { p: _, off: _ } => gate.call(Point::Ordered { t }),
        _ => {}
    }
}

impl<'p> TakeTurn for Task<'p> {
    ghost working = { λ task. task };

    fn turn<R, C: Calls>(
        &mut self,
        setting: &TurnSetting<'_, R, C>,
        cells: &mut WorkerCells,
    ) -> Result<u32, NoMemory> {
        let _ = self.seat.id();
        let mut made = 0;
        'turn: loop {
            let acted = self.act(setting, cells)?;
            made += acted.actions;
            match acted.pause {
                Pause::TurnOver => return Ok(made),
                Pause::Forked => {}
            }
        }
    }
}

// Looks as `look` does, and counts its loads with these cells.
fn look_by(seat: &mut TaskSeat, board: &Board, cells: &mut WorkerCells) -> Look
    requires made { IsOf seat.old board.now }
    requires event { IsSome (event_of seat.old) }
    ensures goes_on { LoadsAlone seat.old seat.new }
    ensures answer { IsLook result seat.old seat.new }
    ensures counted { CountsLoadsOf seat.old seat.new cells.old cells.new }
{
    let _ = seat.id();
    let first = seat.scanned();
    match look(seat, board) {
        Look::Reached => {
            cells.note_loads(u64::from(board.tasks().saturating_sub(first)));
            Look::Reached
        }
        Look::Behind { t, phase } => {
            cells.note_loads(u64::from(t.0.saturating_sub(first)) + 1);
            Look::Behind { t, phase }
        }
    }
}
