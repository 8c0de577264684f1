// What a walker does beside its steps: it looks, its await is decided, and what a row says of it.
ghost use Rattle.std.specs.Prelude.{◌≡◌, ◌<◌, Some, false, length};
ghost use Rattle.armus_base.specs.Plans.{Blocks};
ghost use Rattle.board.specs.declared.mode.Mode.TheVariants.{Avoid};
ghost use Rattle.board.specs.calls.Views.{next_action};
ghost use Rattle.board.specs.calls.Seats.{IsOf, aim_at};
ghost use Rattle.tests_board.specs.calls.Rooms.{IsRoomFor};

use crate::texts::{look, phase, seen};
use crate::walker::{Halt, Walker};
use crate::walks::steps;
use armus_base::{NoMemory, Offset, Phase, PhaserId, Plan, TaskId};
use avoider::{Decision, Judge, try_take};
use board::{Board, Loads, TaskSeat};
use phase_scan::{Cells, Look};
use std::alloc::Global;
use tests_rows::{event, first_word, number};

// The decision on the await of a task, which takes the lock for it; none where another task has the lock.
fn decision_on(
    alloc: Global,
    seat: &mut TaskSeat,
    board: &Board,
    aim: (PhaserId, Offset),
    cells: &mut Cells,
    judge: &mut Judge,
) -> Result<Option<Decision>, NoMemory>
    requires made { IsOf seat.old board.now × (board.now.mode ≡ Avoid) × (seat.old.view.holds ≡ false) }
    requires next { next_action seat.old.view ≡ Some (Blocks (aim_at aim.0.0 aim.1)) }
    requires phaser { aim.0.0 < length board.now.plan.makers }
    requires room { IsRoomFor board.now cells.old }
    ensures made { IsOf seat.new board.now × (seat.new.view.holds ≡ false) }
    ensures room { IsRoomFor board.now cells.new }
{
    if try_take(seat, board).is_err() {
        return Ok(None);
    }
    let (p, off) = aim;
    let decision = judge.decide(alloc, seat, board, p, off, cells)?;
    Ok(Some(decision))
}

impl<'p> Walker<'p> {
    /// The decision on the await before which it stands; none where it stands before none, or where another task has the lock.
    pub(crate) fn decide(
        &mut self,
        alloc: Global,
        board: &Board,
        cells: &mut Cells,
        judge: &mut Judge,
    ) -> Result<Option<Decision>, NoMemory>
        requires made { IsOf self.old board.now × (board.now.mode ≡ Avoid) }
        requires room { IsRoomFor board.now cells.old }
        ensures made { IsOf self.new board.now }
        ensures room { IsRoomFor board.now cells.new }
    {
        let Some(aim) = self.awaits(board) else {
            return Ok(None);
        };
        self.decided = true;
        decision_on(alloc, &mut self.seat, board, aim, cells, judge)
    }

    // What a look at the awaited phaser answers; none where it is not published.
    fn look(&mut self, board: &Board) -> Option<Look>
        requires made { IsOf self.old board.now }
        ensures made { IsOf self.new board.now }
    {
        if self.event().is_none() {
            return None;
        }
        let _ = self.seat.id();
        Some(phase_scan::look(&mut self.seat, board))
    }

    // Its own phase.
    fn phase(&mut self, board: &Board, p: PhaserId) -> Option<Phase>
        requires made { IsOf self.old board.now }
        ensures made { IsOf self.new board.now }
    {
        if p.0 >= board.phasers() {
            return None;
        }
        self.seat.phase(board, p)
    }

    fn scanned(&self) -> u32 {
        self.seat.scanned()
    }

    fn id(&self) -> TaskId {
        self.seat.id()
    }
}

// Whether a walker makes no step, for this reason.
fn halts<'p>(
    walker: &mut Walker<'p>,
    alloc: Global,
    board: &Board,
    plan: &'p Plan,
    reason: &str,
) -> bool
    requires made { IsOf walker.old board.now }
    requires plan { board.now.plan ≡ plan.now }
    ensures made { IsOf walker.new board.now }
{
    match walker.go(alloc, board, plan) {
        Ok(_) => false,
        Err(Halt::Waits) => reason == "waiting",
        Err(Halt::Ended) => reason == "ended",
    }
}

// Whether a load of a phase or of an await finds this.
pub(crate) fn loads<L: Loads>(by: &mut L, board: &Board, verb: &str, rest: &str) -> bool
    requires made { IsOf (L.known by.old) board.now }
    ensures made { IsOf (L.known by.new) board.now }
{
    let (t, rest) = first_word(rest);
    let t = TaskId(number(t));
    if t.0 >= board.tasks() {
        return false;
    }
    if verb == "shows" {
        return by.load_await(board, t) == seen(rest);
    }
    let (p, n) = first_word(rest);
    let p = PhaserId(number(p));
    p.0 < board.phasers() && verb == "finds" && by.load_phase(board, t, p) == phase(n)
}

// Whether what a walker is at is this.
fn is_at(walker: &mut Walker<'_>, board: &Board, verb: &str, rest: &str) -> bool
    requires made { IsOf walker.old board.now }
    ensures made { IsOf walker.new board.now }
{
    let (word, more) = first_word(rest);
    match verb {
        "is" => walker.id() == TaskId(number(word)),
        "scanned" => walker.scanned() == number(word),
        "event" => walker.event() == Some(event(word)),
        "idle" => walker.event().is_none(),
        "phase" => walker.phase(board, PhaserId(number(word))) == phase(more),
        "looks" => walker.look(board) == Some(look(rest)),
        _ => loads(walker, board, verb, rest),
    }
}

/// Whether a walker does what a row says, which is no fork and no decision.
pub(crate) fn acts<'p>(
    walker: &mut Walker<'p>,
    alloc: Global,
    board: &Board,
    plan: &'p Plan,
    verb: &str,
    rest: &str,
) -> bool
    requires made { IsOf walker.old board.now }
    requires plan { board.now.plan ≡ plan.now }
    ensures made { IsOf walker.new board.now }
{
    match verb {
        "steps" => steps(walker, alloc, board, plan, number(rest)),
        "stays" => halts(walker, alloc, board, plan, rest),
        _ => is_at(walker, board, verb, rest),
    }
}
