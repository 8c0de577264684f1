// The step with which an op begins, and an attempt to decide on an await where deadlock is avoided.
ghost use Rattle.std.specs.Prelude.{◌≡◌, ◌≤◌, ◌+◌, ◌++◌, ◌<◌, [], ◌∷◌, List, Some, None, false, true, length, IfOk, IfSome, OnOk, OnErr};
ghost use Rattle.armus_base.specs.Limits.{max_phasers};
ghost use Rattle.armus_base.specs.Places.{members_below};
ghost use Rattle.armus_base.specs.Plans.{Forks};
ghost use Rattle.armus_base.specs.declared.op.Op.TheVariants.{Await};
ghost use Rattle.avoider.specs.calls.OnBoard.{HasSameRoom};
ghost use Rattle.board.specs.calls.Views.{avoids, next_action};
ghost use Rattle.board.specs.calls.Seats.{Known, IsOf, MakesStep, aim_at};
ghost use Rattle.board.specs.calls.Steps.{own_phase};
ghost use Rattle.board.specs.inside.Walking.{begins};
ghost use Rattle.board_runs.specs.inside.Attempts.{BeginsOp, IsAttempt, MayBegin, MayDecide, loads_at_least};
ghost use Rattle.board_runs.specs.calls.Turns.{AreChildSeats, CountsLoadsOf, Goes, tasks_forked};

use crate::worker_cells::WorkerCells;
use armus_base::{NoMemory, Offset, Op, PhaserId, TaskId};
use avoider::{Decision, Judge, try_take};
use board::{Board, Mode, TaskSeat};
use phase_scan::Cells;
use std::alloc::Global;

/// The phaser and the offset of an await on which is to be decided before it is published, as on each one of a board that avoids deadlock.
pub(crate) fn await_to_decide(op: Op, board: &Board) -> Option<(PhaserId, Offset)>
    ensures awaits { IfSome result (λ r. (op ≡ Await r.0 r.1) × (avoids board.now.mode ≡ true)) }
    ensures none { result ≡ None → (p : PhaserId) (off : Offset) → op ≡ Await p off → avoids board.now.mode ≡ false }
{
    match (op, board.mode()) {
        (Op::Await { p, off }, Mode::Avoid) => Some((p, off)),
        _ => None,
    }
}

// Splits the seat of a child off, for which there is room before.
fn fork(
    seat: &mut TaskSeat,
    children: &mut Vec<TaskSeat>,
    alloc: Global,
    board: &Board,
    c: TaskId,
) -> Result<(), NoMemory>
    requires made { IsOf seat.old board.now }
    requires unlocked { seat.old.view.holds ≡ false }
    requires next { next_action seat.old.view ≡ Some (Forks c.0) }
    ensures step { OnOk result (MakesStep (Forks c.0) seat.old seat.new) }
    ensures children { OnOk result ((new : List Known) × (children.new.items ≡ children.old.items ++ new) × AreChildSeats board.now (c.0 ∷ []) new) }
    ensures same { OnErr result (seat.new ≡ seat.old) }
    ensures same_children { OnErr result (children.new.items ≡ children.old.items) }
{
    children.reserve(1)?;
    let child = seat.fork(alloc, board, c)?;
    children.push(child)?;
    Ok(())
}

// Makes the step with which an op begins, and keeps the seat of a child that it forks.
fn make_step(
    seat: &mut TaskSeat,
    children: &mut Vec<TaskSeat>,
    alloc: Global,
    board: &Board,
    op: Op,
) -> Result<(), NoMemory>
    requires ready { MayBegin board.now op seat.old }
    requires undecided { (p : PhaserId) (off : Offset) → op ≡ Await p off → avoids board.now.mode ≡ false }
    ensures step { OnOk result (MakesStep (begins op) seat.old seat.new) }
    ensures children { OnOk result ((new : List Known) × (children.new.items ≡ children.old.items ++ new) × AreChildSeats board.now (tasks_forked (begins op ∷ [])) new) }
    ensures same { OnErr result (seat.new ≡ seat.old) }
    ensures same_children { OnErr result (children.new.items ≡ children.old.items) }
{
    match op {
        Op::Make { p } => seat.make(board, p),
        Op::Reg { c, p } => seat.reg(board, c, p),
        Op::Adv { p } => {
            seat.adv(board, p);
        }
        Op::Drop { p } => seat.drop_phaser(board, p),
        Op::Await { p, off } => {
            seat.publish(board, p, off);
        }
        Op::Fork { c } => return fork(seat, children, alloc, board, c),
    }
    Ok(())
}

// How many words an op loads where nothing is decided: an await one of each task.
fn loads_of(op: Op, board: &Board) -> u64 {
    match op {
        Op::Await { p: _, off: _ } => u64::from(board.tasks()),
        _ => 0,
    }
}

/// Makes the step with which an op begins, and keeps the seat of a child that it forks. An await on which is to be decided is published only if it would
/// deadlock nobody, and else refused; nothing is done where the lock is taken.
pub(crate) fn begin(
    seat: &mut TaskSeat,
    children: &mut Vec<TaskSeat>,
    alloc: Global,
    board: &Board,
    op: Op,
    cells: &mut WorkerCells,
) -> Result<Attempt, NoMemory>
    requires ready { MayBegin board.now op seat.old }
    ensures begins { IfOk result (BeginsOp op seat.old seat.new) }
    ensures children { OnOk result ((new : List Known) × (children.new.items ≡ children.old.items ++ new) × AreChildSeats board.now (tasks_forked (begins op ∷ [])) new) }
    ensures same { OnErr result (Goes [] seat.old seat.new) }
    ensures same_children { OnErr result (children.new.items ≡ children.old.items) }
    ensures counted { CountsLoadsOf seat.old seat.new cells.old cells.new }
{
    let _ = seat.id();
    match await_to_decide(op, board) {
        Some((p, off)) => try_to_decide(seat, alloc, board, p, off, cells),
        None => {
            cells.note_await(loads_of(op, board));
            make_step(seat, children, alloc, board, op)?;
            Ok(Attempt::Begun)
        }
    }
}

/// What came of an op that was to begin.
#[derive(Clone, Copy, Debug)]
pub(crate) enum Attempt {
    /// It is an await on which is to be decided, and another task held the lock.
    LockedOut,
    /// It has begun.
    Begun,
    /// It is an await, and the task is refused and has left all its phasers, so many.
    Refused(u32),
}

// Takes the lock, if nobody holds it, and decides on the await of `p` with this offset, which comes next. The lock is free after it.
fn try_to_decide(
    seat: &mut TaskSeat,
    alloc: Global,
    board: &Board,
    p: PhaserId,
    off: Offset,
    cells: &mut WorkerCells,
) -> Result<Attempt, NoMemory>
    requires ready { MayDecide board.now (aim_at p.0 off) seat.old }
    ensures attempt { IfOk result (IsAttempt (aim_at p.0 off) seat.old seat.new) }
    ensures undecided { OnErr result (Goes [] seat.old seat.new) }
    ensures counted { CountsLoadsOf seat.old seat.new cells.old cells.new }
{
    let _ = seat.id();
    let mut own = cells.take(alloc, board)?;
    let tried = decide_with(seat, alloc, board, p, off, &mut own);
    cells.note_await(loads_of_try(&tried, &own.0));
    cells.note_loads(least_loads(&tried, board));
    cells.keep(board, own.0, own.1);
    tried
}

// How many words a try to decide loaded: those of the collect, and one where the lock was taken.
fn loads_of_try(tried: &Result<Attempt, NoMemory>, cells: &Cells) -> u64 {
    match tried {
        Ok(Attempt::LockedOut) => 1,
        _ => cells.loads(),
    }
}

// How many words it loaded at least: one where the lock was taken, and else the await word of each task.
fn least_loads(tried: &Result<Attempt, NoMemory>, board: &Board) -> u64
    ensures one { IfOk tried.now (λ tried. result ≡ loads_at_least board.now.plan tried) }
    ensures none { OnErr tried.now (result ≡ 0) }
{
    match tried {
        Ok(Attempt::LockedOut) => 1,
        Ok(_) => u64::from(board.tasks()),
        Err(_) => 0,
    }
}

// The same with these cells and this judge.
fn decide_with(
    seat: &mut TaskSeat,
    alloc: Global,
    board: &Board,
    p: PhaserId,
    off: Offset,
    own: &mut (Cells, Judge),
) -> Result<Attempt, NoMemory>
    requires ready { MayDecide board.now (aim_at p.0 off) seat.old }
    requires tasks { own.old.0.tasks ≡ length board.now.plan.parents }
    requires phasers { own.old.0.phasers ≡ length board.now.plan.makers }
    ensures attempt { IfOk result (IsAttempt (aim_at p.0 off) seat.old seat.new) }
    ensures undecided { OnErr result (Goes [] seat.old seat.new) }
    ensures loads { IfOk result (λ tried. seat.old.view.loads + loads_at_least board.now.plan tried ≤ seat.new.view.loads) }
    ensures room { HasSameRoom own.old.0 own.new.0 }
{
    let _ = seat.id();
    let phasers = memberships(seat, board);
    match try_take(seat, board) {
        Err(_) => return Ok(Attempt::LockedOut),
        Ok(()) => {}
    }
    let (cells, judge) = own;
    match judge.decide(alloc, seat, board, p, off, cells)? {
        Decision::Published(_) => Ok(Attempt::Begun),
        Decision::Refused(_) => Ok(Attempt::Refused(phasers)),
    }
}

// Of how many phasers the seat's task is a member.
fn memberships(seat: &mut TaskSeat, board: &Board) -> u32
    requires made { IsOf seat.old board.now }
    ensures seat { seat.new ≡ seat.old }
    ensures counted { result ≡ members_below (own_phase seat.old.view) (length board.now.plan.makers) }
    ensures few { result ≤ max_phasers }
{
    let mut count = 0;
    for p in 0..board.phasers() {
        match seat.phase(board, PhaserId(p)) {
            Some(_) => count += 1,
            None => {}
        }
    }
    count
}
