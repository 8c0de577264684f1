// The end of a run without rounds.
ghost use Rattle.std.specs.Prelude.{◌≡◌, ◌<◌, ◌⊎◌, ℕ, [], ◌∷◌, All, None, Some, true, length, slice_get, IfOk};
ghost use Rattle.armus_base.specs.declared.op.Op.TheVariants.{Fork};
ghost use Rattle.armus_base.specs.declared.ids.TaskId.{TaskId};
ghost use Rattle.armus_base.specs.Plans.{actions_of, code_of};
ghost use Rattle.board.specs.declared.mode.Mode.TheVariants.{Detect};
ghost use Rattle.board.specs.calls.Seats.{IsNewSeat, nothing_seen};
ghost use Rattle.board_runs.specs.calls.TaskSeats.{done_of, own_number};
ghost use Rattle.world_runs.specs.calls.PlainRuns.{IsPlainEnd};
ghost use Rattle.task_runner.specs.inside.Pooled.{AreForksMarked, AreClosedUnderForks, ContainsTask, IsPooled};

use crate::pool::PoolRun;
use armus_base::{Cursor, Final, Gate, NoMemory, Op, Plan};
use board_runs::{Task, first_places, note_places, take_in_all};
use collector::Collector;
use std::alloc::Global;
use world_runs::{run_plain, world_end_from};

/// Ends the run of these tasks: a viewer takes their seats in, a detector makes one pass, and the board is closed; the run goes on in one thread from the
/// places at which the tasks stood, or from the opening where one that was forked is not among them.
pub(crate) fn end_run<G: Gate>(
    run: PoolRun<'_>,
    gate: &G,
    tasks: Vec<Task<'_>>,
) -> Result<Final, NoMemory>
    requires board { (run.board.plan ≡ run.plan.now) × (run.board.mode ≡ Detect) }
    requires viewer { IsNewSeat run.board None nothing_seen run.view }
    requires tasks { All (IsPooled run.board) tasks.items }
    ensures end { IfOk result (λ end. IsPlainEnd run.entry.plan.now end) }
{
    let PoolRun {
        alloc,
        plan,
        options,
        board,
        mut view,
    } = run;
    let mut places = first_places(alloc, plan)?;
    note_places(tasks.as_slice(), &mut places);
    let whole = are_whole(alloc, plan, tasks.as_slice())?;
    take_in_all(&board, &mut view, tasks);
    let mut collector = Collector::start(alloc, &board)?;
    let _ = collector.pass(alloc, &mut view, &board, options.wanted)?;
    let _ = board.close(view);
    if whole {
        let ended = world_end_from(alloc, plan, places.as_slice(), gate)?;
        return Ok(ended.end);
    }
    run_plain(alloc, plan, gate)
}

// Whether task 0 is one of these tasks, and each task that one of them has forked.
fn are_whole(alloc: Global, plan: &Plan, tasks: &[Task<'_>]) -> Result<bool, NoMemory>
    requires within { All (λ task. own_number task < length plan.now.parents) tasks.now }
    ensures whole { IfOk result (λ whole. whole ≡ true → AreClosedUnderForks plan.now tasks.now) }
{
    let mut marks = vec![in alloc; false; plan.tasks() as usize]?;
    mark(tasks, &mut marks);
    if !is_marked(marks.as_slice(), 0) {
        return Ok(false);
    }
    Ok(have_forked_marked(plan, tasks, marks.as_slice()))
}

// Marks the number of each of these tasks.
fn mark(tasks: &[Task<'_>], marks: &mut Vec<bool>)
    requires { All (λ task. own_number task < length marks.old.items) tasks.now }
    ensures { (t : ℕ) → slice_get marks.new.items t ≡ Some true → ContainsTask tasks.now t ⊎ (slice_get marks.old.items t ≡ Some true) }
{
    for task in tasks {
        marks[task.id().0 as usize] = true;
    }
}

// Whether a number is marked.
fn is_marked(marks: &[bool], t: u32) -> bool
    ensures { result ≡ true → slice_get marks.now t ≡ Some true }
{
    match marks.get(t as usize).copied() {
        Some(marked) => marked,
        None => false,
    }
}

// Whether each task that one of these has forked is marked.
fn have_forked_marked(plan: &Plan, tasks: &[Task<'_>], marks: &[bool]) -> bool
    requires within { All (λ task. own_number task < length plan.now.parents) tasks.now }
    ensures { result ≡ true → All (λ task. AreForksMarked (code_of plan.now (own_number task)) (done_of task) marks.now) tasks.now }
{
    for task in tasks {
        let cursor = plan.cursor(task.id());
        if !are_forks_marked(cursor, task.place().events, marks) {
            return false;
        }
    }
    true
}

// Whether each task that is forked among the first actions of these ops, so many, is marked.
fn are_forks_marked(mut cursor: Cursor<'_>, done: u32, marks: &[bool]) -> bool
    ensures { result ≡ true → AreForksMarked cursor.entry done marks.now }
{
    let mut left = done;
    'ops: while let Some(op) = cursor.next() {
        if left == 0 {
            return true;
        }
        if !is_fork_marked(op, marks) {
            return false;
        }
        left = left.saturating_sub(actions_in(op));
    }
    true
}

// Whether an op forks no task, or one that is marked.
fn is_fork_marked(op: Op, marks: &[bool]) -> bool
    ensures { result ≡ true → (c : TaskId) → op ≡ Fork c → slice_get marks.now c.0 ≡ Some true }
{
    match op {
        Op::Fork { c } => is_marked(marks, c.0),
        _ => true,
    }
}

// How many actions an op is.
fn actions_in(op: Op) -> u32
    ensures { result ≡ length (actions_of (op ∷ [])) }
{
    match op {
        Op::Await { p: _, off: _ } => 2,
        _ => 1,
    }
}
