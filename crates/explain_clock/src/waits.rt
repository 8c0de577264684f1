// Where activities wait.
ghost use Rattle.std.specs.Prelude.{◌≡◌, ◌+◌, ◌<◌, ◌≤◌, ◌^◌, ◌++◌, ◌∷◌, ℕ, false, IfOk, None, OnOk, [], count_by, drop, if◌then◌else◌, length, slice_index_or, take};
ghost use Rattle.armus_base.specs.Finals.{end_of, list_below};
ghost use Rattle.armus_base.specs.Plans.{code_of};
ghost use Rattle.armus_base.specs.Places.{done_by};
ghost use Rattle.pl_core.specs.calls.Worlds.{places_of, state_of};
ghost use Rattle.explain_clock.specs.ClockFacts.{AreWaitsAt, IsWaitBy, IsWaitOf, is_pending, op_move, moves_from};
ghost use Rattle.explain_clock.specs.inside.Passing.{pending_by};
ghost use Rattle.clock_source_map.specs.ClockOps.{is_await};

use crate::facts::{NextMove, Wait};
use armus_base::{Cursor, List, NoMemory, Op, PhaserId, TaskEnd, TaskId};
use clock_source_map::ClockOrigins;
use explain_facts::Doing;
use pl_core::World;
use pl_plan::Membership;
use std::alloc::{AllocError, Global};

// What the first ops of a code have left: how many of them wait, which clocks and finishes are pending, and the ops behind them.
#[derive(Drop)]
struct Passed<'p> {
    waits: u32,
    pending: Membership,
    left: Cursor<'p>,
}

// Whether the op waits.
fn is_await(op: Op) -> bool
    ensures { result ≡ is_await op }
{
    matches!(op, Op::Await { p: _, off: _ })
}

// How often the op waits.
fn wait_count(op: Op) -> u32
    ensures { result ≡ (if is_await op then 1 else 0) }
{
    if is_await(op) { 1 } else { 0 }
}

// Marks what is pending after an op.
fn mark(pending: &mut Membership, op: Op) -> Result<(), AllocError>
    ensures { OnOk result (pending.new ≡ pending_by op pending.old) }
{
    match op {
        Op::Adv { p } => pending.mark(p, true),
        Op::Await { p, off: _ } => pending.mark(p, false),
        Op::Drop { p } => pending.mark(p, false),
        Op::Make { p: _ } | Op::Reg { c: _, p: _ } | Op::Fork { c: _ } => Ok(()),
    }
}

// What the first `count` ops of a task have left.
fn ops_passed<'p>(
    alloc: Global,
    world: &World<'p>,
    t: TaskId,
    count: u32,
) -> Result<Passed<'p>, NoMemory>
    requires task { t.0 < length world.now.plan.parents }
    requires within { count ≤ length (code_of world.now.plan t.0) }
    ensures waits { IfOk result (λ p. p.waits ≡ count_by is_await (take count (code_of world.now.plan t.0))) }
    ensures pending { IfOk result (λ p. (q : ℕ) → slice_index_or p.pending q false ≡ is_pending (take count (code_of world.now.plan t.0)) q) }
    ensures left { IfOk result (λ p. p.left ≡ drop count (code_of world.now.plan t.0)) }
{
    let mut waits = 0;
    let mut pending = Membership::new(alloc);
    let mut cursor = world.plan().cursor(t);
    for _ in 0..count {
        let Some(op) = cursor.next() else {
            unreachable!();
        };
        waits += wait_count(op);
        mark(&mut pending, op)?;
    }
    Ok(Passed {
        waits,
        pending,
        left: cursor,
    })
}

// The statement from which an op comes, by its number.
fn statement_at(origins: &[Option<u32>], i: usize) -> Option<u32>
    ensures { result ≡ slice_index_or origins.now i None }
{
    match origins.get(i) {
        Some(statement) => *statement,
        None => None,
    }
}

// Appends what is done to a clock or finish at a statement.
fn push_done(
    moves: &mut Vec<NextMove>,
    p: PhaserId,
    does: Doing,
    statement: Option<u32>,
) -> Result<(), NoMemory>
    ensures { OnOk result (moves.new.items ≡ moves.old.items ++ record { p = p; does = does; statement = statement } ∷ []) }
{
    moves.push(NextMove { p, does, statement })?;
    Ok(())
}

// Appends what an op does that comes from this statement, where it signals or leaves.
fn push_move(moves: &mut Vec<NextMove>, op: Op, statement: Option<u32>) -> Result<(), NoMemory>
    ensures { OnOk result (moves.new.items ≡ moves.old.items ++ op_move statement op) }
{
    match op {
        Op::Adv { p } => push_done(moves, p, Doing::Advances, statement),
        Op::Drop { p } => push_done(moves, p, Doing::Leaves, statement),
        Op::Make { p: _ } => Ok(()),
        Op::Reg { c: _, p: _ } => Ok(()),
        Op::Fork { c: _ } => Ok(()),
        Op::Await { p: _, off: _ } => Ok(()),
    }
}

// What these ops do, of which the first has number `i`.
fn moves_from(
    alloc: Global,
    origins: &[Option<u32>],
    i: u32,
    ops: Cursor<'_>,
) -> Result<Vec<NextMove>, NoMemory>
    requires few { i + length ops < 2 ^ 32 }
    ensures { IfOk result (λ v. v.items ≡ moves_from origins.now i ops.entry) }
{
    let mut left = ops;
    let mut at = i;
    let mut moves = Vec::new(alloc);
    'ops: while let Some(op) = left.next() {
        push_move(&mut moves, op, statement_at(origins, at as usize))?;
        at += 1;
    }
    Ok(moves)
}

// Where an activity waits, whose ops come from these statements.
fn wait_of(
    alloc: Global,
    origins: &ClockOrigins<'_>,
    ops: &[Option<u32>],
    world: &World<'_>,
    t: TaskId,
) -> Result<Wait, NoMemory>
    requires task { t.0 < length world.now.plan.parents }
    ensures { IfOk result (IsWaitOf (code_of world.now.plan t.0) (slice_index_or origins.now.waits t.0 []) ops.now (length world.now.plan.makers) (places_of world.now t.0).done) }
{
    let plan = world.plan();
    let from = world.op(t);
    let Passed {
        waits,
        pending,
        left,
    } = ops_passed(alloc, world, t, from)?;
    let ahead = moves_from(alloc, ops, from, left)?;
    Ok(Wait {
        statement: origins.wait(t.0, waits),
        pending,
        clocks: plan.phasers(),
        ahead,
    })
}

// Where an activity waits that has ended so, if it waits.
fn wait_by(
    alloc: Global,
    origins: &ClockOrigins<'_>,
    ops: &[Option<u32>],
    world: &World<'_>,
    t: TaskId,
    end: TaskEnd,
) -> Result<Wait, NoMemory>
    requires task { t.0 < length world.now.plan.parents }
    ensures { IfOk result (IsWaitBy (code_of world.now.plan t.0) (slice_index_or origins.now.waits t.0 []) ops.now (length world.now.plan.makers) (places_of world.now t.0).done end) }
{
    match end {
        TaskEnd::Blocked(_) => wait_of(alloc, origins, ops, world, t),
        TaskEnd::Done | TaskEnd::Refused(_) | TaskEnd::Unforked => Ok(Wait {
            statement: None,
            pending: Membership::new(alloc),
            clocks: 0,
            ahead: Vec::new(alloc),
        }),
    }
}

// The statements from which the ops of an activity come.
fn ops_of(ops: &[List<Option<u32>>], t: u32) -> &[Option<u32>]
    ensures { result.now ≡ slice_index_or ops.now t [] }
{
    match ops.get(t as usize) {
        Some(statements) => statements.as_slice(),
        None => &[],
    }
}

// Where each activity waits, which have ended so, and whose ops come from these statements.
pub(crate) fn waits_of(
    alloc: Global,
    origins: &ClockOrigins<'_>,
    ops: &[List<Option<u32>>],
    world: &World<'_>,
    ends: &[TaskEnd],
) -> Result<Vec<Wait>, NoMemory>
    requires ends { ends.now ≡ list_below (end_of (state_of world.now)) (length world.now.plan.parents) }
    ensures { IfOk result (λ ws. AreWaitsAt origins.now.waits ops.now world.now.plan (state_of world.now) (done_by (places_of world.now)) ws.items) }
{
    let plan = world.plan();
    let mut all = Vec::with_capacity(alloc, ends.len())?;
    for t in 0..plan.tasks() {
        let own = ops_of(ops, t);
        all.push(wait_by(alloc, origins, own, world, TaskId(t), ends[t as usize])?)?;
    }
    Ok(all)
}
