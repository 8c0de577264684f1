// Which phasers the ops of a plan use, and how.
ghost use Rattle.std.specs.Prelude.{◌≡◌, ◌==◌, IfOk, false, replicate};
ghost use Rattle.explain_facts.specs.PhaserUses.{awaiting, is_on_phaser, registering, some_op, used_by};
ghost use Rattle.explain_facts.specs.calls.Used.{AreUsed};
ghost use Rattle.explain_facts.specs.inside.Marked.{HaveMarks};

use armus_base::{Cursor, NoMemory, Op, PhaserId, Plan, TaskId};
use std::alloc::Global;

/// What an op may do to a phaser that lets somebody wait there.
#[derive(Clone, Copy, Debug, PartialEq, Eq)]
pub enum PhaserUse {
    /// It awaits an event of it.
    Awaits,
    /// It registers a task on it.
    Registers,
}

// The phaser that an op awaits.
fn awaiting(op: Op) -> Option<PhaserId>
    ensures { result ≡ awaiting op }
{
    match op {
        Op::Await { p, off: _ } => Some(p),
        Op::Make { p: _ } => None,
        Op::Reg { c: _, p: _ } => None,
        Op::Fork { c: _ } => None,
        Op::Adv { p: _ } => None,
        Op::Drop { p: _ } => None,
    }
}

// The phaser on which an op registers a task.
fn registering(op: Op) -> Option<PhaserId>
    ensures { result ≡ registering op }
{
    match op {
        Op::Reg { c: _, p } => Some(p),
        Op::Make { p: _ } => None,
        Op::Fork { c: _ } => None,
        Op::Adv { p: _ } => None,
        Op::Drop { p: _ } => None,
        Op::Await { p: _, off: _ } => None,
    }
}

// The phaser that an op uses so.
fn used_by(use_so: PhaserUse, op: Op) -> Option<PhaserId>
    ensures { result ≡ used_by use_so op }
{
    match use_so {
        PhaserUse::Awaits => awaiting(op),
        PhaserUse::Registers => registering(op),
    }
}

// Marks a phaser.
fn mark_at(marks: &mut [bool], p: PhaserId)
    ensures marked { HaveMarks (λ q. p.0 == q) marks.old marks.new }
{
    let at = p.0 as usize;
    if at < marks.len() {
        marks[at] = true;
    }
}

// Marks a phaser, if there is one.
fn mark(marks: &mut [bool], p: Option<PhaserId>)
    ensures marked { HaveMarks (λ q. is_on_phaser q p) marks.old marks.new }
{
    match p {
        Some(p) => mark_at(marks, p),
        None => {}
    }
}

// Marks each phaser that one of these ops uses so.
fn mark_ops(marks: &mut [bool], use_so: PhaserUse, ops: Cursor<'_>)
    ensures marked { HaveMarks (some_op use_so ops.entry) marks.old marks.new }
{
    let mut left = ops;
    'ops: while let Some(op) = left.next() {
        mark(marks, used_by(use_so, op));
    }
}

/// So many marks, of which none is set.
pub(crate) fn no_marks(alloc: Global, count: u32) -> Result<Vec<bool>, NoMemory>
    ensures { IfOk result (λ v. v.items ≡ replicate count false) }
{
    let mut marks = Vec::with_capacity(alloc, count as usize)?;
    for _ in 0..count {
        marks.push(false)?;
    }
    Ok(marks)
}

/// Of each phaser of a plan whether an op uses it so.
pub fn used_phasers(alloc: Global, plan: &Plan, use_so: PhaserUse) -> Result<Vec<bool>, NoMemory>
    ensures used { IfOk result (λ v. AreUsed use_so plan.now v.items) }
{
    let mut marks = no_marks(alloc, plan.phasers())?;
    for t in 0..plan.tasks() {
        mark_ops(&mut marks, use_so, plan.cursor(TaskId(t)));
    }
    Ok(marks)
}
