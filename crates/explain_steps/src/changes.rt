// The words for what a step changes.
ghost use Rattle.std.specs.Prelude.{◌≡◌, ◌++◌, ◌+◌, ◌<◌, ◌^◌, ℕ, OnOk, Some, codes, length, slice_get};
ghost use Rattle.armus_base.specs.Plans.{code_of};
ghost use Rattle.armus_base.specs.States.{IsActive};
ghost use Rattle.pl_core.specs.calls.Stands.{IsBeforeOp, IsEnabled};
ghost use Rattle.pl_core.specs.Tasks.{IsAtOp};
ghost use Rattle.pl_core.specs.calls.Worlds.{action_by_code, places_of, state_of};
ghost use Rattle.pl_core.specs.inside.Ops.{action_of};
ghost use Rattle.explain_tasks.specs.Places.{said_of};
ghost use Rattle.explain_steps.specs.StepWords.{change_words, phase_change, made_phaser_words, drawn_task_words, waits_words, with_phase_words};
ghost use Rattle.explain_facts.specs.calls.Known.{AreKnownFacts};
ghost use Rattle.explain_steps.specs.inside.SoFar.{IsNoAwait};

use crate::words::{put_phaser, put_task};
use armus_base::{Event, NoMemory, Op, Phase, PhaserId, Plan, TaskId, put_number, put_words};
use explain_facts::TextFacts;
use pl_core::{Stand, World};
use std::alloc::Global;

/// The op of a task's code at this index: none where it has no such op. The time is linear in the index.
pub fn op_at(plan: &Plan, t: TaskId, i: u32) -> Option<Op>
    requires task { t.0 < length plan.now.parents }
    ensures { result ≡ slice_get (code_of plan.now t.0) i }
{
    let mut cursor = plan.cursor(t);
    for _ in 0..i {
        cursor.next();
    }
    cursor.peek()
}

/// The op before which a task stands that goes on without a wait, at this index of its code: it is no await. The time is linear in the index.
pub fn ready_op(world: &World<'_>, t: TaskId, i: u32) -> Op
    requires task { t.0 < length world.now.plan.parents }
    requires ready { IsBeforeOp world.now t.0 }
    requires at { IsAtOp (code_of world.now.plan t.0) (places_of world.now t.0).done i }
    ensures next { action_by_code world.now t.0 ≡ Some (action_of result) }
    ensures kind { IsNoAwait result }
{
    match op_at(world.plan(), t, i) {
        Some(op) => op,
        None => unreachable!(),
    }
}

/// Appends with which phase a task becomes a member: ` with phase 2`.
pub fn put_with_phase(
    alloc: Global,
    out: &mut Vec<u8>,
    phase: Option<Phase>,
) -> Result<(), NoMemory>
    ensures { OnOk result (out.new.items ≡ out.old.items ++ with_phase_words phase) }
{
    match phase {
        Some(n) => {
            put_words(out, b" with phase ")?;
            put_number(alloc, out, n as u64)?;
            Ok(())
        }
        None => Ok(()),
    }
}

/// Appends from which phase a task goes on to which: `phase 0 to 1`.
pub fn put_phase_change(
    alloc: Global,
    out: &mut Vec<u8>,
    phase: Option<Phase>,
) -> Result<(), NoMemory>
    requires room { (n : ℕ) → phase ≡ Some n → n + 1 < 2 ^ 32 }
    ensures { OnOk result (out.new.items ≡ out.old.items ++ phase_change phase) }
{
    match phase {
        Some(n) => {
            put_words(out, b"phase ")?;
            put_number(alloc, out, n as u64)?;
            put_words(out, b" to ")?;
            put_number(alloc, out, (n + 1) as u64)
        }
        None => Ok(()),
    }
}

// Appends the event that a task waits for.
fn put_waits(facts: &TextFacts<'_>, out: &mut Vec<u8>, event: Event) -> Result<(), NoMemory>
    requires known { AreKnownFacts facts.now }
    ensures { OnOk result (out.new.items ≡ out.old.items ++ waits_words facts.now.program.now (Some event)) }
{
    put_words(out, b"waits for phase ")?;
    put_number(facts.alloc, out, event.n as u64)?;
    put_words(out, b" of ")?;
    put_phaser(facts, out, event.p)?;
    Ok(())
}

// Appends what a `reg` changes.
fn put_reg(
    facts: &TextFacts<'_>,
    out: &mut Vec<u8>,
    c: TaskId,
    p: PhaserId,
    phase: Option<Phase>,
) -> Result<(), NoMemory>
    requires known { AreKnownFacts facts.now }
    ensures { OnOk result (out.new.items ≡ out.old.items ++ (codes "registers " ++ drawn_task_words facts.now.program.now c.0 ++ codes " on "
        ++ made_phaser_words facts.now.program.now p.0 ++ with_phase_words phase)) }
{
    put_words(out, b"registers ")?;
    put_task(facts, out, c)?;
    put_words(out, b" on ")?;
    put_phaser(facts, out, p)?;
    put_with_phase(facts.alloc, out, phase)
}

// Appends what an `adv` changes.
fn put_adv(
    facts: &TextFacts<'_>,
    out: &mut Vec<u8>,
    p: PhaserId,
    phase: Option<Phase>,
) -> Result<(), NoMemory>
    requires known { AreKnownFacts facts.now }
    requires room { (n : ℕ) → phase ≡ Some n → n + 1 < 2 ^ 32 }
    ensures { OnOk result (out.new.items ≡ out.old.items ++ (made_phaser_words facts.now.program.now p.0 ++ codes ": " ++ phase_change phase)) }
{
    put_phaser(facts, out, p)?;
    put_words(out, b": ")?;
    put_phase_change(facts.alloc, out, phase)
}

// Appends what a `newPhaser` changes.
fn put_make(facts: &TextFacts<'_>, out: &mut Vec<u8>, p: PhaserId) -> Result<(), NoMemory>
    requires known { AreKnownFacts facts.now }
    ensures { OnOk result (out.new.items ≡ out.old.items ++ (codes "makes " ++ made_phaser_words facts.now.program.now p.0 ++ with_phase_words (Some 0))) }
{
    put_words(out, b"makes ")?;
    put_phaser(facts, out, p)?;
    put_with_phase(facts.alloc, out, Some(0))
}

// Appends what a `fork` changes.
fn put_fork(facts: &TextFacts<'_>, out: &mut Vec<u8>, c: TaskId) -> Result<(), NoMemory>
    requires known { AreKnownFacts facts.now }
    ensures { OnOk result (out.new.items ≡ out.old.items ++ (codes "forks " ++ drawn_task_words facts.now.program.now c.0)) }
{
    put_words(out, b"forks ")?;
    put_task(facts, out, c)
}

// Appends what a `dereg` changes, and a task's end.
fn put_drop(facts: &TextFacts<'_>, out: &mut Vec<u8>, p: PhaserId) -> Result<(), NoMemory>
    requires known { AreKnownFacts facts.now }
    ensures { OnOk result (out.new.items ≡ out.old.items ++ (codes "leaves " ++ made_phaser_words facts.now.program.now p.0)) }
{
    put_words(out, b"leaves ")?;
    put_phaser(facts, out, p)
}

// Appends what an op changes that is no await.
fn put_op(
    facts: &TextFacts<'_>,
    out: &mut Vec<u8>,
    world: &World<'_>,
    t: TaskId,
    op: Op,
) -> Result<(), NoMemory>
    requires known { AreKnownFacts facts.now }
    requires task { t.0 < length world.now.plan.parents }
    requires active { IsActive (state_of world.now) t.0 }
    requires next { action_by_code world.now t.0 ≡ Some (action_of op) }
    requires kind { IsNoAwait op }
    ensures { OnOk result (out.new.items ≡ out.old.items ++ change_words facts.now.program.now (state_of world.now) t.0 (action_of op)) }
{
    let _plan = world.plan();
    match op {
        Op::Make { p } => put_make(facts, out, p),
        Op::Reg { c, p } => {
            let phase = world.phase(p, t);
            put_reg(facts, out, c, p, phase)
        }
        Op::Fork { c } => put_fork(facts, out, c),
        Op::Adv { p } => {
            let phase = world.phase(p, t);
            put_adv(facts, out, p, phase)
        }
        Op::Drop { p } => put_drop(facts, out, p),
        Op::Await { p: _, off: _ } => unreachable!(),
    }
}

// Appends what the next step of a task changes that may go on and stands at op i of its code.
pub(crate) fn put_change(
    facts: &TextFacts<'_>,
    out: &mut Vec<u8>,
    world: &World<'_>,
    t: TaskId,
    i: u32,
) -> Result<(), NoMemory>
    requires known { AreKnownFacts facts.now }
    requires task { t.0 < length world.now.plan.parents }
    requires enabled { IsEnabled world.now t.0 }
    requires at { IsAtOp (code_of world.now.plan t.0) (places_of world.now t.0).done i }
    ensures { OnOk result (out.new.items ≡ out.old.items ++ said_of (change_words facts.now.program.now (state_of world.now) t.0) (action_by_code world.now t.0)) }
{
    match world.stand(t) {
        Stand::Ready => put_op(facts, out, world, t, ready_op(world, t, i)),
        Stand::Await(event) => put_waits(facts, out, event),
        Stand::Waits(_) => put_words(out, b"goes on"),
        Stand::Unforked | Stand::Done | Stand::Refused(_) => unreachable!(),
    }
}
