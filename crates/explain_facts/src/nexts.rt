// What a task does next to each phaser.
ghost use Rattle.std.specs.Prelude.{◌≡◌, ℕ, ◌==◌, ◌+◌, ◌<◌, ◌^◌, IfOk, None, Some, drop, if◌then◌else◌, length, option_map, replicate, slice_index_or};
ghost use Rattle.armus_base.specs.Finals.{given_below};
ghost use Rattle.armus_base.specs.Places.{done_by};
ghost use Rattle.armus_base.specs.CheckedPlans.{IsCheckedPlan};
ghost use Rattle.pl_core.specs.calls.Worlds.{places_of};
ghost use Rattle.source_map.specs.Origins.{op_origins};
ghost use Rattle.explain_facts.specs.Accounts.{AreNextOps, does_to, next_op, op_place};
ghost use Rattle.explain_facts.specs.calls.Known.{AreKnownFacts, kept_layout};
ghost use Rattle.explain_facts.specs.inside.Firsts.{AreFirsts, known_or};

use crate::account::{Doing, NextOp};
use crate::facts::TextFacts;
use armus_base::{Cursor, List, NoMemory, Op, PhaserId, TaskId};
use pl_core::World;
use source_map::TextPlace;
use std::alloc::Global;

// Notes that an op with this number does so to a phaser, where none of an earlier one is noted.
fn note_at(firsts: &mut [Option<(Doing, u32)>], p: PhaserId, does: Doing, i: u32)
    ensures sized { length firsts.new ≡ length firsts.old }
    ensures noted { (q : ℕ) → q < length firsts.old →
        slice_index_or firsts.new q None ≡ known_or (slice_index_or firsts.old q None) (if p.0 == q then Some (does, i) else None) }
{
    let at = p.0 as usize;
    if at < firsts.len() {
        if firsts[at].is_none() {
            firsts[at] = Some((does, i));
        }
    }
}

// Notes of an op with this number what it does to its phaser, where none of an earlier one is noted.
fn note(firsts: &mut [Option<(Doing, u32)>], op: Op, i: u32)
    ensures sized { length firsts.new ≡ length firsts.old }
    ensures noted { (q : ℕ) → q < length firsts.old →
        slice_index_or firsts.new q None ≡ known_or (slice_index_or firsts.old q None) (option_map (λ does. (does, i)) (does_to q op)) }
{
    match op {
        Op::Adv { p } => note_at(firsts, p, Doing::Advances, i),
        Op::Drop { p } => note_at(firsts, p, Doing::Leaves, i),
        Op::Make { p: _ } => {}
        Op::Reg { c: _, p: _ } => {}
        Op::Fork { c: _ } => {}
        Op::Await { p: _, off: _ } => {}
    }
}

// Of so many phasers that no op was found there.
fn no_firsts(alloc: Global, phasers: u32) -> Result<Vec<Option<(Doing, u32)>>, NoMemory>
    ensures { IfOk result (λ v. v.items ≡ replicate phasers None) }
{
    let mut firsts = Vec::with_capacity(alloc, phasers as usize)?;
    for _ in 0..phasers {
        firsts.push(None)?;
    }
    Ok(firsts)
}

// Of each of so many phasers the first of these ops that advances it or leaves it, where the first of them all has number i.
fn firsts_of(
    alloc: Global,
    ops: Cursor<'_>,
    i: u32,
    phasers: u32,
) -> Result<Vec<Option<(Doing, u32)>>, NoMemory>
    requires few { i + length ops < 2 ^ 32 }
    ensures { IfOk result (λ v. AreFirsts ops.entry i phasers v.items) }
{
    let mut left = ops;
    let mut at = i;
    let mut firsts = no_firsts(alloc, phasers)?;
    'ops: while let Some(op) = left.next() {
        note(&mut firsts, op, at);
        at += 1;
    }
    Ok(firsts)
}

// Takes so many ops, as far as there are any.
fn skip(ops: &mut Cursor<'_>, count: u32)
    ensures { ops.new ≡ drop count ops.old }
{
    for _ in 0..count {
        let _ = ops.next();
    }
}

// The place of an op of a task that comes from this statement, or from none.
fn op_place(facts: &TextFacts<'_>, t: TaskId, n: Option<u32>) -> TextPlace
    requires { AreKnownFacts facts.now }
    ensures { result ≡ op_place (kept_layout facts.now) facts.now.program.now t.0 n }
{
    match n {
        Some(n) => facts.statement(n),
        None => facts.end(facts.origins.fork(t).unwrap_or(0)),
    }
}

// What a task does next to a phaser, by the first op there.
fn next_op(
    facts: &TextFacts<'_>,
    t: TaskId,
    origins: &[u32],
    p: PhaserId,
    first: Option<(Doing, u32)>,
) -> Option<NextOp>
    requires known { AreKnownFacts facts.now }
    requires origins { origins.now ≡ op_origins facts.now.program.now t.0 }
    ensures { result ≡ next_op (kept_layout facts.now) facts.now.program.now t.0 p.0 first }
{
    match first {
        Some((does, i)) => Some(NextOp {
            p,
            does,
            at: op_place(facts, t, origins.get(i as usize).copied()),
        }),
        None => None,
    }
}

// What a task does next to each phaser, by the first op there.
fn next_ops(
    facts: &TextFacts<'_>,
    t: TaskId,
    origins: &[u32],
    firsts: &[Option<(Doing, u32)>],
) -> Result<List<NextOp>, NoMemory>
    requires known { AreKnownFacts facts.now }
    requires origins { origins.now ≡ op_origins facts.now.program.now t.0 }
    requires few { length firsts.now < 2 ^ 32 }
    ensures { IfOk result (λ v. v ≡ given_below (λ q. next_op (kept_layout facts.now) facts.now.program.now t.0 q (slice_index_or firsts.now q None)) (length firsts.now)) }
{
    let mut all = Vec::new(facts.alloc);
    for q in 0..firsts.len() {
        match next_op(facts, t, origins, PhaserId(q as u32), firsts[q]) {
            Some(next) => all.push(next)?,
            None => {}
        }
    }
    Ok(List::from_vec(all))
}

// What a task does next to each phaser in a world.
pub(crate) fn nexts_of(
    facts: &TextFacts<'_>,
    world: &World<'_>,
    t: TaskId,
) -> Result<List<NextOp>, NoMemory>
    requires known { AreKnownFacts facts.now }
    requires checked { IsCheckedPlan world.now.plan }
    requires task { t.0 < length world.now.plan.parents }
    ensures { IfOk result (AreNextOps (kept_layout facts.now) facts.now.program.now world.now.plan (done_by (places_of world.now)) t.0) }
{
    let plan = world.plan();
    let from = world.op(t);
    let mut rest = plan.cursor(t);
    skip(&mut rest, from);
    let firsts = firsts_of(facts.alloc, rest, from, plan.phasers())?;
    let origins = facts.origins.ops(facts.alloc, facts.program, t)?;
    let nexts = next_ops(facts, t, &origins, &firsts)?;
    Ok(nexts)
}
