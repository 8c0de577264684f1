// The pieces of the codes: the ops of each task are folded by the steps that made them.

ghost use Rattle.std.specs.Prelude.{◌≡◌, ◌+◌, ◌<◌, ◌≤◌, ◌^◌, ◌++◌, length, drop, true, false, IfOk, OnOk};
ghost use Rattle.armus_base.specs.Pieces.{straight};
ghost use Rattle.pl_plan.specs.FoldedOps.{one_piece};
ghost use Rattle.pl_plan.specs.inside.Steps.{step_at};
ghost use Rattle.pl_plan.specs.inside.FoldsSteps.{GivesFolding, HasTree, HasTreeOf, FoldsFrom, FoldsLoop, step_folding, HasTreeAt, FoldsCode};

use crate::checker::Start;
use crate::step::FlatStep;
use armus_base::{List, MAX_OPS, NoMemory, Op, Piece};
use std::alloc::Global;

// The first op as a piece.
fn fold_op<'o>(ops: &'o [Op], pieces: &mut Vec<Piece>) -> Result<&'o [Op], NoMemory>
    ensures { GivesFolding result pieces.old.items pieces.new.items (one_piece ops.now) }
{
    let Some((op, left)) = ops.split_first() else {
        return Ok(ops);
    };
    pieces.push(Piece::Op(*op))?;
    Ok(left)
}

// A step without a body.
fn fold_plain<'o>(
    step: FlatStep,
    ops: &'o [Op],
    pieces: &mut Vec<Piece>,
) -> Result<&'o [Op], NoMemory>
    ensures { GivesFolding result pieces.old.items pieces.new.items (step_folding step ops.now) }
{
    match step {
        FlatStep::NewTask { x: _ } => Ok(ops),
        FlatStep::Skip => Ok(ops),
        _ => fold_op(ops, pieces),
    }
}

// The ops behind the first n.
fn behind(ops: &[Op], n: usize) -> &[Op]
    ensures { result.now ≡ drop n ops.now }
{
    if n < ops.len() { &ops[n..] } else { &[] }
}

// The step with this index.
fn step_at(steps: &[FlatStep], i: u32) -> FlatStep
    requires { i < length steps.now }
    ensures { result ≡ step_at steps.now i }
{
    steps[i as usize]
}

// The turns of the loop with index at, one after the other.
#[cycle(fold)]
fn fold_turns<'o>(
    steps: &[FlatStep],
    ops: &'o [Op],
    at: u32,
    turns: u16,
    after: u32,
    pieces: &mut Vec<Piece>,
) -> Result<&'o [Op], NoMemory>
    requires few { length ops.now < 2 ^ 32 }
    requires here { at < after }
    requires within { after ≤ length steps.now }
    requires spelled { HasTree steps.now (at + 1) after }
    ensures folds { FoldsLoop false steps.now at after turns ops.now result pieces.old.items pieces.new.items }
    ensures fewer { IfOk result (λ left. length left.now ≤ length ops.now) }
{
    let mut left = ops;
    for _ in 0..turns {
        left = fold_steps(steps, left, at + 1, after, pieces)?;
    }
    Ok(left)
}

// The steady loop with index at: a Repeat and the pieces of its first turn; the ops of its other turns are passed over.
#[cycle(fold)]
fn fold_steady<'o>(
    steps: &[FlatStep],
    ops: &'o [Op],
    at: u32,
    turns: u16,
    after: u32,
    pieces: &mut Vec<Piece>,
) -> Result<&'o [Op], NoMemory>
    requires few { length ops.now < 2 ^ 32 }
    requires here { at < after }
    requires within { after ≤ length steps.now }
    requires spelled { HasTreeOf true steps.now (at + 1) after }
    ensures folds { FoldsLoop true steps.now at after turns ops.now result pieces.old.items pieces.new.items }
    ensures fewer { IfOk result (λ left. length left.now ≤ length ops.now) }
{
    if turns == 0 {
        return Ok(ops);
    }
    let place = pieces.len();
    let k = u32::from(turns);
    pieces.push(Piece::Repeat { k, len: 0 })?;
    let left = fold_steps(steps, ops, at + 1, after, pieces)?;
    let len = pieces.len() - place - 1;
    if len == 0 {
        pieces.truncate(place);
        return Ok(ops);
    }
    pieces[place] = Piece::Repeat { k, len: len as u32 };
    Ok(behind(left, (k as usize - 1) * (ops.len() - left.len())))
}

// The loop with index at.
#[cycle(fold)]
fn fold_loop<'o>(
    steps: &[FlatStep],
    ops: &'o [Op],
    at: u32,
    turns: u16,
    after: u32,
    steady: bool,
    pieces: &mut Vec<Piece>,
) -> Result<&'o [Op], NoMemory>
    requires few { length ops.now < 2 ^ 32 }
    requires here { at < after }
    requires within { after ≤ length steps.now }
    requires spelled { HasTreeOf steady steps.now (at + 1) after }
    ensures folds { FoldsLoop steady steps.now at after turns ops.now result pieces.old.items pieces.new.items }
    ensures fewer { IfOk result (λ left. length left.now ≤ length ops.now) }
{
    if steady {
        fold_steady(steps, ops, at, turns, after, pieces)
    } else {
        fold_turns(steps, ops, at, turns, after, pieces)
    }
}

// The steps from one index on, before another.
#[cycle(fold)]
fn fold_steps<'o>(
    steps: &[FlatStep],
    ops: &'o [Op],
    from: u32,
    to: u32,
    pieces: &mut Vec<Piece>,
) -> Result<&'o [Op], NoMemory>
    requires few { length ops.now < 2 ^ 32 }
    requires within { to ≤ length steps.now }
    requires spelled { HasTree steps.now from to }
    ensures folds { FoldsFrom steps.now from to ops.now result pieces.old.items pieces.new.items }
    ensures fewer { IfOk result (λ left. length left.now ≤ length ops.now) }
{
    let mut left = ops;
    let mut at = from;
    while at < to {
        let step = step_at(steps, at);
        match step {
            FlatStep::Loop { k, after, steady } => {
                left = fold_loop(steps, left, at, k, after, steady, pieces)?;
                at = after;
            }
            FlatStep::Fork { x: _, after } => {
                left = fold_op(left, pieces)?;
                at = after;
            }
            _ => {
                left = fold_plain(step, left, pieces)?;
                at += 1;
            }
        }
    }
    Ok(left)
}

/// Appends one piece for each op. After `NoMemory` some of them may be there.
pub fn push_each(ops: &[Op], pieces: &mut Vec<Piece>) -> Result<(), NoMemory>
    ensures { OnOk result (pieces.new.items ≡ pieces.old.items ++ straight ops.now) }
{
    for op in ops {
        pieces.push(Piece::Op(*op))?;
    }
    Ok(())
}

// The pieces of the code of a task with this start, if it has one. Each coming to a statement is one step, but for the turns of a steady loop, which is
// gone through once.
pub(crate) fn code_pieces(
    alloc: Global,
    steps: &[FlatStep],
    start: &Option<Start>,
    ops: &[Op],
) -> Result<List<Piece>, NoMemory>
    requires few { length ops.now ≤ MAX_OPS }
    requires tree { HasTreeAt steps.now start.now }
    ensures folds { FoldsCode steps.now start.now ops.now result }
{
    let mut pieces = Vec::new(alloc);
    match start {
        None => {}
        Some(start) => {
            let left = fold_steps(steps, ops, start.first, start.after, &mut pieces)?;
            push_each(left, &mut pieces)?;
        }
    }
    Ok(List::from_vec(pieces))
}
