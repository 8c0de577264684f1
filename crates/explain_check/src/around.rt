// The loops around a statement.

ghost use Rattle.std.specs.Prelude.{◌≡◌, ◌+◌, ◌<◌, ◌≤◌, ◌^◌, ℕ, length, IfOk};
ghost use Rattle.pl_plan.specs.inside.Steps.{IsList, step_at};
ghost use Rattle.explain_check.specs.inside.Told.{AreTurns, index_behind, enters, turn_told};

use crate::notes::{LastTurn, turn_of};
use crate::scene::LoopTurn;
use armus_base::{List, NoMemory, TaskId};
use pl_plan::step::FlatStep;
use std::alloc::Global;

// The step with this index.
fn step_of(steps: &[FlatStep], at: u32) -> FlatStep
    requires { at < length steps.now }
    ensures { result ≡ step_at steps.now at }
{
    steps[at as usize]
}

// The end of a loop around statement `n`, if the step with this index is one.
fn enters(step: FlatStep, at: u32, n: u32) -> Option<u32>
    requires { at + 1 < 2 ^ 32 }
    ensures { result ≡ enters step at n }
{
    match step {
        FlatStep::Loop {
            k: _,
            after,
            steady: _,
        } => {
            if at + 1 < n && n <= after {
                Some(after)
            } else {
                None
            }
        }
        _ => None,
    }
}

// The index behind a statement with its body.
fn behind(step: FlatStep, at: u32) -> u32
    requires { at + 1 < 2 ^ 32 }
    ensures { result ≡ index_behind step at }
{
    match step {
        FlatStep::Loop {
            k: _,
            after,
            steady: _,
        } => after,
        FlatStep::Fork { x: _, after } => after,
        _ => at + 1,
    }
}

// The turn of a loop by the index of its step.
fn turn_told(last_turns: &[LastTurn], t: TaskId, at: u32) -> LoopTurn
    requires here { at < length last_turns.now }
    requires small { at + 1 < 2 ^ 32 }
    ensures { result ≡ turn_told last_turns.now t.0 (at + 1) }
{
    LoopTurn {
        statement: at + 1,
        turn: turn_of(last_turns, t, at),
    }
}

/// The loops around statement `n`, with the turns in which task `t` is, of the statements of these steps from one index on, before another; from outside in.
pub(crate) fn turns_told(
    alloc: Global,
    steps: &[FlatStep],
    range: (u32, u32),
    last_turns: &[LastTurn],
    t: TaskId,
    n: u32,
) -> Result<List<LoopTurn>, NoMemory>
    requires few { length steps.now < 2 ^ 32 }
    requires many { length last_turns.now ≡ length steps.now }
    requires within { range.1 ≤ length steps.now }
    requires list { (count : ℕ) × IsList count steps.now range.0 range.1 }
    ensures { IfOk result (AreTurns steps.now range.0 range.1 last_turns.now t.0 n) }
{
    let mut turns = List::new(alloc);
    let (mut at, mut to) = range;
    while at < to {
        let step = step_of(steps, at);
        if let Some(end) = enters(step, at, n) {
            turns.push(turn_told(last_turns, t, at))?;
            to = end;
            at += 1;
            continue;
        }
        at = behind(step, at);
    }
    Ok(turns)
}
