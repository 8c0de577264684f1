// The walk over steps, with loops and their turns.

ghost use Rattle.std.specs.Prelude.{◌+◌, ◌<◌, ◌≤◌, ◌^◌, length, OnOk};
ghost use Rattle.pl_plan.specs.inside.Checker.{IsChecker, Keeps};
ghost use Rattle.pl_plan.specs.inside.Steps.{IsList};
ghost use Rattle.pl_plan.specs.inside.Shows.{FollowsFrom, FollowsTurns};

use crate::checker::Checker;
use crate::fault::PlanEnd;
use crate::statements::{act, count_visit, fork};
use crate::step::FlatStep;
use armus_base::TaskId;
use std::alloc::Global;

// The turns of the loop with index at.
#[cycle(walk)]
fn walk_turns(
    alloc: Global,
    checker: &mut Checker,
    t: TaskId,
    at: u32,
    turns: u16,
    after: u32,
) -> Result<(), PlanEnd>
    requires fits { IsChecker checker.old }
    requires small { length checker.old.steps < 2 ^ 32 }
    requires task { t.0 < length checker.old.parents }
    requires here { at < after }
    requires within { after ≤ length checker.old.steps }
    requires list { IsList (length checker.old.bindings.slots) checker.old.steps (at + 1) after }
    ensures follows { FollowsTurns at after t.0 turns checker.old result checker.new }
    ensures keeps { OnOk result (Keeps checker.old checker.new) }
{
    let number = at + 1;
    for _ in 0..turns {
        count_visit(checker, number)?;
        walk(alloc, checker, t, at + 1, after)?;
    }
    Ok(())
}

// The steps from one index on, before another.
#[cycle(walk)]
pub(crate) fn walk(
    alloc: Global,
    checker: &mut Checker,
    t: TaskId,
    from: u32,
    to: u32,
) -> Result<(), PlanEnd>
    requires fits { IsChecker checker.old }
    requires small { length checker.old.steps < 2 ^ 32 }
    requires task { t.0 < length checker.old.parents }
    requires within { to ≤ length checker.old.steps }
    requires list { IsList (length checker.old.bindings.slots) checker.old.steps from to }
    ensures follows { FollowsFrom from to t.0 checker.old result checker.new }
    ensures keeps { OnOk result (Keeps checker.old checker.new) }
{
    let mut at = from;
    while at < to {
        let step = checker.step(at);
        count_visit(checker, at + 1)?;
        match step {
            FlatStep::Loop {
                k,
                after,
                steady: _,
            } => {
                walk_turns(alloc, checker, t, at, k, after)?;
                at = after;
            }
            FlatStep::Fork { x, after } => {
                fork(alloc, checker, t, at + 1, x, after)?;
                at = after;
            }
            _ => {
                act(alloc, checker, t, at + 1, step)?;
                at += 1;
            }
        }
    }
    Ok(())
}
