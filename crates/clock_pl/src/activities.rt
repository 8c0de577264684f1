// How an activity starts another, and how it stops.

ghost use Rattle.std.specs.Prelude.{◌≡◌, ◌+◌, ◌<◌, ◌≤◌, ◌^◌, ◌++◌, ◌∷◌, [], length, map, not, true, IsTrue, OnOk, IfOk, ℕ, false, slice_index_or};
ghost use Rattle.std.specs.List.{list_any};
ghost use Rattle.std.specs.Str.{bytes_eq};
ghost use Rattle.armus_base.specs.declared.ids.PhaserId.{PhaserId};
ghost use Rattle.clock_syntax.specs.Trees.{clock_count};
ghost use Rattle.clock_semantics.specs.Unfolding.{clock_of, clocks_of};
ghost use Rattle.clock_pl.specs.inside.ClockChecker.{current, spelled_names};
ghost use Rattle.clock_pl.specs.inside.ClockCheckerSteps.{GivesClockChecker, GivesValue, checker_async, checker_stop, innermost_alone, kept_start_at, start_ops, stop_op, stop_ops};

use crate::checker::{ActivityStart, ClockChecker};
use crate::fault::{ClockEnd, LISTED_TWICE, STILL_PENDING};
use crate::known::registered_on;
use crate::statements::{add_ops, fault_unless, next_activity, registered_clock};
use armus_base::{List, NoMemory, Op, PhaserId, TaskId};
use clock_syntax::{ClockBody, ClockName};
use indexmap::IndexSet;
use std::alloc::{AllocError, Global};

// Whether the name was not listed yet; then it is listed.
fn list_once<'n>(listed: &mut IndexSet<&'n [u8]>, x: &'n [u8]) -> Result<bool, AllocError>
    ensures fresh { IfOk result (λ b. b ≡ not (list_any (bytes_eq x.now) (spelled_names listed.old.keys))) }
    ensures listed { IfOk result (λ b. IsTrue b → spelled_names listed.new.keys ≡ spelled_names listed.old.keys ++ x.now ∷ []) }
{
    let (_, fresh) = listed.insert_full(x)?;
    Ok(fresh)
}

// The clock of a name of an async, behind the names that are listed.
#[tactic(auto, unfolding(clock_semantics::specs::Unfolding::clock_of))]
fn clock_once<'n>(
    checker: &ClockChecker<'_>,
    n: u32,
    listed: &mut IndexSet<&'n [u8]>,
    x: &'n [u8],
) -> Result<PhaserId, ClockEnd>
    ensures exact { GivesValue (λ (p : PhaserId). p.0) result (clock_of true n (spelled_names listed.old.keys) x.now (current checker.now)) }
    ensures listed { OnOk result (spelled_names listed.new.keys ≡ spelled_names listed.old.keys ++ x.now ∷ []) }
{
    let p = registered_clock(checker, n, x)?;
    let fresh = list_once(listed, x)?;
    fault_unless(fresh, LISTED_TWICE, n)?;
    fault_unless(!checker.is_pending(p), STILL_PENDING, n)?;
    Ok(p)
}

// The clocks of the names of an async.
fn clocks_of(
    alloc: Global,
    checker: &ClockChecker<'_>,
    n: u32,
    names: &[ClockName],
) -> Result<List<PhaserId>, ClockEnd>
    ensures { GivesValue (map (λ (p : PhaserId). p.0)) result (clocks_of n [] names.now (current checker.now)) }
{
    let mut listed = IndexSet::new(alloc);
    let mut clocks = List::new(alloc);
    for name in names {
        let p = clock_once(checker, n, &mut listed, name.as_bytes())?;
        clocks.push(p)?;
    }
    Ok(clocks)
}

// These clocks, and the finish that governs the activity, if one does.
fn with_finish(
    checker: &ClockChecker<'_>,
    clocks: List<PhaserId>,
) -> Result<List<PhaserId>, NoMemory>
    ensures { IfOk result (λ on. on ≡ clocks ++ innermost_alone checker.now.known.governing) }
{
    let mut on = clocks;
    if let Some(f) = checker.governing() {
        on.push(f)?;
    }
    Ok(on)
}

// The ops of the start of activity `c` on these clocks and this finish.
fn start_ops(alloc: Global, c: TaskId, on: &[PhaserId]) -> Result<Vec<Op>, AllocError>
    ensures { IfOk result (λ ops. ops.items ≡ start_ops c on.now) }
{
    let mut ops = Vec::new(alloc);
    for p in on {
        ops.push(Op::Reg { c, p: *p })?;
    }
    ops.push(Op::Fork { c })?;
    Ok(ops)
}

// With what an activity is started at statement `n`, on these clocks and this finish.
fn start_on<'p>(
    alloc: Global,
    checker: &mut ClockChecker<'p>,
    n: u32,
    body: &'p ClockBody,
    on: &[PhaserId],
) -> Result<ActivityStart<'p>, NoMemory>
    requires { n + clock_count body.now < 2 ^ 32 }
    ensures same { checker.new ≡ checker.old }
    ensures start { IfOk result (λ start. start ≡ kept_start_at n body.now on.now checker.old.known) }
{
    let clocks = checker.share(alloc)?;
    let members = registered_on(alloc, on)?;
    let governing = with_finish(checker, List::new(alloc))?.into_vec();
    Ok(ActivityStart {
        body,
        before: n,
        clocks,
        members,
        governing,
    })
}

// `async(x, y) { .. }`
#[tactic(auto, unfolding(crate::specs::inside::ClockCheckerSteps::checker_async, crate::specs::inside::ClockCheckerSteps::checker_move))]
pub(crate) fn start<'p>(
    alloc: Global,
    checker: &mut ClockChecker<'p>,
    n: u32,
    names: &[ClockName],
    body: &'p ClockBody,
) -> Result<(), ClockEnd>
    requires { n + clock_count body.now < 2 ^ 32 }
    ensures { GivesClockChecker result (checker_async n names.now body.now checker.old) checker.new }
{
    let clocks = clocks_of(alloc, checker, n, names)?;
    let c = next_activity(checker, n)?;
    let on = with_finish(checker, clocks)?;
    let start = start_on(alloc, checker, n, body, on.as_slice())?;
    let ops = start_ops(alloc, c, on.as_slice())?;
    checker.push_start(alloc, start)?;
    add_ops(checker, n, &ops)
}

// A Drop for each clock and finish on which the activity is registered, in order of number.
fn stop_ops(alloc: Global, checker: &ClockChecker<'_>) -> Result<Vec<Op>, AllocError>
    ensures { IfOk result (λ ops. ops.items ≡ stop_ops (λ p. slice_index_or checker.now.known.members p false) (length checker.now.makers)) }
{
    let mut ops = Vec::new(alloc);
    for p in 0..checker.clocks() {
        let p = PhaserId(p);
        push_drop(&mut ops, p, checker.is_registered(p))?;
    }
    Ok(ops)
}

// A Drop of `p`, if it is to be left.
fn push_drop(ops: &mut Vec<Op>, p: PhaserId, is: bool) -> Result<(), AllocError>
    ensures { OnOk result (ops.new.items ≡ ops.old.items ++ stop_op p.0 is) }
{
    if is {
        ops.push(Op::Drop { p })?;
    }
    Ok(())
}

// The end of the activity.
#[tactic(auto, unfolding(crate::specs::inside::ClockCheckerSteps::checker_stop, crate::specs::inside::ClockCheckerSteps::checker_move))]
pub(crate) fn stop(alloc: Global, checker: &mut ClockChecker<'_>, n: u32) -> Result<(), ClockEnd>
    ensures { GivesClockChecker result (checker_stop n checker.old) checker.new }
{
    let ops = stop_ops(alloc, checker)?;
    add_ops(checker, n, &ops)?;
    checker.leave_all(alloc);
    Ok(())
}
