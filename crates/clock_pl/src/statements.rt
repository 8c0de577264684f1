// What the checker of a clock program does at a statement.

ghost use Rattle.std.specs.Prelude.{◌≡◌, ◌+◌, ◌*◌, ◌<◌, ◌≤◌, ◌^◌, ◌++◌, ◌∷◌, [], length, slice_index_or, map, OnOk, IfOk, None, false, ℕ, slice_get};
ghost use Rattle.armus_base.specs.declared.ids.PhaserId.{PhaserId};
ghost use Rattle.pl_plan.specs.Unfolding.{fault, fault_unless, has_cells};
ghost use Rattle.clock_semantics.specs.Unfolding.{as_clock, clock_of};
ghost use Rattle.armus_base.specs.declared.ids.TaskId.{TaskId};
ghost use Rattle.clock_pl.specs.inside.ClockChecker.{current};
ghost use Rattle.clock_pl.specs.inside.ClockCheckerSteps.{GivesClockChecker, clock_viewed, registered_clock, checker_ops, checker_next_clock, checker_next_activity, checker_open, checker_advance, checker_resume, checker_drop, checker_finish, checker_close, checker_visit};

use crate::checker::ClockChecker;
use crate::fault::{
    ClockEnd, ClockFault, NOT_REGISTERED, STILL_PENDING, TOO_MANY_ACTIVITIES, TOO_MANY_CLOCK_CELLS,
    TOO_MANY_CLOCK_OPS, TOO_MANY_CLOCK_VISITS, TOO_MANY_CLOCKS, UNKNOWN_CLOCK,
};
use armus_base::{MAX_CELLS, MAX_OPS, MAX_PHASERS, MAX_TASKS, Offset, Op, PhaserId, TaskId};
use pl_plan::MAX_VISITS;

// The fault of this kind, unless the test holds.
pub(crate) fn fault_unless(holds: bool, kind: u8, n: u32) -> Result<(), ClockFault>
    ensures { clock_viewed (λ u. u) result ≡ fault_unless holds kind n }
{
    if holds {
        Ok(())
    } else {
        Err(ClockFault { kind, statement: n })
    }
}

// A visit, or its fault.
#[tactic(auto, unfolding(crate::specs::inside::ClockCheckerSteps::checker_visit))]
pub(crate) fn count_visit(checker: &mut ClockChecker<'_>, n: u32) -> Result<(), ClockEnd>
    ensures { GivesClockChecker result (checker_visit n checker.old) checker.new }
{
    fault_unless(checker.visits() < MAX_VISITS, TOO_MANY_CLOCK_VISITS, n)?;
    checker.count_visit();
    Ok(())
}

// The clock of this name.
fn known_clock(checker: &ClockChecker<'_>, n: u32, x: &[u8]) -> Result<PhaserId, ClockFault>
    ensures { clock_viewed (λ (p : PhaserId). p.0) result ≡ as_clock n ((current checker.now).names x.now) }
{
    match checker.clock(x) {
        None => Err(ClockFault {
            kind: UNKNOWN_CLOCK,
            statement: n,
        }),
        Some(p) => Ok(p),
    }
}

// The clock of this name, on which the activity is registered.
pub(crate) fn registered_clock(
    checker: &ClockChecker<'_>,
    n: u32,
    x: &[u8],
) -> Result<PhaserId, ClockFault>
    ensures { clock_viewed (λ (p : PhaserId). p.0) result ≡ registered_clock n x.now (current checker.now) }
{
    let p = known_clock(checker, n, x)?;
    fault_unless(checker.is_registered(p), NOT_REGISTERED, n)?;
    Ok(p)
}

// The clock of this name, on which the activity is registered, and which is not pending if it is wanted idle.
#[tactic(auto, unfolding(clock_semantics::specs::Unfolding::clock_of))]
fn clock_of(
    checker: &ClockChecker<'_>,
    wants_idle: bool,
    n: u32,
    x: &[u8],
) -> Result<PhaserId, ClockFault>
    ensures { clock_viewed (λ (p : PhaserId). p.0) result ≡ clock_of wants_idle n [] x.now (current checker.now) }
{
    let p = registered_clock(checker, n, x)?;
    fault_unless(!(wants_idle && checker.is_pending(p)), STILL_PENDING, n)?;
    Ok(p)
}

// Ops behind those of the activity, or the fault that there are too many.
#[tactic(auto, unfolding(crate::specs::inside::ClockCheckerSteps::checker_ops))]
pub(crate) fn add_ops(checker: &mut ClockChecker<'_>, n: u32, ops: &[Op]) -> Result<(), ClockEnd>
    ensures { GivesClockChecker result (checker_ops n ops.now checker.old) checker.new }
{
    let room = (MAX_OPS - checker.ops()) as usize;
    fault_unless(ops.len() <= room, TOO_MANY_CLOCK_OPS, n)?;
    checker.push_ops(ops)?;
    Ok(())
}

// Whether there is room for the cells of so many activities, and clocks and finishes.
fn has_cells(activities: u32, clocks: u32) -> bool
    requires few { activities ≤ MAX_TASKS }
    requires few_clocks { clocks ≤ MAX_PHASERS }
    ensures { result ≡ has_cells activities clocks }
{
    activities * (clocks + 1) <= MAX_CELLS
}

// The number of a clock or finish more, or the fault that there are too many.
#[tactic(auto, unfolding(crate::specs::inside::ClockCheckerSteps::checker_next_clock))]
fn next_clock(checker: &ClockChecker<'_>, n: u32) -> Result<PhaserId, ClockFault>
    ensures exact { clock_viewed (λ (p : PhaserId). p.0) result ≡ checker_next_clock n checker.now }
    ensures few { OnOk result (length checker.now.makers < MAX_PHASERS) }
{
    let p = checker.clocks();
    fault_unless(p < MAX_PHASERS, TOO_MANY_CLOCKS, n)?;
    let cells = has_cells(checker.activities(), p + 1);
    fault_unless(cells, TOO_MANY_CLOCK_CELLS, n)?;
    Ok(PhaserId(p))
}

// The number of an activity more, or the fault that there are too many.
#[tactic(auto, unfolding(crate::specs::inside::ClockCheckerSteps::checker_next_activity))]
pub(crate) fn next_activity(checker: &ClockChecker<'_>, n: u32) -> Result<TaskId, ClockFault>
    ensures exact { clock_viewed (λ (c : TaskId). c.0) result ≡ checker_next_activity n checker.now }
    ensures few { OnOk result (length checker.now.parents < MAX_TASKS) }
{
    let c = checker.activities();
    fault_unless(c < MAX_TASKS, TOO_MANY_ACTIVITIES, n)?;
    let cells = has_cells(c + 1, checker.clocks());
    fault_unless(cells, TOO_MANY_CLOCK_CELLS, n)?;
    Ok(TaskId(c))
}

// `clock x;`
#[tactic(auto, unfolding(crate::specs::inside::ClockCheckerSteps::checker_open, crate::specs::inside::ClockCheckerSteps::checker_move))]
pub(crate) fn open<'p>(checker: &mut ClockChecker<'p>, n: u32, x: &'p [u8]) -> Result<(), ClockEnd>
    ensures { GivesClockChecker result (checker_open n x.now checker.old) checker.new }
{
    let p = next_clock(checker, n)?;
    checker.push_maker()?;
    checker.name(x, p)?;
    add_ops(checker, n, &[Op::Make { p }])?;
    checker.register(p, true)?;
    Ok(())
}

// `advance(x);`
#[tactic(auto, unfolding(crate::specs::inside::ClockCheckerSteps::checker_advance, crate::specs::inside::ClockCheckerSteps::checker_move))]
pub(crate) fn advance(checker: &mut ClockChecker<'_>, n: u32, x: &[u8]) -> Result<(), ClockEnd>
    ensures { GivesClockChecker result (checker_advance n x.now checker.old) checker.new }
{
    let p = clock_of(checker, false, n, x)?;
    let off = Offset::Here;
    if checker.is_pending(p) {
        add_ops(checker, n, &[Op::Await { p, off }])?;
    } else {
        add_ops(checker, n, &[Op::Adv { p }, Op::Await { p, off }])?;
    }
    checker.set_pending(p, false)?;
    Ok(())
}

// `resume(x);`
#[tactic(auto, unfolding(crate::specs::inside::ClockCheckerSteps::checker_resume, crate::specs::inside::ClockCheckerSteps::checker_move))]
pub(crate) fn resume(checker: &mut ClockChecker<'_>, n: u32, x: &[u8]) -> Result<(), ClockEnd>
    ensures { GivesClockChecker result (checker_resume n x.now checker.old) checker.new }
{
    let p = clock_of(checker, true, n, x)?;
    add_ops(checker, n, &[Op::Adv { p }])?;
    checker.set_pending(p, true)?;
    Ok(())
}

// `drop(x);`
#[tactic(auto, unfolding(crate::specs::inside::ClockCheckerSteps::checker_drop, crate::specs::inside::ClockCheckerSteps::checker_move))]
pub(crate) fn leave(checker: &mut ClockChecker<'_>, n: u32, x: &[u8]) -> Result<(), ClockEnd>
    ensures { GivesClockChecker result (checker_drop n x.now checker.old) checker.new }
{
    let p = clock_of(checker, false, n, x)?;
    add_ops(checker, n, &[Op::Drop { p }])?;
    checker.register(p, false)?;
    checker.set_pending(p, false)?;
    Ok(())
}

// `finish {`
#[tactic(auto, unfolding(crate::specs::inside::ClockCheckerSteps::checker_finish, crate::specs::inside::ClockCheckerSteps::checker_move))]
pub(crate) fn begin_finish(checker: &mut ClockChecker<'_>, n: u32) -> Result<(), ClockEnd>
    ensures { GivesClockChecker result (checker_finish n checker.old) checker.new }
{
    let p = next_clock(checker, n)?;
    checker.push_maker()?;
    checker.begin_finish(p)?;
    add_ops(checker, n, &[Op::Make { p }])?;
    checker.register(p, true)?;
    Ok(())
}

// `}` of the innermost finish.
#[tactic(auto, unfolding(crate::specs::inside::ClockCheckerSteps::checker_close, crate::specs::inside::ClockCheckerSteps::checker_move))]
pub(crate) fn end_finish(checker: &mut ClockChecker<'_>, n: u32) -> Result<(), ClockEnd>
    ensures { GivesClockChecker result (checker_close n checker.old.known.governing checker.old) checker.new }
{
    let Some(p) = checker.end_finish() else {
        return Ok(());
    };
    let off = Offset::Here;
    add_ops(
        checker,
        n,
        &[Op::Adv { p }, Op::Await { p, off }, Op::Drop { p }],
    )?;
    checker.register(p, false)?;
    checker.set_pending(p, false)?;
    Ok(())
}
