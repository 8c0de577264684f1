// The plan of a clock program.

ghost use Rattle.std.specs.Prelude.{◌≡◌, ◌<◌, ◌≤◌, ◌^◌, [], length, map, IfOk, slice_get, slice_index_or, ℕ};
ghost use Rattle.armus_base.specs.calls.Pieces.{IsFolded};
ghost use Rattle.armus_base.specs.Pieces.{straight};
ghost use Rattle.clock_syntax.specs.Trees.{clock_count};
ghost use Rattle.clock_semantics.specs.Unfolding.{clock_plan_of};
ghost use Rattle.clock_pl.specs.calls.ClockPlanning.{GivesClockPlan};
ghost use Rattle.clock_pl.specs.inside.ClockCheckerSteps.{GivesClockChecker, checker_activities, checker_started};

use crate::activities::stop;
use crate::checker::{ClockChecker, Lists};
use crate::fault::ClockEnd;
use crate::walk::walk_body;
use armus_base::{Code, List, MAX_TASKS, NoMemory, Op, Plan};
use clock_syntax::ClockProgram;
use pl_plan::push_each;
use std::alloc::Global;

// Activity `t`, from its start to its end.
fn unfold_activity(alloc: Global, checker: &mut ClockChecker<'_>, t: u32) -> Result<(), ClockEnd>
    requires { t < length checker.old.starts }
    ensures { GivesClockChecker result (checker_started t (slice_get checker.old.starts t) checker.old) checker.new }
{
    let (body, before) = checker.begin(alloc, t)?;
    walk_body(alloc, checker, before, body)?;
    stop(alloc, checker, before)
}

// All activities, those included that are started meanwhile.
fn unfold_activities(alloc: Global, checker: &mut ClockChecker<'_>) -> Result<(), ClockEnd>
    ensures { GivesClockChecker result (checker_activities MAX_TASKS 0 checker.old) checker.new }
{
    let mut t = 0;
    while t < checker.started() {
        unfold_activity(alloc, checker, t)?;
        t += 1;
    }
    Ok(())
}

// The code of these ops.
fn code_of(alloc: Global, ops: &[Op]) -> Result<Code, NoMemory>
    requires { IsFolded (straight ops.now) }
    ensures { IfOk result (λ code. code ≡ straight ops.now) }
{
    let mut pieces = Vec::new(alloc);
    push_each(ops, &mut pieces)?;
    Ok(Code::from_pieces(List::from_vec(pieces)))
}

// The codes of the activities. Each list of ops is let go as soon as it is a code.
fn codes_of(alloc: Global, lists: Vec<List<Op>>) -> Result<List<Code>, NoMemory>
    requires folded { (t : ℕ) → IsFolded (straight (slice_index_or lists.items t [])) }
    ensures codes { IfOk result (λ codes. codes ≡ map straight lists.items) }
{
    let mut codes = List::new(alloc);
    for ops in lists {
        codes.push(code_of(alloc, ops.as_slice())?)?;
    }
    Ok(codes)
}

/// The plan to which a clock program unfolds, or its first fault.
///
/// Activities are unfolded in order of their numbers, from activity 0 with the whole program. `Clock` comes exactly where the unfolding has a fault, with
/// the first one. Each activity is a task, and each clock and each finish is a phaser, with the same numbers; the codes have one piece for each op. The
/// time is near linear in the visits, at most `MAX_VISITS`, and in the names of asyncs. The plan is a checked plan.
pub fn clock_plan(alloc: Global, program: &ClockProgram) -> Result<Plan, ClockEnd>
    requires few { clock_count program.now.body < 2 ^ 32 }
    ensures unfolded { GivesClockPlan result (clock_plan_of program.now.body) }
{
    let mut checker = ClockChecker::new(alloc, &program.body)?;
    unfold_activities(alloc, &mut checker)?;
    let Lists {
        parents,
        makers,
        codes: lists,
    } = checker.into_lists();
    let codes = codes_of(alloc, lists)?;
    Ok(Plan::from_parts(List::from_vec(parents), List::from_vec(makers), codes))
}
