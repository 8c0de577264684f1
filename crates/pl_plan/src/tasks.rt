// The tasks, in order of number.

ghost use Rattle.std.specs.Prelude.{◌≡◌, ◌+◌, ◌<◌, ◌≤◌, ◌^◌, length, slice_index_or, OnOk, None, ℕ, List};
ghost use Rattle.pl_plan.specs.inside.Checker.{IsChecker, Keeps};
ghost use Rattle.pl_plan.specs.inside.Shows.{ShowsState, WhereUnfolded};
ghost use Rattle.pl_plan.specs.inside.CheckerSteps.{GivesChecker, checker_leave_below};
ghost use Rattle.pl_plan.specs.Unfolding.{UnfoldingState, unfold_task, unfold_tasks};

use crate::checker::Checker;
use crate::fault::PlanEnd;
use crate::statements::leave_if_member;
use crate::walk::walk;
use armus_base::{MAX_PHASERS, MAX_TASKS, PhaserId, TaskId};
use std::alloc::Global;

// The end of a task in PL 2: it leaves its phasers, in order of number.
fn leave_all(checker: &mut Checker, t: TaskId, n: u32) -> Result<(), PlanEnd>
    requires fits { IsChecker checker.old }
    requires task { t.0 < length checker.old.parents }
    ensures leaves { GivesChecker result (checker_leave_below t.0 n MAX_PHASERS checker.old) checker.new }
    ensures keeps { OnOk result (Keeps checker.old checker.new) }
{
    for p in 0..MAX_PHASERS {
        leave_if_member(checker, t, n, PhaserId(p))?;
    }
    Ok(())
}

// The visits and the end of a task that is forked; another has neither.
fn unfold_task(alloc: Global, checker: &mut Checker, two: bool, t: TaskId) -> Result<(), PlanEnd>
    requires fits { IsChecker checker.old }
    requires small { length checker.old.steps < 2 ^ 32 }
    requires task { t.0 < length checker.old.parents }
    ensures follows { (names : ℕ → List ℕ) (s : UnfoldingState) → ShowsState names checker.old s →
        WhereUnfolded result (unfold_task two t.0 (slice_index_or s.starts t.0 None) s) (ShowsState names checker.new) }
    ensures keeps { OnOk result (Keeps checker.old checker.new) }
{
    let Some((first, after)) = checker.begin(alloc, t)? else {
        return Ok(());
    };
    walk(alloc, checker, t, first, after)?;
    if two {
        leave_all(checker, t, first)?;
    }
    Ok(())
}

// All tasks, those included that are drawn meanwhile.
pub(crate) fn unfold_tasks(alloc: Global, checker: &mut Checker, two: bool) -> Result<(), PlanEnd>
    requires fits { IsChecker checker.old }
    requires small { length checker.old.steps < 2 ^ 32 }
    ensures follows { (names : ℕ → List ℕ) (s : UnfoldingState) → ShowsState names checker.old s →
        WhereUnfolded result (unfold_tasks two MAX_TASKS 0 s) (ShowsState names checker.new) }
    ensures keeps { OnOk result (Keeps checker.old checker.new) }
{
    let mut t = 0;
    while t < checker.tasks() {
        unfold_task(alloc, checker, two, TaskId(t))?;
        t += 1;
    }
    Ok(())
}
