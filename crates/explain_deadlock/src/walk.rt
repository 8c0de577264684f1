// The walk along the nexts.
ghost use Rattle.explain_tasks.specs.Facts.{is_deadlocked, is_waiting, situation_of, tasks_that};
ghost use Rattle.explain_deadlock.specs.Verdicts.{IsVerdict, IsVerdictFrom, HasFollower, walk_start};
ghost use Rattle.explain_tasks.specs.calls.Fitting.{FactsFitPlan};
ghost use Rattle.explain_deadlock.specs.inside.Fitting.{WaitForSome};
ghost use Rattle.explain_deadlock.specs.inside.Searches.{HasCircle};
ghost use Rattle.std.specs.Prelude.{◌≡◌, ◌<◌, IfOk, Some, true, length, slice_get};
ghost use Rattle.explain_deadlock.specs.inside.WalkEnds.{ShowsFirst, WalkEndsIn};
ghost use Rattle.pl_core.specs.calls.Worlds.{state_of};

use crate::circle::first_circle;
use crate::outcome::WaitVerdict;
use armus_base::{List, NoMemory, TaskId};
use explain_tasks::{Facts, first_or, is_deadlocked, is_waiting, least_below};
use pl_core::World;

// The verdict where a walk closes in a task.
fn circle_of(facts: &Facts, world: &World, t: TaskId) -> Result<WaitVerdict, NoMemory>
    requires fits { FactsFitPlan facts.now world.now.plan }
    requires inside { t.0 < length world.now.plan.parents }
    requires circle { HasCircle (HasFollower facts.now (state_of world.now).phases) t }
    ensures { IfOk result (ShowsFirst (HasFollower facts.now (state_of world.now).phases) t) }
{
    let circle = first_circle(facts, world, t)?;
    Ok(WaitVerdict::Circle(List::from_vec(circle)))
}

// What a walk shows that comes to its end in a task, from the task before it.
fn chain_of(path: &[TaskId], t: TaskId) -> WaitVerdict
    requires { 0 < length path.now }
    ensures { WalkEndsIn path.now t result }
{
    WaitVerdict::Chain(path[path.len() - 1], t)
}

/// The least deadlocked task.
pub(crate) fn least_dead(facts: &Facts) -> Option<TaskId>
    ensures { result ≡ slice_get (tasks_that is_deadlocked facts.now) 0 }
{
    least_below(facts.count(), |t| is_deadlocked(facts.situation(t)))
}

// The least task that waits.
fn least_waiting(facts: &Facts) -> Option<TaskId>
    ensures { result ≡ slice_get (tasks_that is_waiting facts.now) 0 }
{
    least_below(facts.count(), |t| is_waiting(facts.situation(t)))
}

// The task with which the walk begins.
fn start(facts: &Facts) -> Option<TaskId>
    ensures { result ≡ walk_start facts.now }
{
    first_or(least_dead(facts), least_waiting(facts))
}

// What the walk from a task that waits shows.
fn walk_from(facts: &Facts, world: &World, start: TaskId) -> Result<WaitVerdict, NoMemory>
    requires fits { FactsFitPlan facts.now world.now.plan }
    requires wait { WaitForSome facts.now (state_of world.now).phases }
    requires inside { start.0 < length world.now.plan.parents }
    requires waits { is_waiting (situation_of facts.now start.0) ≡ true }
    ensures { IfOk result (IsVerdictFrom facts.now (state_of world.now).phases (Some start)) }
{
    let mut seen = vec![in facts.alloc(); false; world.plan().tasks() as usize]?;
    let mut path: Vec<TaskId> = Vec::new(facts.alloc());
    let mut t = start;
    'walk: while !seen[t.0 as usize] {
        let next = match facts.next(world, t)? {
            Some(next) => next,
            None => return Ok(chain_of(&path, t)),
        };
        seen[t.0 as usize] = true;
        path.push(t)?;
        t = next;
    }
    circle_of(facts, world, t)
}

/// The verdict.
pub(crate) fn verdict_of(facts: &Facts, world: &World) -> Result<WaitVerdict, NoMemory>
    requires fits { FactsFitPlan facts.now world.now.plan }
    requires wait { WaitForSome facts.now (state_of world.now).phases }
    ensures { IfOk result (IsVerdict facts.now (state_of world.now).phases) }
{
    match start(facts) {
        Some(start) => walk_from(facts, world, start),
        None => Ok(WaitVerdict::Nobody),
    }
}
