// Two threads step a world of two tasks that wait for each other.
ghost use Rattle.std.specs.Prelude.{◌≡◌, ◌<◌, length};

use crate::plans::named_plan;
use armus_base::{List, NoMemory, Plan, TaskId};
use locked_world::{LockedWorld, Logged, PlanName};
use pl_core::Stand;
use std::alloc::Global;
use std::marker::Brand;
use std::sync::Wait;
use std::test::Fail;
use std::thread::{Threads, join};

// The task that is the program, and the one that it forks.
const ROOT: TaskId = TaskId(0);

const CHILD: TaskId = TaskId(1);

// Up to five steps of a task, each under the lock.
fn step_often<N: PlanName, R: Wait>(
    rt: &R,
    shared: &LockedWorld<'_, N>,
    t: TaskId,
) -> Result<(), NoMemory>
    requires task { t.0 < length N.plan.parents }
{
    for _ in 0..5 {
        shared.lock(rt).step(t)?;
    }
    Ok(())
}

// What two threads logged, one for each task.
fn logged_by_two<'p, N: PlanName, R: Threads + Wait + Sync>(
    rt: &R,
    alloc: Global,
    plan: &'p Plan,
) -> Result<Logged<'p, N>, NoMemory>
    requires plan { plan.now ≡ N.plan }
    requires two { length N.plan.parents ≡ 2 }
{
    let shared: LockedWorld<'p, N> = LockedWorld::start(alloc, plan)?;
    let lent = &shared;
    let (root, child) = join(
        rt,
        move ||
            requires { length N.plan.parents ≡ 2 }
        { step_often(rt, lent, ROOT) },
        move ||
            requires { length N.plan.parents ≡ 2 }
        { step_often(rt, lent, CHILD) },
    );
    if root.is_err() || child.is_err() {
        return Err(NoMemory);
    }
    Ok(shared.into_logged())
}

// Whether the run goes on to its end by nine steps in all, and the child waits there.
fn ends<N: PlanName>(logged: &mut Logged<'_, N>) -> Result<bool, NoMemory>
    requires two { length N.plan.parents ≡ 2 }
{
    for _ in 0..9 {
        logged.step(ROOT)?;
        logged.step(CHILD)?;
    }
    if logged.journal().len() != 9 || logged.step(ROOT)? {
        return Ok(false);
    }
    match logged.world().stand(CHILD) {
        Stand::Waits(_) => Ok(true),
        _ => Ok(false),
    }
}

// The journal of a run to its end, which two threads begin.
fn journal_by_two<N: PlanName, R: Threads + Wait + Sync>(
    rt: &R,
    alloc: Global,
    plan: &Plan,
) -> Result<List<TaskId>, NoMemory>
    requires plan { plan.now ≡ N.plan }
    requires two { length plan.now.parents ≡ 2 }
{
    let mut logged: Logged<'_, N> = logged_by_two(rt, alloc, plan)?;
    if !ends(&mut logged)? {
        return Ok(List::new(alloc));
    }
    Ok(logged.into_journal())
}

// Whether the journal has nine steps, the first five of them by the task that is the program.
fn is_of_nine<R: Threads + Wait + Sync>(
    rt: &R,
    alloc: Global,
    plan: &Plan,
) -> Result<bool, NoMemory> {
    if plan.tasks() != 2 {
        return Ok(false);
    }
    let journal = journal_by_two::<Brand, R>(rt, alloc, plan)?;
    Ok(journal.as_slice().len() == 9 && begins_with(journal.as_slice(), ROOT))
}

// Whether the first five steps are by this task.
fn begins_with(journal: &[TaskId], t: TaskId) -> bool {
    journal.len() >= 5 && journal[..5] == [t, t, t, t, t]
}

#[test]
fn nine_steps(rt: HostRuntime) -> Result<(), Fail> {
    let plan = named_plan(rt.alloc(), "two")?;
    assert!(rt; is_of_nine(&rt, rt.alloc(), &plan)?);
    Ok(())
}
