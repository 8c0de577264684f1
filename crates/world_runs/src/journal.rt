// The recorded run.
ghost use Rattle.std.specs.Prelude.{◌≡◌, ◌≤◌, ◌<◌, ℕ, IfOk, false, true, length};
ghost use Rattle.std.specs.Thread.{IsSync};
ghost use Rattle.armus_base.specs.calls.Limits.{max_workers};
ghost use Rattle.pl_core.specs.calls.Stands.{IsEnabled};
ghost use Rattle.world_runs.specs.calls.RecordedRuns.{IsRecordedRun};
ghost use Rattle.world_runs.specs.inside.Turns.{left_in};

use crate::journal_turns::go_in_order;
use crate::live_task::LiveTask;
use crate::{RoundWorkers, RunOptions};
use armus_base::{Final, Gate, List, NoMemory, Plan, TaskId};
use locked_world::{LockedWorld, Logged, PlanName};
use std::alloc::Global;
use std::marker::Brand;
use std::sync::Wait;
use std::thread::{Threads, join_mut};

/// Runs the plan by rounds of turns over a world under a lock, and answers the final state and the journal: the journal is that of a maximal plain run
/// of the plan, and the final state is the end of that run. The workers call the gate before each op, outside the lock; no clause speaks of rounds,
/// workers and gate. The run may wait for the lock; what it answers holds if it returns.
pub fn run_journal<R: Threads + Wait + Sync, G: Gate>(
    rt: &R,
    alloc: Global,
    plan: &Plan,
    options: &RunOptions,
    gate: &G,
) -> Result<(Final, List<TaskId>), NoMemory>
    requires workers { 1 ≤ options.now.workers × options.now.workers ≤ max_workers }
    requires not_live { options.now.live ≡ false }
    ensures recorded { IfOk result (λ run. IsRecordedRun plan.now run.0 run.1) }
{
    run_named::<Brand, R, G>(rt, alloc, plan, options.workers, gate)
}

// The recorded run of the plan that N names.
fn run_named<N: PlanName, R: Threads + Wait + Sync, G: Gate>(
    rt: &R,
    alloc: Global,
    plan: &Plan,
    workers: u8,
    gate: &G,
) -> Result<(Final, List<TaskId>), NoMemory>
    requires plan { plan.now ≡ N.plan }
    ensures recorded { IfOk result (λ run. IsRecordedRun plan.now run.0 run.1) }
{
    let shared: LockedWorld<'_, N> = LockedWorld::start(alloc, plan)?;
    go_by_rounds(rt, alloc, &shared, plan, workers, gate)?;
    let mut logged = shared.into_logged();
    go_in_order(alloc, &mut logged, gate)?;
    finish(alloc, logged)
}

// Rounds of turns of several workers, until one has work for one worker alone, or nobody makes a step: each other round makes one, and a plan has at most two
// for each op.
fn go_by_rounds<N: PlanName, R: Threads + Wait + Sync, G: Gate>(
    rt: &R,
    alloc: Global,
    shared: &LockedWorld<'_, N>,
    plan: &Plan,
    workers: u8,
    gate: &G,
) -> Result<(), NoMemory>
    requires plan { plan.now ≡ N.plan }
{
    let mut tasks = Vec::new(alloc);
    let _tasks = plan.tasks();
    tasks.push(LiveTask::new(TaskId(0), plan))?;
    let mut round_workers = RoundWorkers::new();
    for _ in 0..=u64::from(plan.ops()) * 2 {
        let some = round_workers.workers(workers);
        if some < 2 {
            break;
        }
        take_turns(rt, shared, gate, some, tasks.as_mut_slice())?;
        let made = steps_of(tasks.as_slice());
        if made == 0 {
            break;
        }
        round_workers.note(made);
        let mut children = forked_by(alloc, plan, tasks.as_mut_slice())?;
        tasks.retain(|task| !task.is_done());
        if !children.is_empty() {
            tasks.append(&mut children)?;
            tasks.sort_by_key(|task| task.id().0)?;
        }
    }
    Ok(())
}

// How many ops these tasks went on in their last turns, a begun await counted as one.
fn steps_of<N: PlanName>(tasks: &[LiveTask<'_, N>]) -> u32 {
    let mut made = 0u32;
    for task in tasks {
        made = made.saturating_add(task.steps());
    }
    made
}

// The tasks that these forked in their last turns.
fn forked_by<'p, N: PlanName>(
    alloc: Global,
    plan: &'p Plan,
    tasks: &mut [LiveTask<'p, N>],
) -> Result<Vec<LiveTask<'p, N>>, NoMemory>
    requires plan { plan.now ≡ N.plan }
{
    let mut children = Vec::new(alloc);
    for task in tasks.iter_mut() {
        task.take_children(plan, &mut children)?;
    }
    Ok(children)
}

// One turn of each of these tasks. With several workers the list is split into halves, which take their turns side by side, each with half of the
// workers; with one worker turns are taken in order.
fn take_turns<N: PlanName, R: Threads + Wait + Sync, G: Gate>(
    rt: &R,
    shared: &LockedWorld<'_, N>,
    gate: &G,
    workers: u8,
    tasks: &mut [LiveTask<'_, N>],
) -> Result<(), NoMemory> {
    if workers < 2 || tasks.len() < 2 {
        return take_turns_in_order(rt, shared, gate, tasks);
    }
    let few = workers / 2;
    let rest = workers - few;
    let (front, back) = tasks.split_at_mut(tasks.len() / 2);
    let (first, second) = join_mut(
        rt,
        &mut || -> Result<(), NoMemory>
            requires { IsSync R.row }
        { take_turns(rt, shared, gate, few, front) },
        &mut || -> Result<(), NoMemory>
            requires { IsSync R.row }
        { take_turns(rt, shared, gate, rest, back) },
    );
    first?;
    second
}

// One turn of each of these tasks, in order.
fn take_turns_in_order<N: PlanName, R: Wait, G: Gate>(
    rt: &R,
    shared: &LockedWorld<'_, N>,
    gate: &G,
    tasks: &mut [LiveTask<'_, N>],
) -> Result<(), NoMemory> {
    for task in tasks.iter_mut() {
        task.act(rt, shared, gate)?;
    }
    Ok(())
}

// Makes steps of enabled tasks until none is enabled; answers the final state and the journal.
fn finish<N: PlanName>(
    alloc: Global,
    mut logged: Logged<'_, N>,
) -> Result<(Final, List<TaskId>), NoMemory>
    ensures recorded { IfOk result (λ run. IsRecordedRun N.plan run.0 run.1) }
{
    while step_first_enabled(&mut logged)? {}
    let end = logged.world().finish(alloc)?;
    Ok((end, logged.into_journal()))
}

// Makes a step of the first task that is enabled; answers whether there was one.
fn step_first_enabled<N: PlanName>(logged: &mut Logged<'_, N>) -> Result<bool, NoMemory>
    ensures moved { IfOk result (λ moved. moved ≡ true → left_in logged.new.world < left_in logged.old.world) }
    ensures quiet { IfOk result (λ moved. moved ≡ false → (t : ℕ) → t < length N.plan.parents → IsEnabled logged.new.world t → ⊥) }
{
    for t in 0..logged.world().plan().tasks() {
        if logged.step(TaskId(t))? {
            return Ok(true);
        }
    }
    Ok(false)
}
