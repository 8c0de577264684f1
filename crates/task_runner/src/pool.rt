// A run without rounds: workers claim the tasks from a pool.
ghost use Rattle.std.specs.Prelude.{◌≡◌, ◌≤◌, Some, None, false, length, map, All, IfOk};
ghost use Rattle.armus_base.specs.calls.Seats.{seen_by_child};
ghost use Rattle.armus_base.specs.calls.Limits.{max_workers};
ghost use Rattle.board.specs.declared.mode.Mode.TheVariants.{Detect};
ghost use Rattle.board.specs.calls.Seats.{IsNewSeat, nothing_seen};
ghost use Rattle.world_runs.specs.calls.PlainRuns.{IsPlainEnd};
ghost use Rattle.task_runner.specs.inside.Pooled.{AreAllWorkers, KeepsWhatItHas, IsPooled, IsIdleWorker};

use crate::RunOptions;
use crate::leaving::MANY_LOADS;
use crate::pool_end::end_run;
use crate::pool_worker::{PoolWorker, WorksOnPool};
use crate::pooled_task::{BoardName, PooledTask};
use armus_base::{Final, Gate, List, NoMemory, Plan};
use avoider::Judging;
use board::{Board, Mode, TaskSeat, ViewSeat};
use board_runs::{Calls, Task, TurnSetting};
use slot_pool::{Named, Pool, Worker};
use std::alloc::Global;
use std::marker::Brand;
use std::sync::Wait;
use std::thread;
use std::thread::Threads;

/// Runs the plan on a board that detects deadlock, without rounds: each worker that is free claims the next task that no other has, gives it one turn, and
/// puts it back, until a sweep over all tasks in which it made no event and found no task with another worker, or until the board costs too much. A task that
/// is forked can be claimed at once. Then one viewer takes all seats in, a detector makes one pass, and the board is closed; from the places at which the tasks
/// stood the run goes on in one thread until no task may go on. The gate is called before each op. Workers may go on for each other: the call may wait, and
/// what it answers holds if it returns. `NoMemory` comes where memory was wanting, for the call or for one of its workers.
pub fn run_pool<R: Threads + Wait + Sync, G: Gate>(
    rt: &R,
    alloc: Global,
    plan: &Plan,
    options: &RunOptions,
    gate: &G,
) -> Result<Final, NoMemory>
    requires workers { 1 ≤ options.now.workers × options.now.workers ≤ max_workers }
    requires quiet { options.now.live ≡ false }
    ensures end { IfOk result (λ end. IsPlainEnd plan.now end) }
{
    let (board, seat, view) = Board::start(alloc, plan, Mode::Detect)?;
    let run = PoolRun {
        alloc,
        plan,
        options: *options,
        board,
        view,
    };
    run_on::<Brand, R, G>(rt, run, seat, gate)
}

/// A run without rounds, but for its workers.
#[derive(Drop)]
pub(crate) struct PoolRun<'p> {
    pub(crate) alloc: Global,
    pub(crate) plan: &'p Plan,
    pub(crate) options: RunOptions,
    pub(crate) board: Board,
    pub(crate) view: ViewSeat,
}

// The run on the board that N names, which has just started.
fn run_on<N: BoardName + Send, R: Threads + Wait + Sync, G: Gate>(
    rt: &R,
    run: PoolRun<'_>,
    seat: TaskSeat,
    gate: &G,
) -> Result<Final, NoMemory>
    requires workers { 1 ≤ run.options.workers × run.options.workers ≤ max_workers }
    requires board { (run.board ≡ N.board) × (N.board.plan ≡ run.plan.now) × (N.board.mode ≡ Detect) }
    requires seat { IsNewSeat N.board (Some 0) (seen_by_child 0 nothing_seen) seat }
    requires viewer { IsNewSeat N.board None nothing_seen run.view }
    ensures end { IfOk result (λ end. IsPlainEnd run.entry.plan.now end) }
{
    let (alloc, plan) = (run.alloc, run.plan);
    let first: PooledTask<'_, N> = PooledTask::new(alloc, seat, plan);
    let count = u32::from(run.options.workers);
    let Ok((pool, workers)) = Pool::start(alloc, plan.tasks(), count, first) else {
        return Err(NoMemory);
    };
    let judging = Judging::Graph(run.options.wanted);
    let workers = engage(alloc, plan, workers.into_vec(), judging)?;
    let setting = TurnSetting {
        rt,
        alloc,
        board: &run.board,
        gate,
        bound: MANY_LOADS,
    };
    let workers = work_all(&setting, &pool, workers)?;
    let mut tasks = Vec::new(alloc);
    let workers = dismiss(alloc, workers, &mut tasks)?;
    let entries = pool.close(workers).into_vec();
    take_out(entries, &mut tasks)?;
    end_run(run, gate, tasks_of(alloc, tasks)?)
}

// Workers that have made no turn yet.
fn engage<'p, N: BoardName>(
    alloc: Global,
    plan: &'p Plan,
    workers: Vec<Worker<PooledTask<'p, N>>>,
    judging: Judging,
) -> Result<Vec<PoolWorker<'p, N>>, NoMemory>
    requires plan { N.board.plan ≡ plan.now }
    ensures { IfOk result (λ v. v.items ≡ workers.entry.items) }
{
    let count = workers.len() as u64;
    let mut engaged = Vec::new(alloc);
    for worker in workers {
        engaged.push(PoolWorker::new(alloc, worker, plan, count, judging))?;
    }
    Ok(engaged)
}

// All workers at once, until each has come to its end.
fn work_all<
    Q: Named + Send,
    J: WorksOnPool<Q> + Send + Drop,
    R: Threads + Wait + Sync,
    C: Calls + Sync,
>(setting: &TurnSetting<'_, R, C>, pool: &Pool<Q>, workers: Vec<J>) -> Result<Vec<J>, NoMemory>
    requires board { setting.now.board.now ≡ J.frame }
    requires tasks { pool.now.tasks ≡ length J.frame.plan.parents }
    requires workers { AreAllWorkers pool.now (map J.worker_value workers.items) }
    ensures workers { IfOk result (λ v. AreAllWorkers pool.now (map J.worker_value v.items)) }
{
    let work = |worker: J| -> J
        requires { (setting.now.board.now ≡ J.frame) × IsIdleWorker J.frame pool.now (J.worker_value worker) }
        ensures { KeepsWhatItHas (J.worker_value worker) (J.worker_value result) }
    {
        let mut worker = worker;
        worker.work(setting, pool);
        worker
    };
    let done = thread::map_vec(setting.rt, workers, &work)?;
    Ok(done)
}

// The pool's workers alone; the tasks that were handed back to them stand among the others. `NoMemory` where one of them met want of memory.
fn dismiss<'p, N: BoardName>(
    alloc: Global,
    workers: Vec<PoolWorker<'p, N>>,
    tasks: &mut Vec<PooledTask<'p, N>>,
) -> Result<List<Worker<PooledTask<'p, N>>>, NoMemory>
    ensures { IfOk result (λ list. list ≡ workers.entry.items) }
{
    let mut dismissed = Vec::new(alloc);
    for worker in workers {
        let (worker, mut returned) = worker.into_parts()?;
        dismissed.push(worker)?;
        tasks.append(&mut returned)?;
    }
    Ok(List::from_vec(dismissed))
}

// The tasks that were in a pool stand among the others.
fn take_out<'p, N: BoardName>(
    entries: Vec<Option<PooledTask<'p, N>>>,
    tasks: &mut Vec<PooledTask<'p, N>>,
) -> Result<(), NoMemory> {
    for entry in entries {
        if let Some(task) = entry {
            tasks.push(task)?;
        }
    }
    Ok(())
}

// These tasks, without the name of their board.
fn tasks_of<'p, N: BoardName>(
    alloc: Global,
    pooled: Vec<PooledTask<'p, N>>,
) -> Result<Vec<Task<'p>>, NoMemory>
    ensures { IfOk result (λ tasks. All (IsPooled N.board) tasks.items) }
{
    let mut tasks = Vec::new(alloc);
    for task in pooled {
        tasks.push(task.into_task())?;
    }
    Ok(tasks)
}
