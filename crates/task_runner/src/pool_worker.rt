// A worker of a run without rounds.
ghost use Rattle.std.specs.Prelude.{◌≡◌, ◌<◌, IfOk, IfSome, length};
ghost use Rattle.board_runs.specs.calls.TaskSeats.{own_number};
ghost use Rattle.slot_pool.specs.calls.PoolValues.{IsOfPool};
ghost use Rattle.task_runner.specs.inside.Pooled.{KeepsWhatItHas, IsIdleWorker};

use crate::leaving::are_many;
use crate::pooled_task::{BoardName, PooledTask};
use armus_base::{NoMemory, Plan, TaskId};
use avoider::Judging;
use board_runs::{Calls, Pause, TurnSetting, WorkerCells};
use slot_pool::{Claim, Named, Pool, Worker};
use std::alloc::Global;
use std::marker::Model;
use std::sync::Wait;
use std::thread::yield_now;

/// A worker of a pool of such records. Workers side by side are proved for any type of them: what threads answer is known only where the type of a worker
/// names no lifetime, or is a parameter.
pub(crate) trait WorksOnPool<Q: Named> {
    ghost use Rattle.board.specs.calls.Seats.{Frame};
    ghost use Rattle.slot_pool.specs.calls.PoolValues.{WorkerValue};

    // The board of the records.
    ghost frame: { Frame };

    // The worker as contracts see it.
    ghost worker_value: { Self → WorkerValue };

    /// Sweeps over the pool until a sweep in which it made no event and found no record with another worker, or until the board costs too much, or until it
    /// meets want of memory. The gate is called before each op.
    fn work<R: Wait, C: Calls>(&mut self, setting: &TurnSetting<'_, R, C>, pool: &Pool<Q>)
        requires board { setting.now.board.now ≡ frame }
        requires ready { IsIdleWorker frame pool.now (worker_value self.old) }
        ensures { KeepsWhatItHas (worker_value self.old) (worker_value self.new) };
}

/// What a worker found at one or several tasks; the greatest of what it found at each is what it found at all.
#[derive(Clone, Copy, PartialEq, Eq, PartialOrd, Ord)]
enum Sweep {
    /// No event happened, and no other worker had a task.
    Quiet,
    /// No event happened, and another worker had a task.
    Held,
    /// An event happened.
    Moved,
}

/// A worker of a pool of tasks. Contracts see it as the pool's worker.
#[derive(Drop)]
pub(crate) struct PoolWorker<'p, N: BoardName> {
    worker: Worker<PooledTask<'p, N>>,
    // of the board
    plan: &'p Plan,
    // how many workers the pool has
    workers: u64,
    cells: WorkerCells,
    // the tasks that were handed back to it
    returned: Vec<PooledTask<'p, N>>,
    // whether it met want of memory
    wants_memory: bool,
}

impl<'p, N: BoardName> Model for PoolWorker<'p, N> {
    ghost use Rattle.std.specs.Prelude.{◌≡◌};
    ghost use Rattle.slot_pool.specs.calls.PoolValues.{WorkerValue};

    ghost Value = { WorkerValue };

    ghost view = { λ w. w.worker };

    ghost invariant = { λ w. N.board.plan ≡ w.plan.now };
}

impl<'p, N: BoardName> WorksOnPool<PooledTask<'p, N>> for PoolWorker<'p, N> {
    ghost frame = { N.board };

    ghost worker_value = { λ worker. worker };

    fn work<R: Wait, C: Calls>(
        &mut self,
        setting: &TurnSetting<'_, R, C>,
        pool: &Pool<PooledTask<'p, N>>,
    ) {
        for _ in setting.rt.forever() {
            if !self.go_on(setting, pool) {
                return;
            }
        }
    }
}

impl<'p, N: BoardName> PoolWorker<'p, N> {
    /// One of so many workers, which has made no turn.
    pub(crate) fn new(
        alloc: Global,
        worker: Worker<PooledTask<'p, N>>,
        plan: &'p Plan,
        workers: u64,
        judging: Judging,
    ) -> PoolWorker<'p, N>
        requires plan { N.board.plan ≡ plan.now }
        ensures { result ≡ worker.entry }
    {
        PoolWorker {
            worker,
            plan,
            workers,
            cells: WorkerCells::new(judging),
            returned: Vec::new(alloc),
            wants_memory: false,
        }
    }

    // One sweep; answers whether another one is to come.
    fn go_on<R, C: Calls>(
        &mut self,
        setting: &TurnSetting<'_, R, C>,
        pool: &Pool<PooledTask<'p, N>>,
    ) -> bool
        requires board { setting.now.board.now ≡ N.board }
        requires ready { IsIdleWorker N.board pool.now self.old }
        ensures { KeepsWhatItHas self.old self.new }
    {
        match self.sweep(setting, pool) {
            Ok(Sweep::Moved) => !self.costs_too_much(),
            Ok(Sweep::Held) => {
                yield_now();
                !self.costs_too_much()
            }
            Ok(Sweep::Quiet) => false,
            Err(NoMemory) => {
                self.wants_memory = true;
                false
            }
        }
    }

    // Whether the board costs too much: the awaits of all workers, if each has loaded as many words as this one.
    fn costs_too_much(&self) -> bool {
        are_many(self.cells.loads_for_awaits().saturating_mul(self.workers))
    }

    // Visits each task, in order of number.
    fn sweep<R, C: Calls>(
        &mut self,
        setting: &TurnSetting<'_, R, C>,
        pool: &Pool<PooledTask<'p, N>>,
    ) -> Result<Sweep, NoMemory>
        requires board { setting.now.board.now ≡ N.board }
        requires ready { IsIdleWorker N.board pool.now self.old }
        ensures { KeepsWhatItHas self.old self.new }
    {
        let mut found = Sweep::Quiet;
        for t in 0..setting.board.tasks() {
            let here = self.visit(setting, pool, TaskId(t))?;
            found = found.max(here);
        }
        Ok(found)
    }

    // Claims a task, gives it one turn, and puts it back.
    fn visit<R, C: Calls>(
        &mut self,
        setting: &TurnSetting<'_, R, C>,
        pool: &Pool<PooledTask<'p, N>>,
        t: TaskId,
    ) -> Result<Sweep, NoMemory>
        requires board { setting.now.board.now ≡ N.board }
        requires task { t.0 < length N.board.plan.parents }
        requires ready { IsIdleWorker N.board pool.now self.old }
        ensures { KeepsWhatItHas self.old self.new }
    {
        match self.worker.claim(pool, t) {
            Claim::Empty => Ok(Sweep::Quiet),
            Claim::Held { by: _ } => Ok(Sweep::Held),
            Claim::Got(mut task) => {
                let turned = self.turn(setting, pool, &mut task);
                self.worker.put(pool, task);
                turned
            }
        }
    }

    // One turn of a task; each task that it forks is placed at once.
    fn turn<R, C: Calls>(
        &mut self,
        setting: &TurnSetting<'_, R, C>,
        pool: &Pool<PooledTask<'p, N>>,
        task: &mut PooledTask<'p, N>,
    ) -> Result<Sweep, NoMemory>
        requires board { setting.now.board.now ≡ N.board }
        requires tasks { pool.now.tasks ≡ length N.board.plan.parents }
        requires made { IsOfPool self.old pool.now }
        ensures goes_on { KeepsWhatItHas self.old self.new }
        ensures task { own_number task.new ≡ own_number task.old }
    {
        let mut found = Sweep::Quiet;
        for _ in 0..u64::MAX {
            let (acted, child) = task.act(setting, self.plan, &mut self.cells)?;
            if acted.actions > 0 {
                found = Sweep::Moved;
            }
            self.place(pool, child)?;
            match acted.pause {
                Pause::Forked => {}
                Pause::TurnOver => return Ok(found),
            }
        }
        Ok(found)
    }

    // Places a task that was just forked, if one was, or keeps it where it is handed back.
    fn place(
        &mut self,
        pool: &Pool<PooledTask<'p, N>>,
        child: Option<PooledTask<'p, N>>,
    ) -> Result<(), NoMemory>
        requires made { IsOfPool self.old pool.now }
        requires within { IfSome child (λ child. own_number child < pool.now.tasks) }
        ensures { KeepsWhatItHas self.old self.new }
    {
        let Some(child) = child else {
            return Ok(());
        };
        match self.worker.place(pool, child) {
            Ok(()) => Ok(()),
            Err(task) => {
                self.returned.push(task)?;
                Ok(())
            }
        }
    }

    /// The pool's worker, and the tasks that were handed back to it. `NoMemory` where it met want of memory.
    pub(crate) fn into_parts(
        self,
    ) -> Result<(Worker<PooledTask<'p, N>>, Vec<PooledTask<'p, N>>), NoMemory>
        ensures { IfOk result (λ r. r.0 ≡ self.entry) }
    {
        if self.wants_memory {
            return Err(NoMemory);
        }
        Ok((self.worker, self.returned))
    }
}
