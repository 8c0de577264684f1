// A task of a run without rounds: what workers claim from a pool.
ghost use Rattle.std.specs.Prelude.{◌≡◌, ◌<◌, All, IfOk, IfSome, length};
ghost use Rattle.armus_base.specs.Runs.{first_place};
ghost use Rattle.board.specs.calls.Views.{own_place, task_of};
ghost use Rattle.board_runs.specs.calls.TaskSeats.{IsTaskSeat, own_number};
ghost use Rattle.task_runner.specs.inside.Pooled.{IsForked, IsPooled};

use armus_base::{NoMemory, Plan, TaskId};
use board::TaskSeat;
use board_runs::{Calls, Stretch, Task, TurnSetting, WorkerCells};
use slot_pool::Named;
use std::alloc::Global;
use std::marker::{Brand, Model, PhantomData};

/// A name of one board, which contracts alone see: the tasks of a pool keep that they are of a run on this board. A caller passes `Brand`, and its proof
/// picks the board.
pub(crate) trait BoardName {
    ghost use Rattle.board.specs.calls.Seats.{Frame};

    // The board.
    ghost board: { Frame };
}

impl BoardName for Brand {
    ghost use Rattle.task_runner.specs.inside.Pooled.{first_board};

    ghost board = { first_board };
}

/// A task of a run on N's board, between two stretches of its turns: it has no child's seat.
#[derive(Drop)]
pub(crate) struct PooledTask<'p, N: BoardName> {
    task: Task<'p>,
    name: PhantomData<N>,
}

impl<'p, N: BoardName> Model for PooledTask<'p, N> {
    ghost use Rattle.board_runs.specs.calls.Turns.{Working};

    ghost Value = { Working };

    ghost use Rattle.task_runner.specs.inside.Pooled.{IsPooled};

    ghost view = { λ t. t.task };

    ghost invariant = { λ t. IsPooled N.board t.task };
}

impl<'p, N: BoardName> Named for PooledTask<'p, N> {
    ghost use Rattle.board.specs.calls.Views.{task_of};

    ghost number = { λ task. task_of task.seat.view };

    fn id(&self) -> TaskId {
        self.task.id()
    }
}

impl<'p, N: BoardName> PooledTask<'p, N> {
    /// The task of a seat that has made no step.
    pub(crate) fn new(alloc: Global, seat: TaskSeat, plan: &'p Plan) -> PooledTask<'p, N>
        requires plan { N.board.plan ≡ plan.now }
        requires first { own_place seat.view ≡ first_place }
        requires seat { IsTaskSeat N.board seat }
        ensures seat { result.seat ≡ seat }
        ensures within { own_number result < length N.board.plan.parents }
    {
        PooledTask {
            task: Task::new(alloc, seat, plan),
            name: PhantomData,
        }
    }

    /// A stretch of its turn, which is cut short where its worker has loaded too much; answers what it was, and the task that it forked. After `NoMemory` it
    /// stands where its own steps brought it.
    pub(crate) fn act<R, C: Calls>(
        &mut self,
        setting: &TurnSetting<'_, R, C>,
        plan: &'p Plan,
        cells: &mut WorkerCells,
    ) -> Result<(Stretch, Option<PooledTask<'p, N>>), NoMemory>
        requires board { setting.now.board.now ≡ N.board }
        requires plan { N.board.plan ≡ plan.now }
        ensures same { own_number self.new ≡ own_number self.old }
        ensures child { IfOk result (λ r. IfSome r.1 (λ child. own_number child < length N.board.plan.parents)) }
    {
        let acted = self.task.act(setting, cells)?;
        let seats = self.task.take_children(setting.alloc).into_vec();
        Ok((acted, last_of(setting.alloc, seats, plan)))
    }

    /// The task, without the name of its board.
    pub(crate) fn into_task(self) -> Task<'p>
        ensures task { result ≡ self.entry }
        ensures pooled { IsPooled N.board result }
    {
        self.task
    }
}

// The task of the last of these seats of tasks that were just forked.
fn last_of<'p, N: BoardName>(
    alloc: Global,
    mut seats: Vec<TaskSeat>,
    plan: &'p Plan,
) -> Option<PooledTask<'p, N>>
    requires plan { N.board.plan ≡ plan.now }
    requires forked { All (IsForked N.board) seats.items }
    ensures within { IfSome result (λ child. own_number child < length N.board.plan.parents) }
{
    match seats.pop() {
        Some(seat) => Some(PooledTask::new(alloc, seat, plan)),
        None => None,
    }
}
