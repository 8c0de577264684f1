// A round of turns by several workers.
ghost use Rattle.std.specs.Thread.{IsSync};
ghost use Rattle.std.specs.Prelude.{◌≡◌, ◌≤◌, ◌-◌, ◌^◌, All, IfOk, List, OnOk, false, length, map};
ghost use Rattle.armus_base.specs.Plans.{Action};
ghost use Rattle.board.specs.calls.Seats.{IsOf};
ghost use Rattle.board_runs.specs.calls.Turns.{MakesActions, CountsLoadsOf, EndsTurnWithin, MayTakeTurn, TakesTurns, max_actions};

use crate::Task;
use crate::worker_cells::{WorkerCells, provide};
use adaptive::Wanted;
use armus_base::{Gate, NoMemory, Plan, Point};
use avoider::Judging;
use board::Board;
use std::alloc::Global;
use std::thread::{Threads, join_mut};

/// What a task calls before each op that it tries: a gate, of which it does not matter to the task whether threads share it. A method of a trait can hand on
/// no bound that speaks of threads.
pub trait Calls {
    fn call(&self, point: Point);
}

impl<G: Gate> Calls for G {
    fn call(&self, point: Point) {
        self.at(point);
    }
}

/// What turns need beside the tasks.
#[derive(Drop)]
pub struct TurnSetting<'r, R, C> {
    /// The handle by which threads are started.
    pub rt: &'r R,
    /// The allocator.
    pub alloc: Global,
    /// The board on which the tasks act.
    pub board: &'r Board,
    /// What is called before each op.
    pub gate: &'r C,
    /// How many loads the tasks of a worker may make in a round; once they have made more, the worker lets each task act up to its next await at the
    /// latest. With 2^64 - 1 no turn is cut short.
    pub bound: u64,
}

/// A task that takes turns. A round is proved for any type of them: what a slice of tasks holds after it was split is known only where the type of its
/// elements names no lifetime, or is a parameter.
pub(crate) trait TakeTurn {
    ghost use Rattle.board_runs.specs.calls.Turns.{Working};

    // The task as contracts see it.
    ghost working: { Self → Working };

    /// Its turn: it acts until it is done, or is published and finds a member behind, or is refused, or finds the lock taken; once more loads than the bound
    /// were counted with these cells, until the next await at the latest. It answers how many actions were made. The gate is called before each op that it tries.
    fn turn<R, C: Calls>(
        &mut self,
        setting: &TurnSetting<'_, R, C>,
        cells: &mut WorkerCells,
    ) -> Result<u32, NoMemory>
        requires made { IsOf (working self.old).seat setting.now.board.now }
        requires free { (working self.old).seat.view.holds ≡ false }
        ensures acts { (own : List Action) × MakesActions setting.now.board.now own (working self.old) (working self.new) × IfOk result (λ n. n ≡ length own) }
        ensures few { IfOk result (λ n. n ≤ max_actions) }
        ensures counted { CountsLoadsOf (working self.old).seat (working self.new).seat cells.old cells.new }
        ensures ends { OnOk result (EndsTurnWithin setting.now.bound cells.new.loads (working self.old).seat (working self.new).seat) };
}

/// One turn of each of these tasks, by so many workers. In its turn a task acts until it is done, or finds a member of the phaser on which it is
/// published behind, or is refused, or finds the lock taken. It answers how many actions were made by these tasks. The gate is called before each op. The
/// graph that is wanted matters where deadlock is avoided. After `NoMemory` each task stands where its own steps brought it.
pub fn round<R: Threads + Sync, G: Gate>(
    rt: &R,
    alloc: Global,
    tasks: &mut [Task<'_>],
    board: &Board,
    plan: &Plan,
    wanted: Wanted,
    workers: u8,
    gate: &G,
) -> Result<u32, NoMemory>
    requires ready { All (MayTakeTurn board.now) tasks.old }
    requires plan { board.now.plan ≡ plan.now }
    ensures turns { TakesTurns (2 ^ 64 - 1) board.now tasks.old tasks.new result }
    ensures free { All (λ task. task.seat.view.holds ≡ false) tasks.new }
{
    let _ = plan;
    let mut cells = Vec::new(alloc);
    provide(&mut cells, workers, Judging::Graph(wanted))?;
    let cells = cells.as_mut_slice();
    let bound = u64::MAX;
    let setting = TurnSetting {
        rt,
        alloc,
        board,
        gate,
        bound,
    };
    take_turns(&setting, workers, cells, tasks)
}

/// One turn of each of these tasks. With several workers the list is split into halves, which take their turns side by side, each with half of the
/// workers; with one worker turns are taken in order. Each worker has cells of its own. What the halves share is lent: where a closure takes a struct by
/// value, what the tasks are afterwards is not known.
#[cycle(taking)]
pub(crate) fn take_turns<T: TakeTurn + Send, R: Threads + Sync, C: Calls + Sync>(
    setting: &TurnSetting<'_, R, C>,
    workers: u8,
    cells: &mut [WorkerCells],
    tasks: &mut [T],
) -> Result<u32, NoMemory>
    requires ready { All (MayTakeTurn setting.now.board.now) (map T.working tasks.old) }
    requires enough { workers ≤ length cells.old }
    requires cells { 1 ≤ length cells.old }
    ensures turns { TakesTurns setting.now.bound setting.now.board.now (map T.working tasks.old) (map T.working tasks.new) result }
{
    if workers < 2 || tasks.len() < 2 {
        take_turns_in_order(setting, &mut cells[0], tasks)
    } else {
        take_turns_in_halves(setting, workers, cells, tasks)
    }
}

// One turn of each of these tasks, of which there are several, by several workers: one half beside the other.
#[cycle(taking)]
fn take_turns_in_halves<T: TakeTurn + Send, R: Threads + Sync, C: Calls + Sync>(
    setting: &TurnSetting<'_, R, C>,
    workers: u8,
    cells: &mut [WorkerCells],
    tasks: &mut [T],
) -> Result<u32, NoMemory>
    requires ready { All (MayTakeTurn setting.now.board.now) (map T.working tasks.old) }
    requires enough { workers ≤ length cells.old }
    requires several { 2 ≤ workers }
    ensures turns { TakesTurns setting.now.bound setting.now.board.now (map T.working tasks.old) (map T.working tasks.new) result }
{
    let few = workers / 2;
    let rest = workers - few;
    let (front_cells, back_cells) = cells.split_at_mut(few as usize);
    let (front, back) = tasks.split_at_mut(tasks.len() / 2);
    let (first, second) = join_mut(
        setting.rt,
        &mut || -> Result<u32, NoMemory>
            requires { IsSync R.row × All (MayTakeTurn setting.now.board.now) (map T.working front.now) × (few ≤ length front_cells.now) × (1 ≤ length front_cells.now) }
            ensures { TakesTurns setting.entry.now.bound setting.entry.now.board.now (map T.working front.entry.now) (map T.working front.exit.now) result }
        { take_turns(setting, few, front_cells, front) },
        &mut || -> Result<u32, NoMemory>
            requires { IsSync R.row × All (MayTakeTurn setting.now.board.now) (map T.working back.now) × (rest ≤ length back_cells.now) × (1 ≤ length back_cells.now) }
            ensures { TakesTurns setting.entry.now.bound setting.entry.now.board.now (map T.working back.entry.now) (map T.working back.exit.now) result }
        { take_turns(setting, rest, back_cells, back) },
    );
    Ok(first?.saturating_add(second?))
}

// One turn of each of these tasks, in order, by one worker; once they have made more loads than the bound, turns are cut short.
fn take_turns_in_order<T: TakeTurn, R, C: Calls>(
    setting: &TurnSetting<'_, R, C>,
    cells: &mut WorkerCells,
    tasks: &mut [T],
) -> Result<u32, NoMemory>
    requires ready { All (MayTakeTurn setting.now.board.now) (map T.working tasks.old) }
    ensures turns { TakesTurns setting.now.bound setting.now.board.now (map T.working tasks.old) (map T.working tasks.new) result }
{
    let bound = cells.loads().saturating_add(setting.bound);
    let until = TurnSetting { bound, ..*setting };
    let mut made = 0u32;
    for task in tasks.iter_mut() {
        made = made.saturating_add(task.turn(&until, cells)?);
    }
    Ok(made)
}
