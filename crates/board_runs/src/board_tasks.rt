// The tasks of a run on a board, from round to round.
ghost use Rattle.std.specs.Prelude.{◌≡◌, ◌≢◌, ◌↔◌, ℕ, ◌++◌, ◌<◌, ◌≤◌, Some, [], true, false, map, flat_map, length, OnOk, IfOk, All};
ghost use Rattle.std.specs.List.Sorted.{IsPermutation};
ghost use Rattle.armus_base.specs.Runs.{first_place};
ghost use Rattle.armus_base.specs.calls.Seats.{seen_by_child};
ghost use Rattle.board.specs.calls.Seats.{IsNewSeat, IsOf, IsSeat, Known, nothing_seen};
ghost use Rattle.board.specs.calls.Steps.{IsSameSeat};
ghost use Rattle.board.specs.calls.Views.{own_place, seen};
ghost use Rattle.board_runs.specs.calls.Turns.{ActsNoMore, MayTakeTurn};
ghost use Rattle.board_runs.specs.calls.TaskSeats.{ArePlacesOf, AreTasksOf, KnowsTasks, all_of, left_to};
ghost use Rattle.board_runs.specs.calls.Rounds.{HasRound, HaveEnded, MakesRound, emptied, fresh, fresh_of};
ghost use Rattle.board_runs.specs.inside.Rounds.{IsAtStart, IsChildIn};

use crate::endings::{first_places, note_places, take_in_all};
use crate::rounds::take_turns;
use crate::worker_cells::{WorkerCells, provide};
use crate::{Task, TurnSetting};
use armus_base::{Gate, List, NoMemory, Plan};
use avoider::Judging;
use board::{Board, TaskSeat, ViewSeat};
use pl_core::Place;
use std::alloc::Global;
use std::marker::Model;
use std::thread::Threads;

/// What a round was.
#[derive(Clone, Copy, Debug, PartialEq, Eq)]
pub struct Rounded {
    /// How many actions were made in it, up to 2^32 - 1.
    pub actions: u32,
    /// Whether a task was forked in it.
    pub forked: bool,
}

/// The tasks of a run on a board: those that live, in order of number, and those that act no more.
#[derive(Drop)]
pub struct BoardTasks<'p> {
    pub(crate) live: Vec<Task<'p>>,
    pub(crate) ended: Vec<Task<'p>>,
    judging: Judging,
    // of each worker
    cells: Vec<WorkerCells>,
}

impl<'p> Model for BoardTasks<'p> {
    ghost use Rattle.board_runs.specs.calls.TaskSeats.{Tasks};

    ghost Value = { Tasks };

    ghost use Rattle.board_runs.specs.inside.TasksOf.{live_and_ended};

    ghost view = { live_and_ended };
}

impl<'p> BoardTasks<'p> {
    /// Task 0 alone, whose seat this is, before its first step. Awaits are judged so where deadlock is avoided.
    pub fn start(
        alloc: Global,
        board: &Board,
        seat: TaskSeat,
        plan: &'p Plan,
        judging: Judging,
    ) -> Result<BoardTasks<'p>, NoMemory>
        requires plan { board.now.plan ≡ plan.now }
        requires new { IsNewSeat board.now (Some 0) (seen_by_child 0 nothing_seen) seat }
        ensures tasks { IfOk result (AreTasksOf board.now) }
    {
        let _ = board;
        let mut live = Vec::new(alloc);
        live.push(Task::new(alloc, seat, plan))?;
        Ok(BoardTasks {
            live,
            ended: Vec::new(alloc),
            judging,
            cells: Vec::new(alloc),
        })
    }

    /// One round: each task that lives has one turn, by so many workers. What a worker judges by is kept from its first round on. After the round the children
    /// whom they forked live too, and whoever acts no more lives no more. Where nobody was forked, as where nobody acted, each task stands at the end of
    /// its turn in this round, or had ended before; a turn may be cut short only where the tasks have made more loads in the round than the bound.
    pub fn round<R: Threads + Sync, G: Gate>(
        &mut self,
        setting: &TurnSetting<'_, R, G>,
        plan: &'p Plan,
        workers: u8,
    ) -> Result<Rounded, NoMemory>
        requires plan { setting.now.board.now.plan ≡ plan.now }
        requires tasks { AreTasksOf setting.now.board.now self.old }
        ensures round { IfOk result (HasRound setting.now.bound setting.now.board.now self.old self.new) }
        ensures tasks { OnOk result (AreTasksOf setting.now.board.now self.new) }
        ensures further { IfOk result (λ made. 0 < made.actions → left_to plan.now self.new < left_to plan.now self.old) }
        ensures quiet { IfOk result (λ made. made.actions ≡ 0 → made.forked ≡ false) }
        ensures ends { IfOk result (λ made. made.forked ≡ false → HaveEnded setting.now.bound self.old self.new) }
    {
        provide(&mut self.cells, workers, self.judging)?;
        let cells = self.cells.as_mut_slice();
        let live = &mut self.live;
        let made = go_round(setting, plan, workers, cells, live)?;
        retire(setting.alloc, &mut self.live, &mut self.ended)?;
        Ok(made)
    }

    /// How many words the awaits so far load, as a board is defined, up to 2^64 - 1: each that was published one of each task, and each on which was decided
    /// those of its collect.
    pub fn loads(&self) -> u64 {
        let mut loads = 0u64;
        for cells in self.cells.as_slice() {
            loads = loads.saturating_add(cells.loads_for_awaits());
        }
        loads
    }

    /// The place of each task of the plan.
    pub fn places(&self, alloc: Global, board: &Board, plan: &Plan) -> Result<List<Place>, NoMemory>
        requires plan { board.now.plan ≡ plan.now }
        requires tasks { AreTasksOf board.now self.now }
        ensures places { IfOk result (ArePlacesOf plan.now (all_of self.now)) }
    {
        let _ = board;
        let mut places = first_places(alloc, plan)?;
        note_places(self.live.as_slice(), &mut places);
        note_places(self.ended.as_slice(), &mut places);
        Ok(List::from_vec(places))
    }

    /// A viewer that knows no task exactly takes the seats of these tasks in: it knows each of them exactly then, where its seat stood.
    pub fn take_in(self, board: &Board, view: &mut ViewSeat)
        requires made { IsOf view.old board.now }
        requires tasks { AreTasksOf board.now self }
        requires unknown { (u : ℕ) → (seen view.old.view).exact u ≡ false }
        ensures made { IsOf view.new board.now }
        ensures known { KnowsTasks board.now (all_of self.entry) view.new }
        ensures same { IsSameSeat view.old.view view.new.view }
        ensures kept { IsSeat view.old → IsSeat view.new }
    {
        take_in_all(board, view, self.live);
        take_in_all(board, view, self.ended);
    }
}

// One turn of each of these tasks, after which the children whom they forked are tasks among them, in order of number.
fn go_round<'p, R: Threads + Sync, G: Gate>(
    setting: &TurnSetting<'_, R, G>,
    plan: &'p Plan,
    workers: u8,
    cells: &mut [WorkerCells],
    tasks: &mut Vec<Task<'p>>,
) -> Result<Rounded, NoMemory>
    requires plan { setting.now.board.now.plan ≡ plan.now }
    requires ready { All (MayTakeTurn setting.now.board.now) tasks.old.items }
    requires no_child { All (λ task. task.children ≡ []) tasks.old.items }
    requires enough { workers ≤ length cells.old }
    requires cells { 1 ≤ length cells.old }
    ensures round { IfOk result (MakesRound setting.now.bound setting.now.board.now tasks.old.items tasks.new.items) }
{
    let turned = tasks.as_mut_slice();
    let actions = take_turns(setting, workers, cells, turned)?;
    let forked = take_on(setting.alloc, plan, tasks)?;
    Ok(Rounded { actions, forked })
}

// Makes tasks of the children's seats that these tasks have, and puts them among them, in order of number; answers whether there were any.
fn take_on<'p>(alloc: Global, plan: &'p Plan, tasks: &mut Vec<Task<'p>>) -> Result<bool, NoMemory>
    requires start { (seat : Known) → IsChildIn tasks.old.items seat → IsAtStart plan.now seat }
    ensures joined { OnOk result (IsPermutation (map emptied tasks.old.items ++ flat_map fresh_of tasks.old.items) tasks.new.items) }
    ensures forked { IfOk result (λ forked. forked ≡ true ↔ (flat_map fresh_of tasks.old.items ≢ [])) }
{
    let mut children = new_tasks(alloc, plan, tasks.as_mut_slice())?;
    if children.is_empty() {
        return Ok(false);
    }
    tasks.append(&mut children)?;
    tasks.sort_by_key(|task| task.id().0)?;
    Ok(true)
}

// Makes tasks of the children's seats that these tasks have, in order.
fn new_tasks<'p>(
    alloc: Global,
    plan: &'p Plan,
    tasks: &mut [Task<'p>],
) -> Result<Vec<Task<'p>>, NoMemory>
    requires start { (seat : Known) → IsChildIn tasks.old seat → IsAtStart plan.now seat }
    ensures tasks { OnOk result (tasks.new ≡ map emptied tasks.old) }
    ensures children { IfOk result (λ v. v.items ≡ flat_map fresh_of tasks.old) }
{
    let mut children = Vec::new(alloc);
    for task in tasks.iter_mut() {
        add_children(alloc, plan, task, &mut children)?;
    }
    Ok(children)
}

// Makes tasks of the children's seats that a task has.
fn add_children<'p>(
    alloc: Global,
    plan: &'p Plan,
    task: &mut Task<'p>,
    children: &mut Vec<Task<'p>>,
) -> Result<(), NoMemory>
    requires first { All (λ seat. own_place seat.view ≡ first_place) task.old.children }
    requires plan { All (λ seat. seat.view.plan ≡ plan.now) task.old.children }
    ensures task { OnOk result (task.new ≡ emptied task.old) }
    ensures children { OnOk result (children.new.items ≡ children.old.items ++ fresh_of task.old) }
{
    let seats = task.take_children(alloc).into_vec();
    for seat in seats {
        children.push(Task::new(alloc, seat, plan))?;
    }
    Ok(())
}

// Takes the tasks that act no more out of those that live.
fn retire<'p>(
    alloc: Global,
    live: &mut Vec<Task<'p>>,
    ended: &mut Vec<Task<'p>>,
) -> Result<(), NoMemory>
    requires ended { All (λ task. ActsNoMore task.seat) ended.old.items }
    ensures same { OnOk result (IsPermutation (live.old.items ++ ended.old.items) (live.new.items ++ ended.new.items)) }
    ensures ended { OnOk result (All (λ task. ActsNoMore task.seat) ended.new.items) }
    ensures live { OnOk result (All (λ task. ActsNoMore task.seat → ⊥) live.new.items) }
{
    if !some_ended(live.as_slice()) {
        return Ok(());
    }
    let tasks = std::mem::replace(live, Vec::new(alloc));
    sort_out(tasks, live, ended)
}

// Puts each of these tasks among those that live or, if it acts no more, among the ended ones.
fn sort_out<'p>(
    tasks: Vec<Task<'p>>,
    live: &mut Vec<Task<'p>>,
    ended: &mut Vec<Task<'p>>,
) -> Result<(), NoMemory>
    requires none { live.old.items ≡ [] }
    requires ended { All (λ task. ActsNoMore task.seat) ended.old.items }
    ensures same { OnOk result (IsPermutation (ended.old.items ++ tasks.entry.items) (live.new.items ++ ended.new.items)) }
    ensures ended { OnOk result (All (λ task. ActsNoMore task.seat) ended.new.items) }
    ensures live { OnOk result (All (λ task. ActsNoMore task.seat → ⊥) live.new.items) }
{
    for task in tasks {
        if task.has_ended() {
            ended.push(task)?;
        } else {
            live.push(task)?;
        }
    }
    Ok(())
}

// Whether one of these tasks acts no more.
fn some_ended(tasks: &[Task<'_>]) -> bool
    ensures { result ≡ false → All (λ task. ActsNoMore task.seat → ⊥) tasks.now }
{
    for task in tasks {
        if task.has_ended() {
            return true;
        }
    }
    false
}
