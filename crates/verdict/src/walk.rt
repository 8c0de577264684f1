// The walk over the dead tasks, and its cycle.
ghost use Rattle.std.specs.Prelude.{◌≡◌, ◌^◌, ◌<◌, [], true, false, length, All, Contains, IfOk, IfSome, MatchBool, MatchOption, slice_index_or};
ghost use Rattle.armus_base.specs.DeadLists.{IsDeadList};
ghost use Rattle.armus_base.specs.Relations.{IsWalkCycle};
ghost use Rattle.armus_base.specs.calls.Statuses.{IsInOrder};
ghost use Rattle.armus_base.specs.declared.status.Status.{Status};
ghost use Rattle.dep_state.specs.calls.Picks.{Ascend};
ghost use Rattle.digraph.specs.inside.NextTables.{AreNext};
ghost use Rattle.verdict.specs.calls.Cycles.{IsCycleOf, IsCycle};
ghost use Rattle.verdict.specs.inside.DeadWalks.{IsFlags, IsMadeOf, IsNextDead, GoesToNextDead, IsWalkable};

use crate::Cycle;
use armus_base::{List, NoMemory, Status, TaskId};
use dep_state::{DepState, task_place};
use digraph::{least_marked, walk_cycle};
use std::alloc::{AllocError, Global};

// Whether a task stands in an ascending list.
fn is_among(dead: &[TaskId], t: TaskId) -> bool
    requires { Ascend dead.now }
    ensures { MatchBool result (Contains dead.now t) (¬ Contains dead.now t) }
{
    match task_place(dead, t) {
        Some(_) => true,
        None => false,
    }
}

// For each task whether it is dead.
fn dead_flags(alloc: Global, tasks: &[TaskId], dead: &[TaskId]) -> Result<Vec<bool>, AllocError>
    requires { Ascend dead.now }
    ensures { IfOk result (λ flags. IsFlags tasks.now dead.now (length tasks.now) flags.items) }
{
    let mut flags = Vec::with_capacity(alloc, tasks.len())?;
    for k in 0..tasks.len() {
        flags.push(is_among(dead, tasks[k]))?;
    }
    Ok(flags)
}

// The least dead task that impedes the event of a dead task, by places; another task is its own next one.
fn next_dead(deps: &DepState, flags: &[bool], node: u32) -> u32
    requires walkable { IsWalkable deps.now flags.now }
    requires node { node < length deps.now.tasks }
    ensures step { GoesToNextDead deps.now flags.now node result }
    ensures inside { result < length deps.now.tasks }
{
    if !flags[node as usize] {
        return node;
    }
    let event = deps.awaits_at(node);
    match least_marked(deps.impeders_at(event), flags) {
        Some(next) => next,
        None => unreachable!(),
    }
}

// For each dead task the least dead one that impedes its event.
fn nexts(alloc: Global, deps: &DepState, flags: &[bool]) -> Result<Vec<u32>, AllocError>
    requires walkable { IsWalkable deps.now flags.now }
    requires few { length deps.now.tasks < 2 ^ 31 }
    ensures { IfOk result (λ next. AreNext (GoesToNextDead deps.now flags.now) (length deps.now.tasks) (length flags.now) next.items) }
{
    let mut next = Vec::with_capacity(alloc, flags.len())?;
    for k in 0..flags.len() {
        next.push(next_dead(deps, flags, k as u32))?;
    }
    Ok(next)
}

// The walk from a dead task, to where it comes back, by places.
fn walk_dead(
    alloc: Global,
    deps: &DepState,
    flags: &[bool],
    start: u32,
) -> Result<Vec<u32>, AllocError>
    requires walkable { IsWalkable deps.now flags.now }
    requires few { length deps.now.tasks < 2 ^ 31 }
    requires start { start < length deps.now.tasks }
    requires dead { slice_index_or flags.now start false ≡ true }
    ensures { IfOk result (λ cycle. IsWalkCycle (IsNextDead deps.now flags.now) start cycle.items) }
{
    let next = nexts(alloc, deps, flags)?;
    walk_cycle(alloc, &next, start)
}

// Where the status of a task stands.
fn status_place(list: &[Status], t: TaskId) -> usize
    requires { (s : Status) × Contains list.now s × (s.t ≡ t) }
    ensures inside { result < length list.now }
    ensures there { (s : Status) → (slice_index_or list.now result s).t ≡ t }
{
    let mut at = 0;
    'walk: while list[at].t.0 != t.0 {
        at += 1;
    }
    at
}

// The tasks and events of the statuses at some places.
fn made(alloc: Global, list: &[Status], places: &[u32]) -> Result<Cycle, AllocError>
    requires { All (λ p. p < length list.now) places.now }
    ensures { IfOk result (λ c. IsMadeOf list.now places.now c.tasks c.events) }
{
    let mut tasks = Vec::new(alloc);
    let mut events = Vec::new(alloc);
    for k in 0..places.len() {
        let status = &list[places[k] as usize];
        tasks.push(status.t)?;
        events.push(status.event)?;
    }
    Ok(Cycle {
        tasks: List::from_vec(tasks),
        events: List::from_vec(events),
    })
}

/// The cycle that explains a deadlock: the walk starts at the least dead task, goes each time to the least dead task that impedes the event of
/// the task it is at, and the cycle is its part from the first task that comes back. None exactly where no task is dead.
pub fn cycle(alloc: Global, list: &[Status], dead: &[TaskId]) -> Result<Option<Cycle>, NoMemory>
    requires order { IsInOrder list.now }
    requires dead { IsDeadList list.now dead.now }
    ensures cycle { IfOk result (λ found. MatchOption found (dead.now ≡ []) (IsCycleOf list.now dead.now)) }
    ensures passes { IfOk result (λ found. IfSome found (λ c. IsCycle list.now c.tasks c.events)) }
{
    if dead.is_empty() {
        return Ok(None);
    }
    let deps = DepState::of(alloc, list)?;
    let flags = dead_flags(alloc, deps.tasks(), dead)?;
    let start = status_place(list, dead[0]);
    let places = walk_dead(alloc, &deps, &flags, start as u32)?;
    let cycle = made(alloc, list, &places)?;
    Ok(Some(cycle))
}
