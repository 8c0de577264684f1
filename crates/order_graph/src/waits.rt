// Who waits for whom, by sets of tasks that several tasks may share.
ghost use Rattle.std.specs.Prelude.{◌≡◌, ◌↔◌, ◌<◌, List, length, map, All, Contains, IfOk};
ghost use Rattle.armus_base.specs.Graphs.{WaitsFor};
ghost use Rattle.armus_base.specs.calls.Statuses.{IsInOrder};
ghost use Rattle.armus_base.specs.declared.ids.TaskId.{TaskId};
ghost use Rattle.armus_base.specs.declared.status.Status.{Status};
ghost use Rattle.dep_state.specs.calls.Deps.{AreRelations, IsDepsOf};
ghost use Rattle.dep_state.specs.inside.Names.{named};
ghost use Rattle.order_graph.specs.calls.Waits.{AreWaitsAmong, Awaits};
ghost use Rattle.order_graph.specs.inside.Gathered.{AreImpeding, AreOwnPlaces};

use crate::TaskSet;
use armus_base::{NoMemory, TaskId};
use dep_state::DepState;
use std::alloc::{AllocError, Global};

/// For whom each task waits: sets of tasks, and for each task the place of its own one. Tasks that await one event share a set.
#[derive(Drop)]
pub struct Waits {
    /// sets of tasks
    pub sets: Vec<TaskSet>,
    /// for each task the place among the sets of that for whose tasks it waits
    pub own: Vec<u32>,
}

// The set of the tasks at some places.
fn set_of(alloc: Global, tasks: &[TaskId], places: &[u32]) -> Result<TaskSet, AllocError>
    requires { All (λ k. k < length tasks.now) places.now }
    ensures { IfOk result (λ row. (u : TaskId) → Contains row u ↔ Contains (named tasks.now places.now) u) }
{
    let mut row = TaskSet::none(alloc);
    for k in places {
        row.put(tasks[*k as usize])?;
    }
    Ok(row)
}

// For each event the set of the tasks that impede it, and then the empty set.
fn sets_of(alloc: Global, deps: &DepState) -> Result<Vec<TaskSet>, AllocError>
    ensures sets { IfOk result (λ sets. AreImpeding deps.now sets.items) }
    ensures formed { AreRelations deps.now }
{
    let mut sets = Vec::new(alloc);
    for e in 0..deps.events().len() {
        let set = set_of(alloc, deps.tasks(), deps.impeders_at(e as u32))?;
        sets.push(set)?;
    }
    sets.push(TaskSet::none(alloc))?;
    Ok(sets)
}

// For each task the place of its event, and for one that awaits none the place behind them.
fn own_places(alloc: Global, tasks: u32, deps: &DepState) -> Result<Vec<u32>, AllocError>
    requires { All (λ t. t.0 < tasks) deps.now.tasks }
    ensures sized { IfOk result (λ own. length own.items ≡ tasks) }
    ensures own { IfOk result (λ own. AreOwnPlaces deps.now (length deps.now.tasks) own.items) }
{
    let none = deps.events().len() as u32;
    let mut own = vec![in alloc; none; tasks as usize]?;
    let waiting = deps.tasks();
    for k in 0..waiting.len() {
        own[waiting[k].0 as usize] = deps.awaits_at(k as u32);
    }
    Ok(own)
}

/// For whom each of so many tasks waits by the relations of statuses.
pub(crate) fn waits_of(alloc: Global, tasks: u32, deps: &DepState) -> Result<Waits, NoMemory>
    requires { All (λ t. t.0 < tasks) deps.now.tasks }
    ensures among { IfOk result (AreWaitsAmong tasks) }
    ensures pairs { (ss : List Status) → IsInOrder ss → IsDepsOf ss deps.now → IfOk result (λ w. (a b : TaskId) → Awaits w a b ↔ WaitsFor ss a b) }
{
    let sets = sets_of(alloc, deps)?;
    let own = own_places(alloc, tasks, deps)?;
    Ok(Waits { sets, own })
}
