// The relations of a list of statuses.
ghost use Rattle.std.specs.Prelude.{◌≡◌, ◌↔◌, ◌<◌, ◌^◌, List, length, All, Contains, MatchOption, slice_index, slice_index_or, IfOk};
ghost use Rattle.armus_base.specs.declared.ids.TaskId.{TaskId};
ghost use Rattle.armus_base.specs.declared.status.Status.{Status};
ghost use Rattle.armus_base.specs.Graphs.{WaitsFor};
ghost use Rattle.armus_base.specs.calls.Statuses.{IsInOrder};
ghost use Rattle.dep_state.specs.calls.Deps.{AreRelations, IsDepsOf, impeders_of};
ghost use Rattle.dep_state.specs.calls.Picks.{Ascend, IsImpederList, HasNoStatus, HasEvent};

use crate::{events, impeders, names, search};
use armus_base::{Event, NoMemory, Status, TaskId};
use std::alloc::Global;
use std::marker::Model;

/// The relations of a list of statuses (the resource-dependency state of PPoPP 2015): which event each task awaits, and which tasks impede
/// each event. Contracts see it by the places of tasks and events in two lists, so that a graph can number its nodes.
#[derive(Drop)]
pub struct DepState {
    tasks: Vec<TaskId>,
    awaits: Vec<u32>,
    events: Vec<Event>,
    impeders: Vec<Vec<u32>>,
    impeding: Vec<Vec<TaskId>>,
}

impl Model for DepState {
    ghost use Rattle.std.specs.Prelude.{All};
    ghost use Rattle.dep_state.specs.calls.Deps.{Deps, AreRelations, rows_of};
    ghost use Rattle.dep_state.specs.inside.Names.{IsNamed};
    ghost use Rattle.dep_state.specs.calls.Picks.{Ascend};

    ghost Value = { Deps };

    ghost view = { λ d. record { tasks = d.tasks.items; awaits = d.awaits.items; events = d.events.items; impeders = rows_of d.impeders.items } };

    ghost invariant = { λ d.
        AreRelations (record { tasks = d.tasks.items; awaits = d.awaits.items; events = d.events.items; impeders = rows_of d.impeders.items }) ×
        IsNamed d.tasks.items (rows_of d.impeders.items) (rows_of d.impeding.items) × Ascend d.tasks.items ×
        All Ascend (rows_of d.impeding.items) };
}

impl DepState {
    /// The relations of the statuses. The time is near linear in the size of the statuses and of the relation between events and tasks.
    pub fn of(alloc: Global, list: &[Status]) -> Result<DepState, NoMemory>
        requires { IsInOrder list.now }
        ensures { IfOk result (IsDepsOf list.now) }
    {
        let tasks = events::tasks(alloc, list)?;
        let events = events::awaited_events(alloc, list)?;
        let awaits = events::places(alloc, list, &events)?;
        let impeders = impeders::all_impeders(alloc, list, &events)?;
        let impeding = names::all_names(alloc, &tasks, &impeders)?;
        Ok(DepState {
            tasks,
            awaits,
            events,
            impeders,
            impeding,
        })
    }

    /// The blocked tasks, in order of number.
    pub fn tasks(&self) -> &[TaskId]
        ensures tasks { result.now ≡ self.now.tasks }
        ensures few { length self.now.tasks < 2 ^ 31 }
    {
        &self.tasks
    }

    /// The event that a task awaits. None comes exactly where the list has no status of the task; any task may be asked for.
    pub fn awaits(&self, t: TaskId) -> Option<Event>
        ensures { (ss : List Status) → IsInOrder ss → IsDepsOf ss self.now → MatchOption result (HasNoStatus ss t) (HasEvent ss t) }
    {
        match search::task_place(&self.tasks, t) {
            None => None,
            Some(at) => Some(self.events[self.awaits_at(at as u32) as usize]),
        }
    }

    /// The distinct awaited events, by phaser and then by phase.
    pub fn events(&self) -> &[Event]
        ensures events { result.now ≡ self.now.events }
        ensures few { length self.now.events < 2 ^ 31 }
        ensures formed { AreRelations self.now }
    {
        &self.events
    }

    /// The tasks of the list that impede an awaited event, in order of number.
    pub fn impeders(&self, e: Event) -> &[TaskId]
        requires { Contains self.now.events e }
        ensures { (ss : List Status) → IsInOrder ss → IsDepsOf ss self.now → IsImpederList ss e result.now }
    {
        let at = events::event_place(&self.events, e);
        &self.impeding[at]
    }

    /// The tasks that a task waits for, in order of number: those of the list that impede its event. There are none where the list has no status
    /// of the task; any task may be asked for.
    pub fn waits_for(&self, t: TaskId) -> &[TaskId]
        ensures ascends { Ascend result.now }
        ensures inside { All (Contains self.now.tasks) result.now }
        ensures pairs { (ss : List Status) → IsInOrder ss → IsDepsOf ss self.now → (b : TaskId) → Contains result.now b ↔ WaitsFor ss t b }
    {
        match search::task_place(&self.tasks, t) {
            None => &[],
            Some(at) => &self.impeding[self.awaits[at] as usize],
        }
    }

    /// The place among the events of what each task awaits, in the order of the tasks.
    pub fn places(&self) -> &[u32]
        ensures places { result.now ≡ self.now.awaits }
        ensures formed { AreRelations self.now }
    {
        &self.awaits
    }

    /// The place of the event that the task at a place awaits.
    pub fn awaits_at(&self, task: u32) -> u32
        requires { task < length self.now.tasks }
        ensures event { result ≡ slice_index self.now.awaits task }
        ensures inside { result < length self.now.events }
        ensures formed { AreRelations self.now }
    {
        self.awaits[task as usize]
    }

    /// The places of the tasks that impede the event at a place, ascending.
    pub fn impeders_at(&self, event: u32) -> &[u32]
        requires { event < length self.now.events }
        ensures impeders { result.now ≡ impeders_of self.now event }
        ensures inside { All (λ t. t < length self.now.tasks) result.now }
    {
        &self.impeders[event as usize]
    }
}
