// A set of tasks, kept as bits.
ghost use Rattle.std.specs.Prelude.{◌≡◌, ◌↔◌, ◌⊎◌, [], Contains, IfOk, IsTrue, MatchBool, OnErr, OnOk};
ghost use Rattle.armus_base.specs.declared.ids.TaskId.{TaskId};
ghost use Rattle.dep_state.specs.calls.Picks.{Ascend};

use crate::words;
use armus_base::TaskId;
use std::alloc::{AllocError, Global};
use std::marker::Model;

/// A set of tasks, a bit for each. Contracts see the tasks in order of number.
#[derive(Drop)]
pub struct TaskSet {
    words: Vec<u64>,
}

impl Model for TaskSet {
    ghost use Rattle.std.specs.Prelude.{List, length, ◌≤◌, ◌^◌};
    ghost use Rattle.armus_base.specs.declared.ids.TaskId.{TaskId};
    ghost use Rattle.order_graph.specs.inside.Bits.{tasks_by_bits};

    ghost Value = { List TaskId };

    ghost view = { λ r. tasks_by_bits r.words.items };

    ghost invariant = { λ r. length r.words.items ≤ 2 ^ 26 };
}

impl TaskSet {
    /// No task.
    pub fn none(alloc: Global) -> TaskSet
        ensures { result ≡ [] }
    {
        TaskSet {
            words: Vec::new(alloc),
        }
    }

    /// Whether a task is one of the set.
    pub fn has(&self, t: TaskId) -> bool
        ensures { MatchBool result (Contains self.now t) (¬ Contains self.now t) }
    {
        words::is_set(&self.words, t.0)
    }

    /// Adds a task. After `AllocError` the set is as before.
    pub fn put(&mut self, t: TaskId) -> Result<(), AllocError>
        ensures ascends { Ascend self.new }
        ensures within { (u : TaskId) → Contains self.new u → Contains self.old u ⊎ (u ≡ t) }
        ensures members { OnOk result ((u : TaskId) → Contains self.new u ↔ (Contains self.old u ⊎ (u ≡ t))) }
        ensures err { OnErr result (self.new ≡ self.old) }
    {
        words::make_room(&mut self.words, t.0)?;
        words::set_bit(&mut self.words, t.0);
        Ok(())
    }

    /// Takes a task out, if it is there.
    pub fn take_out(&mut self, t: TaskId)
        ensures ascends { Ascend self.new }
        ensures members { (u : TaskId) → Contains self.new u ↔ (Contains self.old u × (u ≡ t → ⊥)) }
    {
        words::clear_bit(&mut self.words, t.0);
    }

    /// Leaves the tasks alone that are of another set too; true only where these are all of that set.
    pub fn keep_common(&mut self, other: &TaskSet) -> bool
        ensures ascends { Ascend self.new }
        ensures members { (u : TaskId) → Contains self.new u ↔ (Contains self.old u × Contains other.now u) }
        ensures same { IsTrue result → self.new ≡ other.now }
    {
        words::keep_common(&mut self.words, &other.words)
    }

    /// Whether two sets have the same tasks.
    pub fn is_same(&self, other: &TaskSet) -> bool
        ensures { IsTrue result → self.now ≡ other.now }
    {
        words::is_same(&self.words, &other.words)
    }

    /// The tasks, in order of number.
    pub fn tasks(&self, alloc: Global) -> Result<Vec<TaskId>, AllocError>
        ensures { IfOk result (λ list. list.items ≡ self.now) }
    {
        words::tasks_less(alloc, &self.words, &[])
    }

    /// The tasks that another set does not have.
    pub fn tasks_less(&self, alloc: Global, other: &TaskSet) -> Result<Vec<TaskId>, AllocError>
        ensures within { IfOk result (λ list. (u : TaskId) → Contains list.items u → Contains self.now u × (Contains other.now u → ⊥)) }
        ensures all { IfOk result (λ list. (u : TaskId) → Contains self.now u → Contains list.items u ⊎ Contains other.now u) }
    {
        words::tasks_less(alloc, &self.words, &other.words)
    }
}
