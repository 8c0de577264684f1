// The stuck tasks of a state, as they are known.
ghost use Rattle.std.specs.Prelude.{◌≡◌, ◌≤◌, ◌++◌, ◌∷◌, [], ℕ, List, true, false, Contains, MatchBool, OnOk};
ghost use Rattle.monitor_search.specs.Known.{has_stuck_number, known_task};
ghost use Rattle.monitor_search.specs.inside.Leaving.{is_nobody};
ghost use Rattle.monitor_search.specs.inside.Numbers.{HasNumberAt, IsPlaceOfNumber, NeverFall};

use armus_base::NoMemory;
use monitor_state::ListedParticipant;
use std::alloc::Global;
use std::marker::Model;

/// A stuck task as it is known: its number and its name.
#[derive(Drop)]
pub struct StuckTask {
    number: u64,
    name: Vec<u8>,
}

impl Model for StuckTask {
    ghost use Rattle.std.specs.Prelude.{ℕ, List};

    ghost Value = { ℕ × List ℕ };

    ghost view = { λ t. (t.number, t.name.items) };
}

impl StuckTask {
    /// How many were named before it.
    pub fn number(&self) -> u64
        ensures { result ≡ self.now.0 }
    {
        self.number
    }

    /// Its name.
    pub fn name(&self) -> &[u8]
        ensures { result.now ≡ self.now.1 }
    {
        &self.name
    }
}

// Whether two tasks have the same number and name.
fn is_same_task(one: &StuckTask, other: &StuckTask) -> bool
    ensures same { result ≡ true → one.now ≡ other.now }
    ensures apart { result ≡ false → one.now ≡ other.now → ⊥ }
{
    one.number() == other.number() && one.name() == other.name()
}

// Whether two lists have the same tasks in the same order.
fn are_same(these: &[StuckTask], others: &[StuckTask]) -> bool
    ensures same { result ≡ true → these.now ≡ others.now }
    ensures apart { result ≡ false → these.now ≡ others.now → ⊥ }
{
    if these.len() != others.len() {
        return false;
    }
    for place in 0..these.len() {
        if !is_same_task(&these[place], &others[place]) {
            return false;
        }
    }
    true
}

// The first place from which on no task has a lower number.
fn first_from(tasks: &[StuckTask], number: u64) -> usize
    requires { NeverFall tasks.now }
    ensures { IsPlaceOfNumber tasks.now number result }
{
    tasks.partition_point(|task| task.number() < number)
}

// Where the task with this number stands, if all between it and the first one are stuck.
fn likely_place(tasks: &[StuckTask], number: u64) -> usize {
    match tasks.first() {
        None => 0,
        Some(first) => number.saturating_sub(first.number()) as usize,
    }
}

// Whether a task with this number stands at this place.
fn is_at(tasks: &[StuckTask], number: u64, at: usize) -> bool
    ensures { MatchBool result (HasNumberAt tasks.now number at) (HasNumberAt tasks.now number at → ⊥) }
{
    at < tasks.len() && tasks[at].number() == number
}

/// The stuck tasks of a state, in list order, as they are known.
#[derive(Drop)]
pub struct StuckTasks {
    tasks: Vec<StuckTask>,
}

impl Model for StuckTasks {
    ghost use Rattle.std.specs.Prelude.{ℕ, List};
    ghost use Rattle.monitor_search.specs.inside.Numbers.{NeverFall};

    ghost Value = { List (ℕ × List ℕ) };

    ghost view = { λ s. s.tasks.items };

    ghost invariant = { λ s. NeverFall s.tasks.items };
}

impl StuckTasks {
    /// No task is stuck.
    pub fn none(alloc: Global) -> StuckTasks
        ensures { result ≡ [] }
    {
        StuckTasks {
            tasks: Vec::new(alloc),
        }
    }

    /// One more, behind the others, of whom none has a greater number.
    pub(crate) fn push(&mut self, alloc: Global, task: &ListedParticipant) -> Result<(), NoMemory>
        requires { (t : ℕ × List ℕ) → Contains self.old t → t.0 ≤ task.now.number }
        ensures { OnOk result (self.new ≡ self.old ++ known_task task.now ∷ []) }
    {
        let name = Vec::from_slice(alloc, task.name())?;
        self.tasks.push(StuckTask {
            number: task.number(),
            name,
        })?;
        Ok(())
    }

    /// All of them.
    pub fn as_slice(&self) -> &[StuckTask]
        ensures { result.now ≡ self.now }
    {
        &self.tasks
    }

    /// Whether there is none.
    pub(crate) fn is_empty(&self) -> bool
        ensures { result ≡ is_nobody self.now }
    {
        self.tasks.is_empty()
    }

    /// Whether they are the same as these.
    pub(crate) fn is_same(&self, others: &StuckTasks) -> bool
        ensures same { result ≡ true → self.now ≡ others.now }
        ensures apart { result ≡ false → self.now ≡ others.now → ⊥ }
    {
        are_same(self.as_slice(), others.as_slice())
    }

    /// Whether a task with this number is one of them.
    pub fn has_number(&self, number: u64) -> bool
        ensures { result ≡ has_stuck_number self.now number }
    {
        let likely = likely_place(&self.tasks, number);
        if is_at(&self.tasks, number, likely) {
            return true;
        }
        is_at(&self.tasks, number, first_from(&self.tasks, number))
    }
}
