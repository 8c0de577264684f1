// What is known of the tasks of a text.

use crate::names::GivenNames;
use armus_base::{Event, List, Offset, PhaserId, TaskId};
use source_map::TextPlace;

/// What is known of the tasks and the phasers of a text.
#[derive(Drop)]
pub struct Account {
    /// Of each task, in order of number.
    pub tasks: List<TaskAccount>,
    /// Where each phaser is made, in order of number: the place of its `newPhaser`.
    pub phasers: List<TextPlace>,
    /// Their names.
    pub names: GivenNames,
    /// The awaits at which nobody ever has to wait, in order of their places.
    pub immediate: List<ImmediateAwait>,
}

/// What is known of a task.
#[derive(Drop)]
pub struct TaskAccount {
    /// Who draws it; none for task 0.
    pub drawn: Option<Drawn>,
    /// Who forks it; none for task 0, and for a task that no op forks.
    pub fork: Option<Forked>,
    /// Where its code ends; none for a task that no op forks.
    pub ended: Option<CodeEnd>,
    /// Where it waits; none for a task that does not wait.
    pub wait: Option<Waiting>,
    /// What it does next to each phaser that the rest of its code advances or leaves, in order of the phasers' numbers.
    pub nexts: List<NextOp>,
}

/// Where a task is drawn.
#[derive(Drop)]
pub struct Drawn {
    /// The place of its `newTid`.
    pub at: TextPlace,
    /// The name that stands before it.
    pub name: List<u8>,
}

/// Where a task is forked.
#[derive(Clone, Copy)]
pub struct Forked {
    /// The place of its fork.
    pub at: TextPlace,
    /// The task whose code has the fork.
    pub by: TaskId,
}

/// Where the code of a task ends.
#[derive(Clone, Copy)]
pub struct CodeEnd {
    /// The place of the brace that closes the body of its fork; for task 0 that of the end of the text.
    pub at: TextPlace,
    /// The place of the statement of its last visit, which for a turn of a loop is the loop; none where it makes no visit.
    pub last: Option<TextPlace>,
}

/// Where a task waits.
#[derive(Drop)]
pub struct Waiting {
    /// The place of its await.
    pub at: TextPlace,
    /// The await as it is printed, without the semicolon.
    pub words: List<u8>,
    /// What it waits for.
    pub event: Event,
    /// Its own phase on the event's phaser.
    pub phase: u32,
    /// In which turn of each loop around the await it came to it, from outside in.
    pub turns: List<Turn>,
}

/// An await at which nobody ever has to wait, whatever the order.
#[derive(Drop)]
pub struct ImmediateAwait {
    /// Its place.
    pub at: TextPlace,
    /// The await as it is printed, without the semicolon.
    pub words: List<u8>,
    /// How far it looks back or ahead.
    pub off: Offset,
}

/// A turn of a loop.
#[derive(Clone, Copy)]
pub struct Turn {
    /// The number of the turn, from 1.
    pub turn: u32,
    /// The place of the loop.
    pub at: TextPlace,
}

/// What an op does to its phaser.
#[derive(Clone, Copy, Debug, PartialEq, Eq)]
pub enum Doing {
    /// It adds one to the task's phase there.
    Advances,
    /// The task leaves the phaser.
    Leaves,
}

/// The op with which a task next advances or leaves a phaser.
#[derive(Clone, Copy, Debug, PartialEq, Eq)]
pub struct NextOp {
    /// The phaser.
    pub p: PhaserId,
    /// What the op does to it.
    pub does: Doing,
    /// The place of the statement from which the op comes; for an op with which the task leaves at its end, as it does in PL 2, the place at which it ends.
    pub at: TextPlace,
}
