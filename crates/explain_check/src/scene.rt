// What is known of the first fault of an unfolding.

use armus_base::{List, PhaserId, TaskId};
use pl_plan::CheckFault;

/// A task, and the name at the `newTid` that drew it. Task 0, which none draws, has the empty name.
#[derive(Drop)]
pub struct NamedTask {
    pub t: TaskId,
    pub name: List<u8>,
}

/// A phaser, and the name at the `newPhaser` that made it.
#[derive(Drop)]
pub struct NamedPhaser {
    pub p: PhaserId,
    pub name: List<u8>,
}

/// A statement that has the name of a task or a phaser.
#[derive(Clone, Copy, Debug, PartialEq, Eq)]
pub enum Verb {
    Fork,
    Reg,
    Dereg,
    Adv,
    Await,
}

/// A loop, by the number of its statement, and a turn of it, from 1.
#[derive(Clone, Copy, Debug, PartialEq, Eq)]
pub struct LoopTurn {
    pub statement: u32,
    pub turn: u32,
}

/// What is wrong at a fault. Statements are told by their numbers.
#[derive(Drop)]
pub enum Matter {
    /// The name stands for nothing.
    UnknownName {
        name: List<u8>,
    },
    /// The name stands for this phaser, which this statement made, and a task is wanted.
    TaskWanted {
        name: List<u8>,
        verb: Verb,
        phaser: NamedPhaser,
        made: u32,
    },
    /// The name stands for this task, which this statement drew, and a phaser is wanted.
    PhaserWanted {
        name: List<u8>,
        verb: Verb,
        task: NamedTask,
        drawn: u32,
    },
    /// The current task has left this phaser by this statement.
    HasLeft {
        phaser: NamedPhaser,
        left: u32,
    },
    /// The current task never was a member of this phaser.
    NeverMember {
        phaser: NamedPhaser,
    },
    /// The task is a member of the phaser already, registered by this statement.
    AlreadyMember {
        task: NamedTask,
        phaser: NamedPhaser,
        registered: u32,
    },
    /// The current task did not draw this task: another one did, by this statement.
    NotDrawnHere {
        task: NamedTask,
        by: NamedTask,
        drawn: u32,
    },
    /// The task is forked already, by this statement.
    AlreadyForked {
        task: NamedTask,
        forked: u32,
    },
    /// No task more may be.
    TooManyTasks,
    /// No phaser more may be.
    TooManyPhasers,
    /// No op more may be.
    TooManyOps,
    /// No op more may be, and at its end the current task has to leave this phaser.
    TooManyOpsAtEnd {
        phaser: NamedPhaser,
    },
    /// No visit more may be.
    TooManyVisits,
    /// So many tasks and phasers would have too many cells.
    TooManyCells {
        tasks: u32,
        phasers: u32,
    },
}

/// The first fault of a program's unfolding, and what is known of it.
#[derive(Drop)]
pub struct Scene {
    pub fault: CheckFault,
    /// The current task.
    pub task: NamedTask,
    /// The number of the statement that forked the current task; 0 for task 0.
    pub forked: u32,
    /// The loops that stand around the statement of the fault, in the code of the current task, from outside in.
    pub turns: List<LoopTurn>,
    /// What is wrong.
    pub matter: Matter,
}
