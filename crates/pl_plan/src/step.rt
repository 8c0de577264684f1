// Programs as flat steps.

use armus_base::{Offset, PhaserId, TaskId};

/// The number of a name, in the order of first sight.
#[derive(Clone, Copy, Debug)]
pub struct NameId(pub u32);

/// A statement: the step with index i is that with number i + 1. What stands after a body begins at `after`. A loop knows whether its body is steady.
#[derive(Clone, Copy, Debug)]
pub enum FlatStep {
    NewTask { x: NameId },
    NewPhaser { x: NameId },
    Fork { x: NameId, after: u32 },
    Reg { x: NameId, y: NameId },
    Dereg { x: NameId },
    Adv { x: NameId },
    Await { x: NameId, off: Offset },
    Skip,
    Loop { k: u16, after: u32, steady: bool },
}

/// What a name stands for.
#[derive(Clone, Copy, Debug)]
pub enum Thing {
    Nothing,
    Task(TaskId),
    Phaser(PhaserId),
}
