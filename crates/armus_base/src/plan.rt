// Plans: what runs.
ghost use Rattle.std.specs.Prelude.{◌≡◌, ◌<◌, ◌↔◌, None, Some, length, slice_get, sum_by};
ghost use Rattle.armus_base.specs.calls.Pieces.{IsFolded, unfolded};
ghost use Rattle.armus_base.specs.Plans.{code_of};
ghost use Rattle.armus_base.specs.calls.Plans.{folded_plan, pieces_of};
ghost use Rattle.armus_base.specs.CheckedPlans.{IsCheckedPlan};

use crate::{Code, Cursor, List, PhaserId, Piece, TaskId};
use std::marker::Model;

/// The most tasks that a plan may have, task 0 counted.
pub const MAX_TASKS: u32 = 4096;

/// The most phasers that a plan may have.
pub const MAX_PHASERS: u32 = 1024;

/// The most ops that the codes of a plan may have together.
pub const MAX_OPS: u32 = 1_048_576;

/// The most that the tasks of a plan times one more than its phasers may be: a board has a word for each task and one for each task on each phaser.
pub const MAX_CELLS: u32 = 1_048_576;

/// The most phases that an await may look back or ahead: the greatest number of a text.
pub const MAX_OFFSET: u32 = 65_535;

/// A checked plan: the parent of each task, the maker of each phaser, and each task's code, which is kept folded. Contracts see both the codes and
/// their pieces. Nothing in it depends on a schedule (this project's own).
#[derive(Drop)]
pub struct Plan {
    parents: List<Option<TaskId>>,
    makers: List<TaskId>,
    codes: List<Code>,
}

impl Model for Plan {
    ghost use Rattle.armus_base.specs.Plans.{Plan as PlanValue};
    ghost use Rattle.armus_base.specs.calls.Plans.{folded_plan};
    ghost use Rattle.armus_base.specs.CheckedPlans.{IsCheckedPlan};

    ghost Value = { PlanValue };

    ghost view = { λ p. folded_plan p.parents p.makers p.codes };

    ghost invariant = { λ p. IsCheckedPlan (folded_plan p.parents p.makers p.codes) };
}

impl Plan {
    /// The plan with these parts; it takes no memory.
    pub fn from_parts(
        parents: List<Option<TaskId>>,
        makers: List<TaskId>,
        codes: List<Code>,
    ) -> Plan
        requires checked { IsCheckedPlan (folded_plan parents makers codes) }
        ensures parts { result ≡ folded_plan parents makers codes }
    {
        Plan {
            parents,
            makers,
            codes,
        }
    }

    /// How many tasks it has, 1 to `MAX_TASKS`.
    pub fn tasks(&self) -> u32
        ensures counted { result ≡ length self.now.parents }
        ensures checked { IsCheckedPlan self.now }
    {
        self.parents.as_slice().len() as u32
    }

    /// How many phasers it has, at most `MAX_PHASERS`.
    pub fn phasers(&self) -> u32
        ensures counted { result ≡ length self.now.makers }
        ensures checked { IsCheckedPlan self.now }
    {
        self.makers.as_slice().len() as u32
    }

    /// How many ops its codes have together, at most `MAX_OPS`.
    pub fn ops(&self) -> u32
        ensures counted { result ≡ sum_by length self.now.codes }
        ensures checked { IsCheckedPlan self.now }
    {
        let mut ops = 0;
        for code in self.codes.as_slice() {
            ops += code.ops();
        }
        ops as u32
    }

    /// The task that draws `t`; None exactly for task 0.
    pub fn parent(&self, t: TaskId) -> Option<TaskId>
        requires task { t.0 < length self.now.parents }
        ensures parent { slice_get self.now.parents t.0 ≡ Some result }
        ensures root { result ≡ None ↔ t.0 ≡ 0 }
    {
        self.parents.as_slice()[t.0 as usize]
    }

    /// The task whose code makes `p`.
    pub fn maker(&self, p: PhaserId) -> TaskId
        requires phaser { p.0 < length self.now.makers }
        ensures maker { slice_get self.now.makers p.0 ≡ Some result }
    {
        self.makers.as_slice()[p.0 as usize]
    }

    /// The pieces of `t`, which are folded and stand for its ops.
    pub fn pieces(&self, t: TaskId) -> &[Piece]
        requires task { t.0 < length self.now.parents }
        ensures pieces { result.now ≡ pieces_of self.now t.0 }
        ensures folded { IsFolded result.now }
        ensures stands { unfolded result.now ≡ code_of self.now t.0 }
    {
        self.codes.as_slice()[t.0 as usize].pieces()
    }

    /// A cursor at the first op of `t`; it takes no memory.
    pub fn cursor(&self, t: TaskId) -> Cursor<'_>
        requires task { t.0 < length self.now.parents }
        ensures code { result ≡ code_of self.now t.0 }
    {
        Cursor::start(self.pieces(t))
    }
}
