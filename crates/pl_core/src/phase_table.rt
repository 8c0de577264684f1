// The phases of all tasks, phaser by phaser.
ghost use Rattle.std.specs.Prelude.{◌≡◌, ◌↔◌, ℕ, ◌<◌, ◌≤◌, ◌^◌, None, Some, IfOk, IsTrue, length, vec_len};

use crate::enrolling::{members_of_phasers, phasers_of_tasks};
use crate::members::Members;
use armus_base::{NoMemory, Plan};
use std::alloc::Global;

// For each phaser its members: as many cells as there are tasks that the plan makes members of it.
#[derive(Drop)]
pub(crate) struct MemberTable {
    phasers: usize,
    rows: Vec<Members>,
    ghost sized: { vec_len rows ≡ phasers },
}

impl MemberTable {
    ghost use Rattle.armus_base.specs.States.{updated, with_phase};
    ghost use Rattle.pl_core.specs.inside.Behind.{IsNextBelow};
    ghost use Rattle.pl_core.specs.inside.Enrolling.{HasCells};
    ghost use Rattle.pl_core.specs.inside.PhaseTables.{HasCell, KeepsCells, phases_in};

    /// The table for a plan, in which no task is a member of anything.
    pub(crate) fn of(alloc: Global, plan: &Plan) -> Result<MemberTable, NoMemory>
        ensures phasers { IfOk result (λ table. table.phasers ≡ length plan.now.makers) }
        ensures empty { IfOk result (λ table. phases_in table ≡ (λ _ _. None)) }
        ensures cells { IfOk result (λ table. HasCells plan.now table) }
    {
        let enrolled = phasers_of_tasks(alloc, plan)?;
        let phasers = plan.phasers() as usize;
        let rows = members_of_phasers(alloc, &enrolled, phasers)?;
        Ok(MemberTable { phasers, rows })
    }

    /// The phase of task `t` on phaser `p`.
    pub(crate) fn get(&self, t: usize, p: usize) -> Option<u32>
        requires task { t < 2 ^ 32 }
        requires phaser { p < self.now.phasers }
        ensures phase { result ≡ phases_in self.now t p }
    {
        self.rows[p].get(t as u32)
    }

    /// Sets the phase of task `t` on phaser `p`.
    pub(crate) fn set(&mut self, t: usize, p: usize, phase: Option<u32>)
        requires task { t < 2 ^ 32 }
        requires phaser { p < self.old.phasers }
        requires cell { (n : ℕ) → phase ≡ Some n → HasCell self.old t p }
        ensures phasers { self.new.phasers ≡ self.old.phasers }
        ensures set { phases_in self.new ≡ with_phase (phases_in self.old) t p phase }
        ensures cells { KeepsCells self.old self.new }
    {
        self.rows[p].set(t as u32, phase);
    }

    /// Takes task `t` off all phasers.
    pub(crate) fn clear(&mut self, t: usize)
        requires task { t < 2 ^ 32 }
        ensures phasers { self.new.phasers ≡ self.old.phasers }
        ensures cleared { phases_in self.new ≡ updated (phases_in self.old) t (λ _. None) }
        ensures cells { KeepsCells self.old self.new }
    {
        for p in 0..self.phasers {
            self.set(t, p, None);
        }
    }

    /// The first task from `from` on that is a member of phaser `p` with a phase below `n`.
    pub(crate) fn next_behind(&self, p: usize, from: u32, n: u32) -> Option<u32>
        requires phaser { p < self.now.phasers }
        ensures { IsNextBelow (λ u. phases_in self.now u p) n from result }
    {
        self.rows[p].next_behind(from, n)
    }

    /// Whether each member of phaser `p` has phase `n` at least.
    pub(crate) fn is_reached(&self, p: usize, n: u32) -> bool
        requires phaser { p < self.now.phasers }
        ensures { IsTrue result ↔ ((u m : ℕ) → phases_in self.now u p ≡ Some m → n ≤ m) }
    {
        self.rows[p].is_reached(n)
    }
}
