// The phases of all tasks, op by op.
ghost use Rattle.std.specs.Prelude.{◌≡◌, ◌+◌, ◌<◌, ◌^◌, ℕ, IfOk, None, Some, length, replicate, slice_set};
ghost use Rattle.armus_base.specs.States.{next_phase, with_phase};
ghost use Rattle.pl_core.specs.inside.Ops.{action_of, phases_moved};
ghost use Rattle.explain_facts.specs.inside.PhaseRows.{HasRowCell, HaveRowCells, HasRowRoom, KeepsRowCells, phases_in_rows};

use armus_base::{NoMemory, Op, Phase, PhaserId, Plan, TaskId};
use std::alloc::Global;

/// The phases of all tasks: a row for each task, with its phase on each phaser of which it is a member.
#[derive(Drop)]
pub(crate) struct PhaseRows {
    rows: Vec<Vec<Option<Phase>>>,
}

// One phase more.
fn raised(phase: Option<Phase>) -> Option<Phase>
    requires { (n : ℕ) → phase ≡ Some n → n + 1 < 2 ^ 32 }
    ensures { result ≡ next_phase phase }
{
    match phase {
        Some(n) => Some(n + 1),
        None => None,
    }
}

// A row of a task that is a member of none of so many phasers.
fn no_phases(alloc: Global, phasers: u32) -> Result<Vec<Option<Phase>>, NoMemory>
    ensures { IfOk result (λ row. row.items ≡ replicate phasers None) }
{
    let mut row = Vec::with_capacity(alloc, phasers as usize)?;
    for _ in 0..phasers {
        row.push(None)?;
    }
    Ok(row)
}

// Makes this the phase at a place of a row.
fn set_in_row(row: &mut Vec<Option<Phase>>, at: usize, phase: Option<Phase>)
    requires { at < length row.old.items }
    ensures { row.new.items ≡ slice_set row.old.items at phase }
{
    row[at] = phase;
}

impl PhaseRows {
    /// A row for each task of a plan, where none is a member of anything.
    pub(crate) fn none(alloc: Global, plan: &Plan) -> Result<PhaseRows, NoMemory>
        ensures cells { IfOk result (λ p. HaveRowCells (length plan.now.parents) (length plan.now.makers) p) }
        ensures none { IfOk result (λ p. phases_in_rows p ≡ (λ _ _. None)) }
    {
        let mut rows = Vec::with_capacity(alloc, plan.tasks() as usize)?;
        for _ in 0..plan.tasks() {
            rows.push(no_phases(alloc, plan.phasers())?)?;
        }
        Ok(PhaseRows { rows })
    }

    /// The phase of a task on a phaser, if it is a member there.
    pub(crate) fn get(&self, t: TaskId, p: PhaserId) -> Option<Phase>
        ensures { result ≡ phases_in_rows self.now t.0 p.0 }
    {
        match self.rows.get(t.0 as usize) {
            Some(row) => match row.get(p.0 as usize) {
                Some(phase) => *phase,
                None => None,
            },
            None => None,
        }
    }

    // Makes this the phase of a task on a phaser.
    fn set(&mut self, t: TaskId, p: PhaserId, phase: Option<Phase>)
        requires cell { HasRowCell self.old t.0 p.0 }
        ensures cells { KeepsRowCells self.old self.new }
        ensures set { phases_in_rows self.new ≡ with_phase (phases_in_rows self.old) t.0 p.0 phase }
    {
        set_in_row(&mut self.rows[t.0 as usize], p.0 as usize, phase);
    }

    /// The phases after a task has begun this op.
    pub(crate) fn begin(&mut self, t: TaskId, op: Op)
        requires room { HasRowRoom self.old t.0 op }
        ensures cells { KeepsRowCells self.old self.new }
        ensures moved { phases_in_rows self.new ≡ phases_moved (phases_in_rows self.old) t.0 (action_of op) }
    {
        match op {
            Op::Make { p } => self.set(t, p, Some(0)),
            Op::Reg { c, p } => {
                let phase = self.get(t, p);
                self.set(c, p, phase);
            }
            Op::Adv { p } => {
                let phase = self.get(t, p);
                self.set(t, p, raised(phase));
            }
            Op::Drop { p } => self.set(t, p, None),
            Op::Fork { c: _ } => {}
            Op::Await { p: _, off: _ } => {}
        }
    }
}
