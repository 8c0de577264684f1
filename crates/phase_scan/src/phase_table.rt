// The phases of all tasks in one flat table.
ghost use Rattle.std.specs.Prelude.{◌≡◌, ◌<◌, ◌*◌, ◌^◌, None, IfOk, vec_len};

use armus_base::{NoMemory, Phase};
use std::alloc::Global;

// Task by task, the phase on each phaser; None where the task is no member.
#[derive(Drop)]
pub(crate) struct PhaseTable {
    tasks: usize,
    phasers: usize,
    cells: Vec<Option<Phase>>,
    ghost sized: { vec_len cells ≡ tasks * phasers },
}

impl PhaseTable {
    ghost use Rattle.armus_base.specs.States.{with_phase};
    ghost use Rattle.phase_scan.specs.calls.Tables.{phases_in_found};

    /// No task is a member of anything.
    pub(crate) fn new(alloc: Global, tasks: usize, phasers: usize) -> Result<PhaseTable, NoMemory>
        requires fits { tasks * phasers < 2 ^ 32 }
        ensures tasks { IfOk result (λ table. table.tasks ≡ tasks) }
        ensures phasers { IfOk result (λ table. table.phasers ≡ phasers) }
    {
        let cells = vec![in alloc; None; tasks * phasers]?;
        Ok(PhaseTable {
            tasks,
            phasers,
            cells,
        })
    }

    /// The phase of task `t` on phaser `p`.
    pub(crate) fn get(&self, t: usize, p: usize) -> Option<Phase>
        requires task { t < self.now.tasks }
        requires phaser { p < self.now.phasers }
        ensures phase { result ≡ phases_in_found self.now t p }
    {
        self.cells[t * self.phasers + p]
    }

    /// Sets the phase of task `t` on phaser `p`.
    pub(crate) fn set(&mut self, t: usize, p: usize, phase: Option<Phase>)
        requires task { t < self.old.tasks }
        requires phaser { p < self.old.phasers }
        ensures tasks { self.new.tasks ≡ self.old.tasks }
        ensures phasers { self.new.phasers ≡ self.old.phasers }
        ensures set { phases_in_found self.new ≡ with_phase (phases_in_found self.old) t p phase }
    {
        self.cells[t * self.phasers + p] = phase;
    }
}
