// The state as a final one.
ghost use Rattle.std.specs.Prelude.{◌≡◌, ℕ, ◌<◌, Some, IfOk, OnOk, length};
ghost use Rattle.armus_base.specs.CheckedPlans.{IsCheckedPlan};
ghost use Rattle.armus_base.specs.Runs.{IsReachable};
ghost use Rattle.pl_core.specs.calls.Worlds.{state_of, places_of};
ghost use Rattle.pl_core.specs.calls.Stands.{IsEnabled};
ghost use Rattle.armus_base.specs.Finals.{end_of, final_of, list_below};

use super::World;
use crate::task::task_at;
use armus_base::{Final, List, NoMemory, TaskEnd, TaskId};
use std::alloc::Global;

impl<'p> World<'p> {
    /// The state as a final one: how each task has ended, and the status of each blocked task with its phases on the phasers that some blocked task awaits.
    pub fn finish(&self, alloc: Global) -> Result<Final, NoMemory>
        requires quiet { (t : ℕ) → t < length self.now.plan.parents → IsEnabled self.now t → ⊥ }
        ensures end { IfOk result (λ end. end ≡ final_of self.now.plan (state_of self.now)) }
        ensures checked { OnOk result (IsCheckedPlan self.now.plan) }
        ensures reachable { OnOk result (IsReachable self.now.plan (places_of self.now)) }
    {
        let blocked = self.awaited_statuses(alloc, None)?;
        let ends = self.ends(alloc)?;
        Ok(Final {
            ends: List::from_vec(ends),
            blocked,
        })
    }

    // How a task has ended.
    fn end(&self, t: TaskId) -> TaskEnd
        requires task { t.0 < length self.now.plan.parents }
        ensures { result ≡ end_of (state_of self.now) t.0 }
    {
        let task = task_at(&self.tasks, t.0 as usize);
        match task.event {
            Some(event) => {
                if task.place.refused {
                    TaskEnd::Refused(event)
                } else {
                    TaskEnd::Blocked(event)
                }
            }
            None => {
                if task.forked {
                    TaskEnd::Done
                } else {
                    TaskEnd::Unforked
                }
            }
        }
    }

    // How each task has ended.
    fn ends(&self, alloc: Global) -> Result<Vec<TaskEnd>, NoMemory>
        ensures ends { IfOk result (λ list. list.items ≡ list_below (end_of (state_of self.now)) (length self.now.plan.parents)) }
        ensures checked { IsCheckedPlan self.now.plan }
        ensures reachable { IsReachable self.now.plan (places_of self.now) }
    {
        let mut ends = Vec::new(alloc);
        for t in 0..self.plan.tasks() {
            ends.push(self.end(TaskId(t)))?;
        }
        Ok(ends)
    }
}
