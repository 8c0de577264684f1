// The tasks that wait at one phaser.
ghost use Rattle.std.specs.Prelude.{◌≡◌, ℕ, ◌<◌, ◌≤◌, ◌⊎◌, [], Contains, IfOk, IsOk, MatchOption, OnOk, length, slice_index_or};
ghost use Rattle.pl_core.specs.calls.Worlds.{state_of};
ghost use Rattle.run_queue.specs.declared.waiter.Waiter.{Waiter as WaiterValue};
ghost use Rattle.run_queue.specs.inside.WaitQueues.{IsUnreached, LaterFirst, TakesOut};

use crate::waiter::Waiter;
use armus_base::{Event, NoMemory, Phase, PhaserId, TaskId};
use pl_core::World;
use std::alloc::Global;

/// The tasks that wait at one phaser: those that wait for a later phase stand ahead of the others.
#[derive(Drop)]
pub(crate) struct WaitQueue {
    waiters: Vec<Waiter>,
    ghost later_first: { LaterFirst waiters.items },
}

// The place behind all that wait for this phase or a later one.
fn place_behind(waiters: &[Waiter], phase: Phase) -> usize
    requires later_first { LaterFirst waiters.now }
    ensures within { result ≤ length waiters.now }
    ensures ahead { (k : ℕ) (d : WaiterValue) → k < result → phase ≤ (slice_index_or waiters.now k d).phase }
    ensures behind { (k : ℕ) (d : WaiterValue) → result ≤ k → k < length waiters.now → (slice_index_or waiters.now k d).phase ≤ phase }
{
    let mut at = waiters.len();
    'ahead: while at > 0 {
        if phase <= waiters[at - 1].phase {
            return at;
        }
        at -= 1;
    }
    at
}

impl WaitQueue {
    /// Nobody waits.
    pub(crate) fn none(alloc: Global) -> WaitQueue
        ensures { result.waiters.items ≡ [] }
    {
        WaitQueue {
            waiters: Vec::new(alloc),
        }
    }

    /// Puts a task among those that wait. It takes the time of those that wait for an earlier phase.
    pub(crate) fn put(&mut self, waiter: Waiter) -> Result<(), NoMemory>
        ensures there { OnOk result (Contains self.new.waiters.items waiter) }
        ensures stays { (w : WaiterValue) → Contains self.old.waiters.items w → Contains self.new.waiters.items w }
        ensures others { (w : WaiterValue) → Contains self.new.waiters.items w → Contains self.old.waiters.items w ⊎ (w ≡ waiter) }
    {
        let at = place_behind(&self.waiters, waiter.phase);
        self.waiters.insert(at, waiter)?;
        Ok(())
    }

    /// Takes out a task whose event is reached; None exactly where there is none.
    pub(crate) fn take_reached(&mut self, world: &World, p: PhaserId) -> Option<TaskId>
        requires phaser { p.0 < length world.now.plan.makers }
        ensures { MatchOption result
            ((self.new ≡ self.old) × ((w : WaiterValue) → Contains self.old.waiters.items w → IsUnreached (state_of world.now) p.0 w))
            (λ t. TakesOut self.old.waiters.items self.new.waiters.items t) }
    {
        let len = self.waiters.len();
        if len == 0 {
            return None;
        }
        let last = self.waiters[len - 1];
        if !world.is_reached(Event { p, n: last.phase }) {
            return None;
        }
        self.waiters.truncate(len - 1);
        Some(last.task)
    }
}
