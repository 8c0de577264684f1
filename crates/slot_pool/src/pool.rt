// The slots of a pool.
ghost use Rattle.std.specs.Prelude.{◌≡◌, ℕ, ◌≤◌, ◌<◌, [], All, IfErr, IfOk};
ghost use Rattle.armus_base.specs.calls.Limits.{max_workers};
ghost use Rattle.armus_base.specs.Limits.{max_tasks};
ghost use Rattle.slot_pool.specs.calls.Closing.{AreHome};
ghost use Rattle.slot_pool.specs.calls.PoolValues.{IsNumberOf, IsOfPool, IsPlacedBy, first_workers};

use crate::gathering::{gather, take_all};
use crate::named::Named;
use crate::opening::open;
use crate::parting::part;
use crate::room::NoRoom;
use crate::rule::Slots;
use crate::setting::PoolSetting;
use crate::worker::Worker;
use armus_base::List;
use std::alloc::Global;
use std::marker::Model;

/// For each task a word and a slot: the slots hold the records that no worker has. Threads share it without a lock (this project's own).
#[derive(Drop)]
pub struct Pool<R: Named> {
    pub(crate) slots: Slots<R>,
    setting: PoolSetting,
}

impl<R: Named> Model for Pool<R> {
    ghost use Rattle.slot_pool.specs.calls.PoolValues.{PoolValue};

    ghost Value = { PoolValue };

    ghost use Rattle.slot_pool.specs.inside.Pools.{IsPool, pool_of};

    ghost view = { λ p. pool_of p.slots.shared.table_id p.setting };

    ghost invariant = { λ p. IsPool p.slots.shared.table_id p.slots.shared.key p.setting };
}

impl<R: Named> Pool<R> {
    /// A pool of 1 to 4,096 tasks and 1 to 64 workers: the first record, which is of task 0, is at home, and the workers come in order of number, each of
    /// which knows task 0. NoRoom is want of memory alone, and hands the record back.
    pub fn start(
        alloc: Global,
        tasks: u32,
        workers: u32,
        first: R,
    ) -> Result<(Pool<R>, List<Worker<R>>), NoRoom<R>>
        requires tasks { (1 ≤ tasks) × (tasks ≤ max_tasks) }
        requires workers { (1 ≤ workers) × (workers ≤ max_workers) }
        requires first { R.number first ≡ 0 }
        ensures pool { IfOk result (λ r. (r.0.tasks ≡ tasks) × (r.0.workers ≡ workers)) }
        ensures workers { IfOk result (λ r. r.1 ≡ first_workers r.0) }
        ensures err { IfErr result (λ e. e.item ≡ first) }
    {
        let Ok(hands) = Vec::with_capacity(alloc, workers as usize) else {
            return Err(NoRoom { item: first });
        };
        let Ok(entries) = Vec::with_capacity(alloc, tasks as usize) else {
            hands.destroy_empty();
            return Err(NoRoom { item: first });
        };
        let setting = PoolSetting { tasks, workers };
        match open(alloc, &setting, first) {
            Ok((slots, place)) => {
                let pool = Pool { slots, setting };
                let hands = part(alloc, &pool, workers, place, entries, hands);
                Ok((pool, List::from_vec(hands)))
            }
            Err(room) => {
                hands.destroy_empty();
                entries.destroy_empty();
                Err(room)
            }
        }
    }

    /// Ends a pool of which these are all workers, and none has a record. It answers an entry for each task: the record that was placed of it, or None. It
    /// takes no memory. A pool of which a worker was dropped cannot be closed so; it can be dropped.
    pub fn close(self, workers: List<Worker<R>>) -> List<Option<R>>
        requires made { All (λ w. IsOfPool w self) workers }
        requires all_workers { (k : ℕ) → k < self.workers → IsNumberOf workers k }
        requires nothing { All (λ w. w.view.has ≡ []) workers }
        ensures home { AreHome R.number self.tasks (IsPlacedBy workers) result }
    {
        let (place, entries) = gather(&self, workers.into_vec());
        let Pool { slots, setting: _ } = self;
        List::from_vec(take_all(slots.close_with(place), entries))
    }
}
