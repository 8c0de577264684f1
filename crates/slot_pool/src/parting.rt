// The workers part.
ghost use Rattle.std.specs.Prelude.{◌≡◌, ◌≤◌, ◌<◌, []};
ghost use Rattle.std.specs.Vec.{vec_capacity};
ghost use Rattle.armus_base.specs.calls.Limits.{max_workers};
ghost use Rattle.slot_pool.specs.calls.PoolValues.{first_workers};
ghost use Rattle.slot_pool.specs.inside.Views.{opening_view};
ghost use Rattle.slot_pool.specs.inside.Workers.{HasRoom};

use crate::named::Named;
use crate::plays::SplitsWorker;
use crate::pool::Pool;
use crate::rule::PoolSeat;
use crate::worker::Worker;
use std::alloc::Global;
use std::mem;

// The workers of a pool, in order of number. The first has the room for entries.
pub(crate) fn part<R: Named>(
    alloc: Global,
    pool: &Pool<R>,
    workers: u32,
    mut place: PoolSeat<R>,
    mut entries: Vec<Option<R>>,
    mut hands: Vec<Worker<R>>,
) -> Vec<Worker<R>>
    requires workers { (workers ≡ pool.now.workers) × (1 ≤ workers) × (workers ≤ max_workers) }
    requires place { (place.table_id ≡ pool.now.table) × (place.me ≡ (opening_view workers, [])) }
    requires entries { HasRoom pool.now.table.words 0 entries.items (vec_capacity entries) }
    requires room { (hands.items ≡ []) × (workers ≤ vec_capacity hands) }
    ensures { result.items ≡ first_workers pool.now }
{
    let last = workers - 1;
    for number in 0..last {
        let other = pool.slots.shared.split_seat::<SplitsWorker>(&mut place);
        let own = mem::replace(&mut entries, Vec::new(alloc));
        hands.push_reserved(Worker::of(other, number, own));
    }
    hands.push_reserved(Worker::of(place, last, entries));
    hands
}
