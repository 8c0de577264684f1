// The workers' seats become one, and the slots are emptied.
ghost use Rattle.std.specs.Prelude.{◌≡◌, ℕ, ◌≤◌, ◌<◌, [], All};
ghost use Rattle.std.specs.Vec.{vec_capacity};
ghost use Rattle.std.specs.Mem.Slots.{slots_items, slots_len, IsFull};
ghost use Rattle.slot_pool.specs.inside.Gathering.{Gathers};
ghost use Rattle.slot_pool.specs.inside.Workers.{HasRoom};
ghost use Rattle.slot_pool.specs.calls.PoolValues.{IsNumberOf, IsOfPool};

use crate::named::Named;
use crate::plays::Joins;
use crate::pool::Pool;
use crate::rule::PoolSeat;
use crate::worker::Worker;
use atomic_table::Closed;
use std::alloc::Global;

// The one of two empty vectors that has more room.
fn wider<R>(one: Vec<R>, other: Vec<R>) -> Vec<R>
    requires { (one.items ≡ []) × (other.items ≡ []) }
    ensures empty { result.items ≡ [] }
    ensures room { (vec_capacity one ≤ vec_capacity result) × (vec_capacity other ≤ vec_capacity result) }
{
    if one.capacity() < other.capacity() {
        one.destroy_empty();
        other
    } else {
        other.destroy_empty();
        one
    }
}

// One seat with what all workers know and have placed, and the room that worker 0 has.
pub(crate) fn gather<R: Named>(
    pool: &Pool<R>,
    mut workers: Vec<Worker<R>>,
) -> (PoolSeat<R>, Vec<Option<R>>)
    requires made { All (λ w. IsOfPool w pool.now) workers.items }
    requires idle { All (λ w. w.view.has ≡ []) workers.items }
    requires first { IsNumberOf workers.items 0 }
    ensures table { result.0.table_id ≡ pool.now.table }
    ensures slots { result.0.me.1 ≡ [] }
    ensures view { Gathers workers.items result.0.me.0 }
    ensures room { HasRoom pool.now.table.words 0 result.1.items (vec_capacity result.1) }
{
    let Some(last) = workers.pop() else {
        unreachable!()
    };
    let (mut place, mut entries) = last.into_parts();
    while let Some(worker) = workers.pop() {
        let (other, room) = worker.into_parts();
        pool.slots.shared.join_seat::<Joins>(&mut place, other);
        entries = wider(entries, room);
    }
    workers.destroy_empty();
    (place, entries)
}

// What the slots of a closed table hold, in order.
pub(crate) fn take_all<R>(
    mut closed: Closed<Option<R>, Global>,
    mut entries: Vec<Option<R>>,
) -> Vec<Option<R>>
    requires full { IsFull closed.words × IsFull closed.slots }
    requires room { (entries.items ≡ []) × (slots_len closed.slots ≤ vec_capacity entries) }
    ensures { result.items ≡ slots_items closed.slots }
{
    for slot in 0..closed.slot_count() {
        entries.push_reserved(closed.take(slot));
    }
    closed.free();
    entries
}
