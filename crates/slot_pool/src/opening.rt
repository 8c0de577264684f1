// A new table, with the first record at home.
ghost use Rattle.std.specs.Prelude.{◌≡◌, ℕ, ◌+◌, ◌-◌, ◌<◌, ◌≤◌, [], ◌∷◌, Some, None, replicate, slice_get, IfErr, IfOk};
ghost use Rattle.slot_pool.specs.inside.Views.{opening_view};

use crate::named::Named;
use crate::room::NoRoom;
use crate::rule::{PoolSeat, Slots};
use crate::setting::PoolSetting;
use armus_base::NoMemory;
use atomic_table::Refused;
use std::alloc::Global;

// The words: that of task 0 says that its record is at home.
fn opening_words(alloc: Global, tasks: usize) -> Result<Vec<u64>, NoMemory>
    requires { 1 ≤ tasks }
    ensures { IfOk result (λ v. v.items ≡ 1 ∷ replicate (tasks - 1) 0) }
{
    let mut words = Vec::new(alloc);
    words.push(1)?;
    words.resize(tasks, 0)?;
    Ok(words)
}

// The slots, with the first record in that of task 0.
fn opening_slots<R>(alloc: Global, tasks: usize, first: R) -> Result<Vec<Option<R>>, NoRoom<R>>
    requires { 1 ≤ tasks }
    ensures ok { IfOk result (λ v. v.items ≡ Some first ∷ replicate (tasks - 1) None) }
    ensures err { IfErr result (λ e. e.item ≡ first) }
{
    let Ok(mut slots) = Vec::with_capacity(alloc, tasks) else {
        return Err(NoRoom { item: first });
    };
    slots.push_reserved(Some(first));
    for _ in 0..tasks - 1 {
        slots.push_reserved(None);
    }
    Ok(slots)
}

// The first record of slots that found no table.
fn first_of<R>(mut slots: Vec<Option<R>>) -> R
    requires { (first : R) × (others : ℕ) × (slots.items ≡ Some first ∷ replicate others None) }
    ensures { slice_get slots.items 0 ≡ Some (Some result) }
{
    let first = slots.remove(0);
    while let Some(slot) = slots.pop() {
        let None = slot else { unreachable!() };
    }
    slots.destroy_empty();
    match first {
        Some(item) => item,
        None => unreachable!(),
    }
}

// The table, and a seat that is all workers' until they part.
pub(crate) fn open<R: Named>(
    alloc: Global,
    setting: &PoolSetting,
    first: R,
) -> Result<(Slots<R>, PoolSeat<R>), NoRoom<R>>
    requires counts { (1 ≤ setting.now.tasks) × (1 ≤ setting.now.workers) }
    requires first { R.number first ≡ 0 }
    ensures told { IfOk result (λ r. r.0.shared.key ≡ setting.now) }
    ensures counts { IfOk result (λ r. (r.0.shared.table_id.words ≡ setting.now.tasks) × (r.0.shared.table_id.slots ≡ setting.now.tasks)) }
    ensures place { IfOk result (λ r. (r.1.table_id ≡ r.0.shared.table_id) × (r.1.me ≡ (opening_view setting.now.workers, []))) }
    ensures err { IfErr result (λ e. e.item ≡ first) }
{
    let tasks = setting.tasks as usize;
    let Ok(words) = opening_words(alloc, tasks) else {
        return Err(NoRoom { item: first });
    };
    let slots = opening_slots(alloc, tasks, first)?;
    match Slots::<R>::new(alloc, words.as_slice(), slots, setting) {
        Ok(made) => Ok(made),
        Err(Refused { slots }) => Err(NoRoom {
            item: first_of(slots),
        }),
    }
}
