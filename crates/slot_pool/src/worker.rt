// A worker of a pool.
ghost use Rattle.std.specs.Prelude.{◌≡◌, ℕ, ◌<◌, List, [], ◌∷◌, Contains};
ghost use Rattle.std.specs.Vec.{vec_capacity};
ghost use Rattle.slot_pool.specs.calls.Views.{giving};
ghost use Rattle.slot_pool.specs.calls.PoolValues.{AnswersClaim, AnswersPlace, IsOfPool, IsSameWorker, has_after, seeing};
ghost use Rattle.slot_pool.specs.inside.Workers.{HasRoom, IsAtWork, hand_of};

use crate::claim::Claim;
use crate::named::Named;
use crate::plays::{BeginsStep, Claims, GivesStep};
use crate::pool::Pool;
use crate::rule::PoolSeat;
use armus_base::TaskId;
use std::marker::Model;

/// Who claims records, and puts and places them. Contracts see of which pool it is, and what it knows.
#[derive(Drop)]
pub struct Worker<R: Named> {
    place: PoolSeat<R>,
    number: u32,
    // What `close` answers is written here: worker 0 has room for all of it. The pool, which threads share, has none, so that R need not be Sync.
    entries: Vec<Option<R>>,
}

impl<R: Named> Model for Worker<R> {
    ghost use Rattle.slot_pool.specs.calls.PoolValues.{WorkerValue};

    ghost Value = { WorkerValue };

    ghost use Rattle.std.specs.Vec.{vec_capacity};
    ghost use Rattle.slot_pool.specs.inside.Workers.{HasRoom, IsAtWork, hand_of};

    ghost view = { λ w. hand_of w.place.table_id w.place.me };

    ghost invariant = { λ w. IsAtWork w.place.table_id.words w.number w.place.me × HasRoom w.place.table_id.words w.number w.entries.items (vec_capacity w.entries) };
}

impl<R: Named> Worker<R> {
    pub(crate) fn of(place: PoolSeat<R>, number: u32, entries: Vec<Option<R>>) -> Worker<R>
        requires work { IsAtWork place.table_id.words number place.me }
        requires room { HasRoom place.table_id.words number entries.items (vec_capacity entries) }
        ensures { result ≡ hand_of place.table_id place.me }
    {
        Worker {
            place,
            number,
            entries,
        }
    }

    pub(crate) fn into_parts(self) -> (PoolSeat<R>, Vec<Option<R>>)
        ensures place { hand_of result.0.table_id result.0.me ≡ self }
        ensures slots { self.view.has ≡ [] → result.0.me.1 ≡ [] }
        ensures number { (k : ℕ) × (self.view.numbers ≡ k ∷ []) × HasRoom self.table.words k result.1.items (vec_capacity result.1) }
    {
        let Worker {
            place,
            number: _,
            entries,
        } = self;
        (place, entries)
    }

    /// Claims the record of task `t`, by one compare and exchange, for a worker that has nothing. Got where the record was at home then: the worker has it
    /// until it puts it back. Held where another worker had it, or was placing it, and `by` is that worker's number. Empty where nobody had placed one, so
    /// never where the worker knows the task. It takes no memory.
    pub fn claim(&mut self, pool: &Pool<R>, t: TaskId) -> Claim<R>
        requires made { IsOfPool self.old pool.now }
        requires task { t.0 < pool.now.tasks }
        requires nothing { self.old.view.has ≡ [] }
        ensures answer { AnswersClaim R.number t.0 self.old self.new result }
        ensures has { self.new.view.has ≡ has_after t.0 result }
        ensures same { IsSameWorker self.old self.new }
    {
        let mine = u64::from(self.number) + 2;
        let slot = t.0 as usize;
        let found = pool
            .slots
            .shared
            .compare_exchange::<Claims<R>>(&mut self.place, slot, 1, mine);
        if found == 0 {
            return Claim::Empty;
        }
        if found != 1 {
            let by = (found - 2) as u32;
            return Claim::Held { by };
        }
        match pool.slots.shared.exchange(&mut self.place, slot, None) {
            Some(item) => Claim::Got(item),
            None => unreachable!(),
        }
    }

    /// The record that the worker has goes home. It takes no memory.
    pub fn put(&mut self, pool: &Pool<R>, item: R)
        requires made { IsOfPool self.old pool.now }
        requires has { self.old.view.has ≡ R.number item ∷ [] }
        ensures home { self.new ≡ seeing self.old (giving (R.number item) self.old.view) }
        ensures nothing { self.new.view.has ≡ [] }
        ensures same { IsSameWorker self.old self.new }
    {
        self.give(pool, item.id().0 as usize, item);
    }

    /// The first record of a task goes home, by one compare and exchange. Err where the task was placed before then: the record comes back, and nothing in
    /// the pool has changed. Either way the worker knows the task from now on, and what it had it still has. It takes no memory.
    pub fn place(&mut self, pool: &Pool<R>, item: R) -> Result<(), R>
        requires made { IsOfPool self.old pool.now }
        requires task { R.number item < pool.now.tasks }
        ensures answer { AnswersPlace (R.number item) item self.old self.new result }
        ensures has { self.new.view.has ≡ self.old.view.has }
        ensures knows { Contains self.new.view.knows (R.number item) }
        ensures same { IsSameWorker self.old self.new }
    {
        let mine = u64::from(self.number) + 2;
        let slot = item.id().0 as usize;
        let found = pool
            .slots
            .shared
            .compare_exchange::<BeginsStep>(&mut self.place, slot, 0, mine);
        if found != 0 {
            return Err(item);
        }
        self.give(pool, slot, item);
        Ok(())
    }

    // The slot that the worker took last gets the record, and is at home.
    fn give(&mut self, pool: &Pool<R>, slot: usize, item: R)
        requires made { IsOfPool self.old pool.now }
        requires slot { slot ≡ R.number item }
        requires has { (others : List ℕ) × (self.old.view.has ≡ R.number item ∷ others) × (Contains others (R.number item) → ⊥) }
        ensures { self.new ≡ seeing self.old (giving (R.number item) self.old.view) }
    {
        let shared = &pool.slots.shared;
        let before = shared.exchange(&mut self.place, slot, Some(item));
        let None = before else { unreachable!() };
        shared.store::<GivesStep>(&mut self.place, slot, 1);
    }
}
