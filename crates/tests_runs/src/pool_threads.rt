// Two workers side by side: a record that is got is nobody else's until it is put back.
ghost use Rattle.std.specs.Prelude.{◌≡◌, ◌<◌, [], ◌∷◌};
ghost use Rattle.slot_pool.specs.calls.PoolValues.{IsOfPool, IsSameWorker};

use armus_base::{List, TaskId};
use slot_pool::{Claim, Named, Pool, Worker};
use std::alloc::Global;
use std::thread::{Threads, join_mut};

// A record of a task, which counts how often it was got.
#[derive(Drop)]
struct Counter {
    task: TaskId,
    count: u32,
}

impl Named for Counter {
    ghost number = { λ c. c.task.0 };

    fn id(&self) -> TaskId {
        self.task
    }
}

// One claim of a task; answers whether it got the record, which has counted it then.
fn get(pool: &Pool<Counter>, worker: &mut Worker<Counter>, task: TaskId) -> bool
    requires made { IsOfPool worker.old pool.now }
    requires task { task.0 < pool.now.tasks }
    requires nothing { worker.old.view.has ≡ [] }
    ensures same { IsSameWorker worker.old worker.new }
    ensures nothing { worker.new.view.has ≡ [] }
{
    let Claim::Got(item) = worker.claim(pool, task) else {
        return false;
    };
    let Counter { task, count } = item;
    let count = count.wrapping_add(1);
    worker.put(pool, Counter { task, count });
    true
}

// So many claims, of two tasks in turn; answers how many of them got a record.
fn work(pool: &Pool<Counter>, worker: &mut Worker<Counter>, claims: u32) -> u32
    requires made { IsOfPool worker.old pool.now }
    requires tasks { pool.now.tasks ≡ 2 }
    requires nothing { worker.old.view.has ≡ [] }
    ensures same { IsSameWorker worker.old worker.new }
    ensures nothing { worker.new.view.has ≡ [] }
{
    let mut got: u32 = 0;
    for claim in 0..claims {
        if get(pool, worker, TaskId(claim % 2)) {
            got = got.wrapping_add(1);
        }
    }
    got
}

// The same by two workers side by side.
fn work_both<R: Threads + Sync>(
    rt: &R,
    pool: &Pool<Counter>,
    first: &mut Worker<Counter>,
    second: &mut Worker<Counter>,
    claims: u32,
) -> u32
    requires first { IsOfPool first.old pool.now × (first.old.view.has ≡ []) }
    requires second { IsOfPool second.old pool.now × (second.old.view.has ≡ []) }
    requires tasks { pool.now.tasks ≡ 2 }
    ensures first { IsSameWorker first.old first.new × (first.new.view.has ≡ []) }
    ensures second { IsSameWorker second.old second.new × (second.new.view.has ≡ []) }
{
    let (one, other) = join_mut(
        rt,
        &mut || -> u32
            requires { IsOfPool first.now pool.now × (pool.now.tasks ≡ 2) × (first.now.view.has ≡ []) }
            ensures { IsSameWorker first.entry.now first.exit.now × (first.exit.now.view.has ≡ []) }
        { work(pool, first, claims) },
        &mut || -> u32
            requires { IsOfPool second.now pool.now × (pool.now.tasks ≡ 2) × (second.now.view.has ≡ []) }
            ensures { IsSameWorker second.entry.now second.exit.now × (second.exit.now.view.has ≡ []) }
        { work(pool, second, claims) },
    );
    one.wrapping_add(other)
}

// A record that was never got.
fn new_counter(task: u32) -> Counter
    ensures { result.task.0 ≡ task }
{
    Counter {
        task: TaskId(task),
        count: 0,
    }
}

// Two workers make so many claims each, of two tasks; whether as many were got as the records were got by their own count.
fn run<R: Threads + Sync>(rt: &R, alloc: Global, claims: u32) -> Option<bool> {
    let Ok((pool, workers)) = Pool::start(alloc, 2, 2, new_counter(0)) else {
        return None;
    };
    let mut workers = workers.into_vec();
    let mut second = workers.pop()?;
    let mut first = workers.pop()?;
    let Ok(()) = first.place(&pool, new_counter(1)) else {
        return None;
    };
    let got = work_both(rt, &pool, &mut first, &mut second, claims);
    let entries = close(alloc, pool, first, second)?;
    Some(got > 0 && counted(entries.as_slice()) == got)
}

// Closes a pool of two workers that have nothing.
fn close(
    alloc: Global,
    pool: Pool<Counter>,
    first: Worker<Counter>,
    second: Worker<Counter>,
) -> Option<List<Option<Counter>>>
    requires workers { pool.workers ≡ 2 }
    requires first { IsOfPool first pool × (first.view.numbers ≡ 0 ∷ []) × (first.view.has ≡ []) }
    requires second { IsOfPool second pool × (second.view.numbers ≡ 1 ∷ []) × (second.view.has ≡ []) }
{
    let Ok(mut workers) = vec![in alloc; first] else {
        return None;
    };
    let Ok(()) = workers.push(second) else {
        return None;
    };
    Some(pool.close(List::from_vec(workers)))
}

// How often these records were got.
fn counted(entries: &[Option<Counter>]) -> u32 {
    let mut counted: u32 = 0;
    for entry in entries {
        if let Some(counter) = entry {
            counted = counted.wrapping_add(counter.count);
        }
    }
    counted
}

#[test]
fn who_has_a_record_has_it_alone(rt: HostRuntime) {
    assert!(rt;
        run(&rt, rt.alloc(), 10_000) == Some(true),
        "two workers side by side"
    );
}
