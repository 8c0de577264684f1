// Steps of two workers of a pool, one after the other, and what each of them finds.
ghost use Rattle.std.specs.Prelude.{◌≡◌, ◌<◌, [], ◌∷◌, map};
ghost use Rattle.std.specs.Option.{option_to_list};
ghost use Rattle.slot_pool.specs.calls.PoolValues.{IsOfPool, IsSameWorker};

use armus_base::{List, TaskId};
use slot_pool::{Claim, Named, Pool, Worker};
use std::alloc::Global;
use tests_rows::{columns, cut, first_word, number};

// How many tasks, the steps, each with what it finds, and how many records are home at the end, unless a worker has one.
const ROWS: &str = "\
2 | 0 claim 0 -> got; 1 claim 0 -> held 0; 1 claim 1 -> empty; 0 place 1 -> placed; 0 put -> put; 1 claim 1 -> got; 1 place 1 -> back; 1 put -> put | 2\n\
4 | 0 claim 1 -> empty; 0 place 1 -> placed; 0 claim 1 -> got; 0 place 1 -> back; 0 place 3 -> placed; 1 claim 1 -> held 0; 0 put -> put; 1 place 3 -> back; 1 claim 3 -> got | one is held\n\
";

// A record of a task.
#[derive(Drop)]
struct Token {
    task: TaskId,
}

impl Named for Token {
    ghost number = { λ t. t.task.0 };

    fn id(&self) -> TaskId {
        self.task
    }
}

// What a step finds.
#[derive(Clone, Copy)]
enum Found {
    Got,
    Held(u32),
    Empty,
    Placed,
    Back,
    IsPut,
    // The worker has something, or nothing to put, or another record came back.
    Amiss,
}

// A worker, and the record that it has.
#[derive(Drop)]
struct TokenWorker {
    worker: Worker<Token>,
    held: Option<Token>,
    ghost has: { worker.view.has ≡ map (λ t. t.task.0) (option_to_list held) },
}

fn claim(pool: &Pool<Token>, token_worker: &mut TokenWorker, task: TaskId) -> Found
    requires made { IsOfPool token_worker.old.worker pool.now }
    requires task { task.0 < pool.now.tasks }
    ensures same { IsSameWorker token_worker.old.worker token_worker.new.worker }
{
    if token_worker.held.is_some() {
        return Found::Amiss;
    }
    match token_worker.worker.claim(pool, task) {
        Claim::Got(item) => {
            token_worker.held = Some(item);
            Found::Got
        }
        Claim::Held { by } => Found::Held(by),
        Claim::Empty => Found::Empty,
    }
}

fn put(pool: &Pool<Token>, token_worker: &mut TokenWorker) -> Found
    requires made { IsOfPool token_worker.old.worker pool.now }
    ensures same { IsSameWorker token_worker.old.worker token_worker.new.worker }
{
    match token_worker.held.take() {
        Some(item) => {
            token_worker.worker.put(pool, item);
            Found::IsPut
        }
        None => Found::Amiss,
    }
}

fn place(pool: &Pool<Token>, token_worker: &mut TokenWorker, task: TaskId) -> Found
    requires made { IsOfPool token_worker.old.worker pool.now }
    requires task { task.0 < pool.now.tasks }
    ensures same { IsSameWorker token_worker.old.worker token_worker.new.worker }
{
    match token_worker.worker.place(pool, Token { task }) {
        Ok(()) => Found::Placed,
        Err(back) if back.task == task => Found::Back,
        Err(_) => Found::Amiss,
    }
}

// What the worker finds at this step.
fn step(pool: &Pool<Token>, token_worker: &mut TokenWorker, call: &str, task: TaskId) -> Found
    requires made { IsOfPool token_worker.old.worker pool.now }
    requires task { task.0 < pool.now.tasks }
    ensures same { IsSameWorker token_worker.old.worker token_worker.new.worker }
{
    match call {
        "claim" => claim(pool, token_worker, task),
        "place" => place(pool, token_worker, task),
        _ => put(pool, token_worker),
    }
}

// Whether this is what is to be found.
fn is_told(found: Found, wanted: &str) -> bool {
    let (word, by) = first_word(wanted);
    match found {
        Found::Got => word == "got",
        Found::Held(worker) => word == "held" && worker == number(by),
        Found::Empty => word == "empty",
        Found::Placed => word == "placed",
        Found::Back => word == "back",
        Found::IsPut => word == "put",
        Found::Amiss => false,
    }
}

// Whether each step in turn, by the first worker or by the second, finds what it is to find.
fn play(
    pool: &Pool<Token>,
    tasks: u32,
    first: &mut TokenWorker,
    second: &mut TokenWorker,
    steps: &str,
) -> bool
    requires first { IsOfPool first.old.worker pool.now }
    requires second { IsOfPool second.old.worker pool.now }
    requires tasks { pool.now.tasks ≡ tasks }
    requires some { 0 < tasks }
    ensures first { IsSameWorker first.old.worker first.new.worker }
    ensures second { IsSameWorker second.old.worker second.new.worker }
{
    let mut all = true;
    for text in steps.split(";") {
        let (made, wanted) = cut(text.trim(), " -> ");
        let (who, call, task) = columns(made, " ");
        let task = TaskId(number::<u32>(task) % tasks);
        let found = if who == "0" {
            step(pool, first, call, task)
        } else {
            step(pool, second, call, task)
        };
        all = is_told(found, wanted) && all;
    }
    all
}

// Closes a pool of two workers that have put what they had.
fn close(
    pool: Pool<Token>,
    alloc: Global,
    first: TokenWorker,
    second: TokenWorker,
) -> Option<List<Option<Token>>>
    requires workers { pool.workers ≡ 2 }
    requires first { IsOfPool first.worker pool × (first.worker.view.numbers ≡ 0 ∷ []) }
    requires second { IsOfPool second.worker pool × (second.worker.view.numbers ≡ 1 ∷ []) }
{
    if first.held.is_some() || second.held.is_some() {
        return None;
    }
    let TokenWorker { worker, held: _ } = first;
    let Ok(mut workers) = vec![in alloc; worker] else {
        return None;
    };
    let TokenWorker { worker, held: _ } = second;
    let Ok(()) = workers.push(worker) else {
        return None;
    };
    Some(pool.close(List::from_vec(workers)))
}

// How many records are home.
fn home(entries: &[Option<Token>]) -> usize {
    entries.iter().filter(|entry| entry.is_some()).count()
}

// A worker that has nothing.
fn idle(worker: Worker<Token>) -> TokenWorker
    requires { worker.view.has ≡ [] }
    ensures { result.worker ≡ worker }
{
    TokenWorker { worker, held: None }
}

// Whether the steps in a pool of two workers and so many tasks find what they are to find, and so many records are home at the end, unless a worker has one.
fn are_met(alloc: Global, tasks: u32, steps: &str, end: &str) -> Option<bool> {
    if tasks < 1 || tasks > 4 {
        return None;
    }
    let first = Token { task: TaskId(0) };
    let Ok((pool, workers)) = Pool::start(alloc, tasks, 2, first) else {
        return None;
    };
    let mut workers = workers.into_vec();
    let mut second = idle(workers.pop()?);
    let mut first = idle(workers.pop()?);
    let found = play(&pool, tasks, &mut first, &mut second, steps);
    match close(pool, alloc, first, second) {
        Some(entries) => Some(found && home(entries.as_slice()) == number(end)),
        None => Some(found && end == "one is held"),
    }
}

#[test]
fn each_step_finds_what_is_there(rt: HostRuntime) {
    for row in ROWS.lines() {
        let (tasks, steps, end) = columns(row, "|");
        let tasks = number(tasks);
        assert!(rt;
            are_met(rt.alloc(), tasks, steps, end.trim()) == Some(true),
            "{row}"
        );
    }
}

// The most tasks and workers: the first record is home, and no other.
fn full_pool(alloc: Global) -> Option<usize> {
    let first = Token { task: TaskId(0) };
    let Ok((pool, workers)) = Pool::start(alloc, 4096, 64, first) else {
        return None;
    };
    Some(home(pool.close(workers).as_slice()))
}

#[test]
fn a_full_pool_has_its_first_record(rt: HostRuntime) {
    assert!(rt;
        full_pool(rt.alloc()) == Some(1),
        "4,096 tasks and 64 workers"
    );
}
