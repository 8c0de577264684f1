// Orders by rows, beside a plain search at random, and beside statuses.
ghost use Rattle.std.specs.Prelude.{All, IsTrue};
ghost use Rattle.order_graph.specs.calls.Orders.{IsTaskOf};

use armus_base::{NoMemory, TaskId};
use dep_state::{DepState, is_in_order};
use order_graph::{Added, Followed, Order};
use std::alloc::{AllocError, Global};
use std::test::Fail;
use tests_rows::{add_numbers, columns, cut, first_word, number, statuses};

// Edges that are added one after another to an order of so many tasks, with the cycle that each would close, and the tasks by position after all.
const EDGES: &str = "\
4 | 0 1 | ; 0 1 2 3\n\
4 | 0 1, 2 1 | ; ; 0 2 1 3\n\
4 | 0 1, 2 1, 1 0 | ; ; 0 1 ; 0 2 1 3\n\
4 | 0 1, 2 1, 1 0, 1 3 | ; ; 0 1 ; ; 0 2 1 3\n\
3 | 2 2 | 2 ; 0 1 2\n\
5 | 4 3, 3 0, 0 4 | ; ; 4 3 0 ; 4 3 0 1 2\n\
6 | 0 1, 1 2, 2 4, 0 3, 3 4, 4 0 | ; ; ; ; ; 0 3 4 ; 0 1 2 3 4 5\n\
6 | 0 1, 0 2, 1 4, 2 3, 3 5, 4 5, 5 0 | ; ; ; ; ; ; 0 1 4 5 ; 0 1 2 3 4 5\n\
";

// The cycle that an edge would close; nothing where it was added, or is of no two tasks.
fn added(alloc: Global, order: &mut Order, a: u32, b: u32) -> Result<Vec<u32>, NoMemory> {
    let mut numbers = Vec::new(alloc);
    if a >= order.tasks() || b >= order.tasks() {
        return Ok(numbers);
    }
    if let Added::Cycle(list) = order.add(alloc, TaskId(a), TaskId(b))? {
        for t in list.as_slice() {
            numbers.push(t.0)?;
        }
    }
    Ok(numbers)
}

// The tasks by position.
fn by_position(alloc: Global, order: &Order) -> Result<Vec<u32>, AllocError> {
    let mut tasks = vec![in alloc; 0; order.tasks() as usize]?;
    for t in 0..order.tasks() {
        if let Some(place) = tasks.get_mut(order.position(TaskId(t)) as usize) {
            *place = t;
        }
    }
    Ok(tasks)
}

fn edges_text(alloc: Global, tasks: &str, edges: &str) -> Result<String, NoMemory> {
    let mut text = String::new(alloc);
    let mut order = Order::start(alloc, number(tasks))?;
    for edge in edges.split(",") {
        let (a, b) = first_word(edge);
        let cycle = added(alloc, &mut order, number(a), number(b))?;
        add_numbers(&mut text, &cycle)?;
        text.push_str("; ")?;
    }
    add_numbers(&mut text, &by_position(alloc, &order)?)?;
    Ok(text)
}

#[test]
fn rows_of_edges(rt: HostRuntime) -> Result<(), Fail> {
    for row in EDGES.lines() {
        let (tasks, edges, wanted) = columns(row, "|");
        let found = edges_text(rt.alloc(), tasks.trim(), edges)?;
        assert!(rt; found.as_str().trim() == wanted.trim(), "{row}");
    }
    Ok(())
}

// how many tasks the random edges have
const TASKS: u32 = 8;

// Edges as a table of answers.
#[derive(Drop)]
struct Table {
    edges: Vec<bool>,
}

fn place(a: u32, b: u32) -> usize {
    a as usize * TASKS as usize + b as usize
}

fn has(table: &Table, a: u32, b: u32) -> bool {
    table.edges.get(place(a, b)).copied().unwrap_or(false)
}

fn set(table: &mut Table, a: u32, b: u32, there: bool) {
    if let Some(edge) = table.edges.get_mut(place(a, b)) {
        *edge = there;
    }
}

fn number_at(numbers: &[u32], t: u32) -> u32 {
    numbers.get(t as usize).copied().unwrap_or(TASKS)
}

// One more round of the distances from each task to a goal.
fn relax(table: &Table, far: &mut Vec<u32>) {
    for a in 0..TASKS {
        for b in 0..TASKS {
            let further = number_at(far, b).saturating_add(1);
            if has(table, a, b) && further < number_at(far, a) {
                if let Some(number) = far.get_mut(a as usize) {
                    *number = further;
                }
            }
        }
    }
}

// The distance of each task from a goal, and the number of tasks where there is none.
fn distances(alloc: Global, table: &Table, goal: u32) -> Result<Vec<u32>, AllocError> {
    let mut far = vec![in alloc; TASKS; TASKS as usize]?;
    if let Some(number) = far.get_mut(goal as usize) {
        *number = 0;
    }
    for _ in 0..TASKS {
        relax(table, &mut far);
    }
    Ok(far)
}

// The nearest successor of a task.
fn nearest(table: &Table, far: &[u32], t: u32) -> u32 {
    let mut best = t;
    let mut left = TASKS;
    for c in 0..TASKS {
        if has(table, t, c) && number_at(far, c) < left {
            best = c;
            left = number_at(far, c);
        }
    }
    best
}

// The cycle that an edge closes, by the table.
fn cycle_in(alloc: Global, table: &Table, a: u32, b: u32) -> Result<Vec<u32>, AllocError> {
    let far = distances(alloc, table, a)?;
    let mut cycle = Vec::new(alloc);
    if number_at(&far, b) < TASKS {
        let mut t = b;
        cycle.push(t)?;
        for _ in 0..number_at(&far, b) {
            t = nearest(table, &far, t);
            cycle.push(t)?;
        }
    }
    Ok(cycle)
}

// A number that looks random, after another one.
fn next_random(seed: u64) -> u64 {
    seed.wrapping_mul(6364136223846793005)
        .wrapping_add(1442695040888963407)
}

// One random step, on an order and on a table.
fn step(alloc: Global, order: &mut Order, table: &mut Table, seed: u64) -> Result<bool, NoMemory> {
    let a = (seed >> 33) as u32 % TASKS;
    let b = (seed >> 43) as u32 % TASKS;
    if a >= order.tasks() || b >= order.tasks() {
        return Ok(false);
    }
    if (seed >> 53) % 3 == 0 {
        order.clear(TaskId(a), TaskId(b));
        set(table, a, b, false);
    } else {
        let wanted = cycle_in(alloc, table, a, b)?;
        let found = added(alloc, order, a, b)?;
        set(table, a, b, has(table, a, b) || found.is_empty());
        return Ok(found == wanted);
    }
    Ok(true)
}

// Whether the edges of an order are those of a table, and go up.
fn agrees(order: &Order, table: &Table) -> bool {
    let mut all = true;
    for a in 0..order.tasks() {
        for b in 0..order.tasks() {
            let there = order.has(TaskId(a), TaskId(b));
            let goes_up = !there || order.position(TaskId(a)) < order.position(TaskId(b));
            all = all && goes_up && there == has(table, a, b);
        }
    }
    all
}

#[test]
fn agrees_with_a_plain_search(rt: HostRuntime) -> Result<(), Fail> {
    let mut order = Order::start(rt.alloc(), TASKS)?;
    let edges = vec![in rt.alloc(); false; 64]?;
    let mut table = Table { edges };
    let mut seed = 1;
    for _ in 0..3000 {
        seed = next_random(seed);
        assert!(rt; step(rt.alloc(), &mut order, &mut table, seed)?);
        assert!(rt; agrees(&order, &table));
    }
    Ok(())
}

// Lists of statuses that an order follows one after another, and after each one the tasks by position.
const LISTS: &str = "\
0 0@1 0@1, 1 1@1 0@0 1@1, 2 2@1 1@0 2@1 | kept 0 1 2\n\
0 0@1 0@1 1@0, 1 1@1 1@1 2@0, 2 2@1 2@1 | kept 2 1 0\n\
0 0@2 0@1 | dead 2 1 0\n\
| kept 2 1 0\n\
";

fn has_tasks(order: &Order, deps: &DepState) -> bool
    ensures { IsTrue result → All (IsTaskOf order.now) deps.now.tasks }
{
    let count = order.tasks();
    deps.tasks().iter().all(|t| t.0 < count)
}

// What an order answers to statuses, and its tasks by position after.
fn followed(alloc: Global, order: &mut Order, text: &str) -> Result<String, NoMemory> {
    let mut told = String::new(alloc);
    let list = statuses(alloc, text)?;
    if !is_in_order(list.as_slice()) {
        return Ok(told);
    }
    let deps = DepState::of(alloc, list.as_slice())?;
    if !has_tasks(order, &deps) {
        return Ok(told);
    }
    told.push_str(match order.follow(alloc, &deps)? {
        Followed::Kept => "kept ",
        Followed::Dead => "dead ",
    })?;
    add_numbers(&mut told, &by_position(alloc, order)?)?;
    Ok(told)
}

#[test]
fn follows_statuses(rt: HostRuntime) -> Result<(), Fail> {
    let mut order = Order::start(rt.alloc(), 3)?;
    for row in LISTS.lines() {
        let (list, wanted) = cut(row, "|");
        let found = followed(rt.alloc(), &mut order, list)?;
        assert!(rt; found.as_str().trim() == wanted.trim(), "{row}");
    }
    Ok(())
}
