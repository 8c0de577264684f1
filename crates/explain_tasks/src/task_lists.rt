// Lists of tasks, as they are written.
ghost use Rattle.std.specs.Prelude.{◌≡◌, ◌==◌, ◌+◌, ◌++◌, IfOk, OnOk, flat_map};
ghost use Rattle.explain_tasks.specs.TaskLists.{item_words, items_of, joined_items, list_words, runs_of, separator};

use crate::naming::put_task_number;
use armus_base::{NoMemory, TaskId, put_words};
use std::alloc::Global;

/// Consecutive numbers of tasks, from the first to the last.
#[derive(Clone, Copy, Debug, PartialEq, Eq)]
pub struct Run {
    /// The first number.
    pub from: u32,
    /// The last number.
    pub to: u32,
}

// Whether b is the number behind a.
fn is_behind(b: u32, a: u32) -> bool
    ensures { result ≡ (b == a + 1) }
{
    b > 0 && b - 1 == a
}

// The run of one task.
fn run_of(t: TaskId) -> Run
    ensures { result ≡ record { from = t.0; to = t.0 } }
{
    Run { from: t.0, to: t.0 }
}

// The runs of consecutive numbers of an ascending list.
fn runs_of(alloc: Global, tasks: &[TaskId]) -> Result<Vec<Run>, NoMemory>
    ensures { IfOk result (λ v. v.items ≡ runs_of tasks.now) }
{
    let mut runs = Vec::new(alloc);
    let [first, rest @ ..] = tasks else {
        return Ok(runs);
    };
    let mut run = run_of(*first);
    for t in rest {
        if is_behind(t.0, run.to) {
            run.to = t.0;
        } else {
            runs.push(run)?;
            run = run_of(*t);
        }
    }
    runs.push(run)?;
    Ok(runs)
}

// Appends the items of a run.
fn add_items(items: &mut Vec<Run>, run: Run) -> Result<(), NoMemory>
    ensures { OnOk result (items.new.items ≡ items.old.items ++ items_of run) }
{
    if is_behind(run.to, run.from) {
        items.push(run_of(TaskId(run.from)))?;
        items.push(run_of(TaskId(run.to)))?;
    } else {
        items.push(run)?;
    }
    Ok(())
}

// The items of runs.
fn items_of_runs(alloc: Global, runs: &[Run]) -> Result<Vec<Run>, NoMemory>
    ensures { IfOk result (λ v. v.items ≡ flat_map items_of runs.now) }
{
    let mut items = Vec::new(alloc);
    for run in runs {
        add_items(&mut items, *run)?;
    }
    Ok(items)
}

/// The items by which a list of tasks in order of number is written: three and more that follow each other are one.
/// `NoMemory` where there is no memory for them.
pub fn list_items(alloc: Global, tasks: &[TaskId]) -> Result<Vec<Run>, NoMemory>
    ensures { IfOk result (λ v. v.items ≡ flat_map items_of (runs_of tasks.now)) }
{
    let runs = runs_of(alloc, tasks)?;
    items_of_runs(alloc, &runs)
}

// Appends an item.
fn put_item(alloc: Global, out: &mut Vec<u8>, run: Run) -> Result<(), NoMemory>
    ensures { OnOk result (out.new.items ≡ out.old.items ++ item_words run) }
{
    put_task_number(alloc, out, run.from)?;
    if run.from == run.to {
        return Ok(());
    }
    put_words(out, b" to ")?;
    put_task_number(alloc, out, run.to)
}

/// What stands before item k of n: nothing before the first, ` and ` before the last, and else a comma and a blank.
pub fn separator(n: usize, k: usize) -> &'static [u8]
    ensures { result.now ≡ separator n k }
{
    if k == 0 {
        b""
    } else if n > 0 && n - 1 == k {
        b" and "
    } else {
        b", "
    }
}

// Appends item k of n, and what stands before it.
fn put_item_at(
    alloc: Global,
    out: &mut Vec<u8>,
    n: usize,
    k: usize,
    run: Run,
) -> Result<(), NoMemory>
    ensures { OnOk result (out.new.items ≡ out.old.items ++ (separator n k ++ item_words run)) }
{
    put_words(out, separator(n, k))?;
    put_item(alloc, out, run)
}

// Appends items, one behind the other.
fn put_items(alloc: Global, out: &mut Vec<u8>, items: &[Run]) -> Result<(), NoMemory>
    ensures { OnOk result (out.new.items ≡ out.old.items ++ joined_items items.now) }
{
    for (k, item) in items.iter().enumerate() {
        put_item_at(alloc, out, items.len(), k, *item)?;
    }
    Ok(())
}

/// Appends the numbers of a list of tasks, in order: `t1, t3 and t5 to t9`.
pub(crate) fn put_list(alloc: Global, out: &mut Vec<u8>, tasks: &[TaskId]) -> Result<(), NoMemory>
    ensures { OnOk result (out.new.items ≡ out.old.items ++ list_words tasks.now) }
{
    let items = list_items(alloc, tasks)?;
    put_items(alloc, out, &items)
}
