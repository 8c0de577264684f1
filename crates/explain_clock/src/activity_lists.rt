// Lists of activities, as they are written.
ghost use Rattle.std.specs.Prelude.{◌≡◌, ◌++◌, IfOk, OnOk};
ghost use Rattle.explain_clock.specs.ActivityLists.{activity_list, number_item, number_items};
ghost use Rattle.explain_tasks.specs.TaskLists.{separator};

use armus_base::{NoMemory, TaskId, put_number, put_words};
use explain_tasks::{Run, list_items, put_by_number, separator};
use std::alloc::Global;

// Appends an item.
fn put_item(alloc: Global, out: &mut Vec<u8>, run: Run) -> Result<(), NoMemory>
    ensures { OnOk result (out.new.items ≡ out.old.items ++ number_item run) }
{
    put_number(alloc, out, run.from as u64)?;
    if run.from == run.to {
        return Ok(());
    }
    put_words(out, b" to ")?;
    put_number(alloc, out, run.to as u64)
}

// Appends item k of n, and what stands before it.
fn put_item_at(
    alloc: Global,
    out: &mut Vec<u8>,
    n: usize,
    k: usize,
    run: Run,
) -> Result<(), NoMemory>
    ensures { OnOk result (out.new.items ≡ out.old.items ++ (separator n k ++ number_item run)) }
{
    put_words(out, separator(n, k))?;
    put_item(alloc, out, run)
}

// Appends items, one behind the other.
fn put_items(alloc: Global, out: &mut Vec<u8>, items: &[Run]) -> Result<(), NoMemory>
    ensures { OnOk result (out.new.items ≡ out.old.items ++ number_items items.now) }
{
    for (k, item) in items.iter().enumerate() {
        put_item_at(alloc, out, items.len(), k, *item)?;
    }
    Ok(())
}

// Appends a list of activities in order of number: `activity 1`, or `activities 1, 3 and 5 to 9`.
fn put_activities(alloc: Global, out: &mut Vec<u8>, activities: &[TaskId]) -> Result<(), NoMemory>
    ensures { OnOk result (out.new.items ≡ out.old.items ++ activity_list activities.now) }
{
    put_by_number(out, activities.len(), b"activity ", b"activities ")?;
    let items = list_items(alloc, activities)?;
    put_items(alloc, out, &items)
}

/// A list of activities in order of number.
pub(crate) fn activity_list(alloc: Global, activities: &[TaskId]) -> Result<Vec<u8>, NoMemory>
    ensures { IfOk result (λ v. v.items ≡ activity_list activities.now) }
{
    let mut out = Vec::new(alloc);
    put_activities(alloc, &mut out, activities)?;
    Ok(out)
}
