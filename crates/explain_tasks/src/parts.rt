// Lists of tasks with their names.
ghost use Rattle.std.specs.Prelude.{◌≡◌, ◌++◌, ◌∷◌, [], IfOk, OnOk, map, option_copied};
ghost use Rattle.explain_tasks.specs.TaskLists.{have_same_name, joined_parts, list_words, part_words, parts_of, separator, tasks_words};
ghost use Rattle.explain_tasks.specs.Names.{task_name};

use crate::naming::{put_named_words, task_name};
use crate::task_lists::{put_list, separator};
use armus_base::{NoMemory, TaskId, put_words};
use explain_facts::{GivenName, GivenNames};
use std::alloc::Global;

// Whether both have a name, and the same one.
fn have_same_name(a: Option<&GivenName>, b: Option<&GivenName>) -> bool
    ensures { result ≡ have_same_name (option_copied a.entry) (option_copied b.entry) }
{
    match a {
        Some(a) => match b {
            Some(b) => a.name.as_slice() == b.name.as_slice(),
            None => false,
        },
        None => false,
    }
}

// A part of one task.
fn part_of(alloc: Global, t: TaskId) -> Result<Vec<TaskId>, NoMemory>
    ensures { IfOk result (λ v. v.items ≡ t ∷ []) }
{
    let mut part = Vec::new(alloc);
    part.push(t)?;
    Ok(part)
}

// The parts of a list of tasks, in each of which all have one name.
fn parts_of(
    alloc: Global,
    names: &GivenNames,
    tasks: &[TaskId],
) -> Result<Vec<Vec<TaskId>>, NoMemory>
    ensures { IfOk result (λ v. map (λ part. part.items) v.items ≡ parts_of names.now tasks.now) }
{
    let mut parts = Vec::new(alloc);
    let [first, rest @ ..] = tasks else {
        return Ok(parts);
    };
    let mut part = part_of(alloc, *first)?;
    let mut last = *first;
    for t in rest {
        if have_same_name(task_name(names, last), task_name(names, *t)) {
            part.push(*t)?;
        } else {
            parts.push(part)?;
            part = part_of(alloc, *t)?;
        }
        last = *t;
    }
    parts.push(part)?;
    Ok(parts)
}

// The numbers of a list of tasks.
fn numbers(alloc: Global, tasks: &[TaskId]) -> Result<Vec<u8>, NoMemory>
    ensures { IfOk result (λ v. v.items ≡ list_words tasks.now) }
{
    let mut out = Vec::new(alloc);
    put_list(alloc, &mut out, tasks)?;
    Ok(out)
}

// Appends a part.
fn put_part(
    alloc: Global,
    names: &GivenNames,
    out: &mut Vec<u8>,
    part: &[TaskId],
) -> Result<(), NoMemory>
    ensures { OnOk result (out.new.items ≡ out.old.items ++ part_words names.now part.now) }
{
    match part {
        [] => Ok(()),
        [t, ..] => {
            let numbers = numbers(alloc, part)?;
            put_named_words(out, &numbers, task_name(names, *t))
        }
    }
}

// Appends part k of n, and what stands before it.
fn put_part_at(
    alloc: Global,
    names: &GivenNames,
    out: &mut Vec<u8>,
    n: usize,
    k: usize,
    part: &[TaskId],
) -> Result<(), NoMemory>
    ensures { OnOk result (out.new.items ≡ out.old.items ++ (separator n k ++ part_words names.now part.now)) }
{
    put_words(out, separator(n, k))?;
    put_part(alloc, names, out, part)
}

// Appends parts, one behind the other.
fn put_parts(
    alloc: Global,
    names: &GivenNames,
    out: &mut Vec<u8>,
    parts: &[Vec<TaskId>],
) -> Result<(), NoMemory>
    ensures { OnOk result (out.new.items ≡ out.old.items ++ joined_parts names.now (map (λ part. part.items) parts.now)) }
{
    for (k, part) in parts.iter().enumerate() {
        put_part_at(alloc, names, out, parts.len(), k, part)?;
    }
    Ok(())
}

/// Appends a list of tasks in order of number: `t0, left and worker (t1, t3 and t5 to t9)`.
pub fn put_tasks_words(
    alloc: Global,
    names: &GivenNames,
    out: &mut Vec<u8>,
    tasks: &[TaskId],
) -> Result<(), NoMemory>
    ensures { OnOk result (out.new.items ≡ out.old.items ++ tasks_words names.now tasks.now) }
{
    let parts = parts_of(alloc, names, tasks)?;
    put_parts(alloc, names, out, &parts)
}
