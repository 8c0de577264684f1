// The names of the tasks at places.
ghost use Rattle.std.specs.Prelude.{◌≡◌, ◌<◌, length, map, All, IfOk};
ghost use Rattle.dep_state.specs.inside.Names.{named, IsNamed};
ghost use Rattle.dep_state.specs.calls.Deps.{rows_of};

use armus_base::TaskId;
use std::alloc::{AllocError, Global};

// The tasks at the places of a row.
fn names(alloc: Global, tasks: &[TaskId], row: &[u32]) -> Result<Vec<TaskId>, AllocError>
    requires { All (λ k. k < length tasks.now) row.now }
    ensures { IfOk result (λ names. names.items ≡ named tasks.now row.now) }
{
    let mut names = Vec::with_capacity(alloc, row.len())?;
    for k in row {
        names.push(tasks[*k as usize])?;
    }
    Ok(names)
}

/// The tasks at the places of each row.
pub fn all_names(
    alloc: Global,
    tasks: &[TaskId],
    rows: &[Vec<u32>],
) -> Result<Vec<Vec<TaskId>>, AllocError>
    requires { All (λ row. All (λ k. k < length tasks.now) row) (rows_of rows.now) }
    ensures { IfOk result (λ all. IsNamed tasks.now (rows_of rows.now) (rows_of all.items)) }
{
    let mut all = Vec::with_capacity(alloc, rows.len())?;
    for row in rows {
        let named = names(alloc, tasks, row)?;
        all.push(named)?;
    }
    Ok(all)
}
