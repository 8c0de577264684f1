// The names of stuck tasks that are known.
ghost use Rattle.std.specs.Prelude.{◌≡◌, IfOk, map};
ghost use Rattle.monitor_words.specs.calls.Values.{first_names};
ghost use Rattle.monitor_rows.specs.KnownNames.{known_only_in, names_of_known};

use crate::names::{add_name, no_names};
use armus_base::NoMemory;
use monitor_search::StuckTasks;
use monitor_words::ShownNames;
use std::alloc::Global;

// The names of those that were known and are not now.
fn gone_names(alloc: Global, was: &StuckTasks, now: &StuckTasks) -> Result<ShownNames, NoMemory>
    ensures { IfOk result (λ names. names ≡ first_names (map (λ t. t.1) (known_only_in was.now now.now))) }
{
    let mut names = no_names(alloc);
    for task in was.as_slice() {
        if !now.has_number(task.number()) {
            add_name(alloc, &mut names, task.name())?;
        }
    }
    Ok(names)
}

/// The names of the tasks that were known as stuck and are not now, if there are any.
pub fn names_of_known(
    alloc: Global,
    was: &StuckTasks,
    now: &StuckTasks,
) -> Result<Option<ShownNames>, NoMemory>
    ensures { IfOk result (λ names. names ≡ names_of_known (known_only_in was.now now.now)) }
{
    let names = gone_names(alloc, was, now)?;
    if names.shown.as_slice().len() == 0 {
        return Ok(None);
    }
    Ok(Some(names))
}
