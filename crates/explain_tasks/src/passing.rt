// Tasks that pass a test.
ghost use Rattle.std.specs.Prelude.{◌≡◌, ◌∷◌, ◌++◌, [], Bool, IfOk, OnOk, if◌then◌else◌, slice_get};
ghost use Rattle.armus_base.specs.declared.ids.TaskId.{TaskId};
ghost use Rattle.explain_tasks.specs.calls.Passing.{AnswersAsTest, passing_below};

use armus_base::{NoMemory, TaskId};
use std::alloc::Global;

/// Appends a task, if it passes a test.
pub fn push_if(all: &mut Vec<TaskId>, t: TaskId, passes: bool) -> Result<(), NoMemory>
    ensures { OnOk result (all.new.items ≡ all.old.items ++ (if passes then t ∷ [] else [])) }
{
    if passes {
        all.push(t)?;
    }
    Ok(())
}

/// The tasks below this number that pass a test, in order of number.
pub fn passing_below<F: Fn(TaskId) -> bool>(
    alloc: Global,
    count: u32,
    test: F,
) -> Result<Vec<TaskId>, NoMemory>
    requires { F.IsAlwaysCallable test }
    ensures { (p : TaskId → Bool) → AnswersAsTest (F.post test) p → IfOk result (λ v. v.items ≡ passing_below p count) }
{
    let mut all = Vec::new(alloc);
    for t in 0..count {
        push_if(&mut all, TaskId(t), test(TaskId(t)))?;
    }
    Ok(all)
}

/// The least task below this number that passes a test.
pub fn least_below<F: Fn(TaskId) -> bool>(count: u32, test: F) -> Option<TaskId>
    requires { F.IsAlwaysCallable test }
    ensures { (p : TaskId → Bool) → AnswersAsTest (F.post test) p → result ≡ slice_get (passing_below p count) 0 }
{
    for t in 0..count {
        if test(TaskId(t)) {
            return Some(TaskId(t));
        }
    }
    None
}
