// What is said of tasks where they impede an event, by numbers.
ghost use Rattle.std.specs.Prelude.{IfOk};
ghost use Rattle.explain_deadlock.specs.inside.Numbered.{AreNumbers};

use armus_base::{NoMemory, TaskId};
use explain_tasks::{Facts, Grouping};

/// For each task the number of what its line says where it impedes an event: two tasks have the same exactly where the same is said of them but for the phase, and
/// for what they do next.
pub(crate) fn numbers_of(facts: &Facts) -> Result<Vec<usize>, NoMemory>
    ensures { IfOk result (λ v. AreNumbers facts.now v.items) }
{
    let mut said = Grouping::new(facts.alloc());
    let mut numbers = Vec::new(facts.alloc());
    for u in 0..facts.count() {
        let saying = facts.standing_saying(TaskId(u))?;
        numbers.push(said.note(facts.alloc(), saying)?)?;
    }
    Ok(numbers)
}
