// Small plans, by their texts.
ghost use Rattle.std.specs.Prelude.{◌≡◌, ◌≤◌, IfOk, length};
ghost use Rattle.pl_syntax.specs.declared.limits.TheConstants.{MAX_PARSED_BYTES};

use armus_base::{NoMemory, Plan};
use pl_plan::plan;
use pl_syntax::parse;
use std::alloc::Global;

/// The plan of this text, which is to have so many tasks and phasers. A text that is refused or has others ends as want of memory does: its test fails.
pub(crate) fn small_plan(
    alloc: Global,
    text: &[u8],
    tasks: u32,
    phasers: u32,
) -> Result<Plan, NoMemory>
    requires short { length text.now ≤ MAX_PARSED_BYTES }
    ensures tasks { IfOk result (λ plan. length plan.parents ≡ tasks) }
    ensures phasers { IfOk result (λ plan. length plan.makers ≡ phasers) }
{
    let Ok(program) = parse(alloc, text) else {
        return Err(NoMemory);
    };
    let Ok(plan) = plan(alloc, &program) else {
        return Err(NoMemory);
    };
    if plan.tasks() != tasks || plan.phasers() != phasers {
        return Err(NoMemory);
    }
    Ok(plan)
}
