// The command `check`.
ghost use Rattle.std.specs.Prelude.{◌≡◌, ◌≤◌, IfOk, IfErr, false, if◌then◌else◌, length};
ghost use Rattle.pl_syntax.specs.Printed.{printed_of};
ghost use Rattle.pl_syntax.specs.calls.Tree.{AllHere};
ghost use Rattle.pl_syntax.specs.Tree.{height};
ghost use Rattle.pl_syntax.specs.declared.limits.TheConstants.{MAX_OPEN_BRACES};
ghost use Rattle.armus_top.specs.Commands.{IsAnswered};
ghost use Rattle.armus_top.specs.Texts.{plan_line};
ghost use Rattle.program_io.specs.declared.text_limit.TheConstants.{MAX_TEXT_BYTES};
ghost use Rattle.armus_top.specs.inside.Answers.{IsEndOf};
ghost use Rattle.program_io.specs.calls.ExitNumbers.{number_of_status};
ghost use Rattle.command_line.specs.declared.command.Command.TheVariants.{Check};

use crate::output::{InputEnd, Output};
use crate::programs::{Checked, checked_in};
use armus_base::{List, NoMemory, Plan};
use pl_syntax::print;
use program_io::ExitStatus;
use std::alloc::Global;

// The counts of a plan, as a line.
fn plan_words(alloc: Global, plan: &Plan) -> Result<List<u8>, NoMemory>
    ensures { IfOk result (λ words. words ≡ plan_line plan.now) }
{
    let tasks = plan.tasks();
    let phasers = plan.phasers();
    let ops = plan.ops();
    let words = format!(in alloc; "tasks {tasks} phasers {phasers} ops {ops}\n")?;
    Ok(List::from_vec(words.into_bytes()))
}

// The printed form of a program, or the counts of its plan.
fn shown(alloc: Global, print_it: bool, checked: &Checked) -> Result<List<u8>, NoMemory>
    requires shallow { height checked.now.program.body ≤ MAX_OPEN_BRACES }
    requires offsets { checked.now.program.two ≡ false → AllHere checked.now.program.body }
    ensures { IfOk result (λ text. text ≡ (if print_it then printed_of checked.now.program else plan_line checked.now.plan)) }
{
    if print_it {
        print(alloc, &checked.program)
    } else {
        plan_words(alloc, &checked.plan)
    }
}

/// The counts of the plan of a text, or its printed form, or why there is none.
pub(crate) fn check(alloc: Global, print_it: bool, text: &[u8]) -> Result<Output, InputEnd>
    requires short { length text.now ≤ MAX_TEXT_BYTES }
    ensures answer { IfOk result (λ o. IsAnswered (Check print_it) text.now (number_of_status o.status) o.text) }
    ensures refused { IfErr result (IsEndOf (Check print_it) text.now) }
{
    let checked = checked_in(alloc, text)?;
    let text = shown(alloc, print_it, &checked)?;
    Ok(Output {
        text,
        status: ExitStatus::NoDeadlock,
    })
}
