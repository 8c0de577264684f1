// From an input to its program and its plan.
ghost use Rattle.std.specs.Prelude.{◌≡◌, ◌≤◌, false, length, IfOk, IfErr};
ghost use Rattle.pl_syntax.specs.calls.Tree.{AllHere};
ghost use Rattle.pl_syntax.specs.declared.limits.TheConstants.{MAX_PARSED_BYTES};
ghost use Rattle.armus_top.specs.Clocks.{IsClockPlanOf};
ghost use Rattle.program_io.specs.Programs.{IsChecked, IsFaultOf, IsPlanOf};
ghost use Rattle.program_io.specs.declared.text_limit.TheConstants.{MAX_TEXT_BYTES};
ghost use Rattle.armus_top.specs.inside.Answers.{IsClockInputEnd, IsEnd};

use crate::output::InputEnd;
use armus_base::Plan;
use clock_pl::{ClockEnd, clock_plan};
use clock_syntax::clock_parse;
use pl_plan::{PlanEnd, plan};
use pl_syntax::{ParseEnd, Program, parse};
use report::Refusal;
use std::alloc::Global;

/// The program of a text, and the plan to which it unfolds.
#[derive(Drop)]
pub struct Checked {
    pub program: Program,
    pub plan: Plan,
}

/// The program of a text and its plan, or why there is none.
pub fn checked_in(alloc: Global, text: &[u8]) -> Result<Checked, InputEnd>
    requires short { length text.now ≤ MAX_PARSED_BYTES }
    ensures plan { IfOk result (λ c. IsChecked text.now c.program c.plan) }
    ensures refused { IfErr result (IsEnd (IsFaultOf text.now)) }
    ensures offsets { IfOk result (λ c. c.program.two ≡ false → AllHere c.program.body) }
{
    let program = match parse(alloc, text) {
        Ok(program) => program,
        Err(ParseEnd::Syntax(fault)) => return Err(InputEnd::Refused(Refusal::Syntax(fault))),
        Err(ParseEnd::NoMemory) => return Err(InputEnd::NoMemory),
    };
    match plan(alloc, &program) {
        Ok(plan) => Ok(Checked { program, plan }),
        Err(PlanEnd::Check(fault)) => Err(InputEnd::Refused(Refusal::Check(fault))),
        Err(PlanEnd::NoMemory) => Err(InputEnd::NoMemory),
    }
}

/// The plan of a clock text, or why there is none.
pub(crate) fn clock_plan_in(alloc: Global, text: &[u8]) -> Result<Plan, InputEnd>
    requires short { length text.now ≤ MAX_TEXT_BYTES }
    ensures plan { IfOk result (IsClockPlanOf text.now) }
    ensures refused { IfErr result (IsClockInputEnd text.now) }
{
    let program = match clock_parse(alloc, text) {
        Ok(program) => program,
        Err(ParseEnd::Syntax(fault)) => return Err(InputEnd::Refused(Refusal::Syntax(fault))),
        Err(ParseEnd::NoMemory) => return Err(InputEnd::NoMemory),
    };
    match clock_plan(alloc, &program) {
        Ok(plan) => Ok(plan),
        Err(ClockEnd::Clock(fault)) => Err(InputEnd::Clock(fault)),
        Err(ClockEnd::NoMemory) => Err(InputEnd::NoMemory),
    }
}

/// The plan of a text, or why there is none.
pub(crate) fn text_plan_in(alloc: Global, text: &[u8]) -> Result<Plan, InputEnd>
    requires short { length text.now ≤ MAX_TEXT_BYTES }
    ensures plan { IfOk result (IsPlanOf text.now) }
    ensures refused { IfErr result (IsEnd (IsFaultOf text.now)) }
{
    let checked = checked_in(alloc, text)?;
    Ok(checked.plan)
}
