// A run of a clock text, step by step.
ghost use Rattle.std.specs.Prelude.{◌≡◌, ◌+◌, ◌<◌, ◌^◌, IfOk, Ok, None};
ghost use Rattle.explain_steps.specs.calls.SteppedRuns.{IsRunBy};
ghost use Rattle.clock_syntax.specs.Grammar.{IsClockText};
ghost use Rattle.clock_syntax.specs.Trees.{clock_count};
ghost use Rattle.clock_semantics.specs.Unfolding.{ClockUnfolding, clock_plan_of, clock_unfolded};
ghost use Rattle.clock_source_map.specs.ClockOps.{all_op_origins};
ghost use Rattle.explain_clock.specs.ClockFacts.{ClockTextValue};
ghost use Rattle.explain_steps.specs.ClockStepWords.{clock_step_line};
ghost use Rattle.explain_steps.specs.OpFacts.{written_parts};
ghost use Rattle.explain_steps.specs.calls.Known.{known_ops};
ghost use Rattle.explain_steps.specs.calls.SteppedClocks.{IsSteppedClockRun};

use crate::changes::op_at;
use crate::clock_facts::ClockOpFacts;
use crate::stepping::{SteppedRun, step_to_end};
use crate::telling::TellsSteps;
use armus_base::{NoMemory, Plan, TaskId, put_number, put_words};
use clock_syntax::ClockProgram;
use explain_clock::ClockLayout;
use pl_core::World;
use source_map::TextPlaces;
use std::alloc::Global;

impl<'a> TellsSteps for ClockOpFacts<'a> {
    ghost known = { λ f. Unit {0} };

    ghost words = { λ f. clock_step_line (known_ops f) };

    fn put_line(
        &self,
        out: &mut Vec<u8>,
        world: &World<'_>,
        t: TaskId,
        number: u32,
    ) -> Result<(), NoMemory> {
        let i = world.op(t);
        let plan = world.plan();
        let op = op_at(plan, t, i);
        let origin = self.origin(t, i);
        put_number(self.alloc, out, number as u64)?;
        put_words(out, b": ")?;
        self.of_text.put_activity(out, t.0)?;
        put_words(out, b" at ")?;
        self.put_whence(out, op, origin)?;
        put_words(out, b": ")?;
        self.put_change(out, world, t, i, origin)?;
        put_words(out, b"\n")?;
        Ok(())
    }
}

// The run, step by step, of the plan to which the text of this program unfolds, with these places and this layout.
fn run_of_layout<'p>(
    alloc: Global,
    places: &TextPlaces<'_>,
    layout: &ClockLayout<'_>,
    program: &ClockProgram,
    plan: &'p Plan,
) -> Result<SteppedRun<'p>, NoMemory>
    requires few { clock_count program.now.body + 1 < 2 ^ 32 }
    requires plan { clock_plan_of program.now.body ≡ Ok plan.now }
    ensures run { IfOk result (λ run. (u : ClockUnfolding) → (t : ClockTextValue) → clock_unfolded program.now.body ≡ Ok u → t ≡ record {
      text = places.now;
      file = None;
      offsets = layout.now.offsets;
      begun = layout.now.origins.begun;
      things = layout.now.origins.things;
    } → IsRunBy (clock_step_line (record { of_text = t; statements = written_parts program.now.body; origins = all_op_origins u })) plan.now run) }
{
    let facts = ClockOpFacts::new(alloc, places, layout, program, plan)?;
    let run = step_to_end(alloc, &facts, plan)?;
    Ok(run)
}

/// Runs the plan of the clock text of this program to its end, as `step_to_end` does. `places` are those of the text, and `plan` is the plan to which the
/// program unfolds. It answers a line for each of the first `MOST_SHOWN` steps, and where there were more, a line that tells how many; the world in which the
/// run ends; and the value of its state. The only error is want of memory. The time is the number of steps times that of the
/// activities, and for each step that is shown linear in the ops of its activity's code.
pub fn clock_steps_through<'p>(
    alloc: Global,
    places: &TextPlaces<'_>,
    program: &ClockProgram,
    plan: &'p Plan,
) -> Result<SteppedRun<'p>, NoMemory>
    requires few { clock_count program.now.body + 1 < 2 ^ 32 }
    requires reads { IsClockText places.now program.now.body }
    requires plan { clock_plan_of program.now.body ≡ Ok plan.now }
    ensures run { IfOk result (λ run. (u : ClockUnfolding) → clock_unfolded program.now.body ≡ Ok u →
        IsSteppedClockRun places.now program.now.body u plan.now run) }
{
    let layout = ClockLayout::new(alloc, places.text(), program)?;
    let run = run_of_layout(alloc, places, &layout, program, plan)?;
    Ok(run)
}
