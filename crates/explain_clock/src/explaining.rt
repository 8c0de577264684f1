// The explanation of a clock text.
ghost use Rattle.std.specs.Prelude.{◌≡◌, ◌+◌, ◌++◌, ◌<◌, ◌^◌, Ok, IfOk, OnOk, length, option_copied};
ghost use Rattle.armus_base.specs.Finals.{final_of};
ghost use Rattle.armus_base.specs.calls.Statuses.{IsInOrder};
ghost use Rattle.armus_base.specs.Places.{done_by};
ghost use Rattle.pl_core.specs.calls.Worlds.{places_of, state_of};
ghost use Rattle.clock_syntax.specs.Grammar.{IsClockText};
ghost use Rattle.clock_syntax.specs.Trees.{clock_count};
ghost use Rattle.clock_semantics.specs.Unfolding.{ClockUnfolding, clock_plan_of, clock_unfolded};
ghost use Rattle.explain_clock.specs.ClockFacts.{ClockFacts};
ghost use Rattle.explain_clock.specs.ClockExplanations.{ExplainsActivities, clock_end, clock_lines, some_activity_waits};
ghost use Rattle.explain_clock.specs.inside.ToldOf.{IsToldByFacts};

use crate::circle::circle_of;
use crate::counts::{put_counts, somebody_waits};
use crate::facts::{ClockFacts, Wait};
use crate::text_facts::{ClockLayout, ClockTextFacts};
use crate::waits::waits_of;
use armus_base::{Final, List, NoMemory, Plan, TaskId};
use clock_source_map::clock_op_origins;
use clock_syntax::ClockProgram;
use pl_core::World;
use source_map::TextPlaces;
use std::alloc::Global;

/// The explanation of a run of a clock text, and whether somebody waits for ever.
#[derive(Drop)]
pub struct ClockExplanation {
    /// The lines of the explanation.
    pub lines: List<u8>,
    /// Whether an activity waits.
    pub has_waiting: bool,
}

/// Where a run of a plan has ended, and where its activities wait.
#[derive(Drop)]
struct ClockRunEnd<'a> {
    plan: &'a Plan,
    end: &'a Final,
    waits: Vec<Wait>,
}

// Appends what stands behind the paragraphs: the hint of this circle where somebody waits, and the notes where nobody does.
fn put_end(
    facts: &ClockFacts<'_>,
    plan: &Plan,
    out: &mut Vec<u8>,
    circle: &[TaskId],
    somebody: bool,
) -> Result<(), NoMemory>
    ensures { OnOk result (out.new.items ≡ out.old.items ++ clock_end facts.now plan.now circle.now somebody) }
{
    if somebody {
        facts.put_circle_hint(out, circle)
    } else {
        facts.of_text.put_notes(out, plan)
    }
}

// Explains what is known of a run of this plan, where this is the circle.
fn explain_facts(
    facts: &ClockFacts<'_>,
    plan: &Plan,
    circle: &[TaskId],
) -> Result<ClockExplanation, NoMemory>
    ensures lines { IfOk result (λ e. e.lines ≡ clock_lines facts.now plan.now circle.now) }
    ensures waits { IfOk result (λ e. e.has_waiting ≡ some_activity_waits facts.now.ends) }
{
    let ends = facts.end.ends.as_slice();
    let somebody = somebody_waits(ends);
    let of_text = facts.of_text;
    let alloc = of_text.alloc;
    let mut out = Vec::new(alloc);
    put_counts(alloc, &mut out, ends)?;
    facts.put_verdict(&mut out, circle, somebody)?;
    facts.put_paragraphs(&mut out, circle)?;
    put_end(facts, plan, &mut out, circle, somebody)?;
    Ok(ClockExplanation {
        lines: List::from_vec(out),
        has_waiting: somebody,
    })
}

// Explains what is known of a text, where a run has ended so.
fn explain_waits(
    of_text: &ClockTextFacts<'_>,
    run: ClockRunEnd<'_>,
) -> Result<ClockExplanation, NoMemory>
    requires few { length run.end.now.ends < 2 ^ 32 }
    requires in_order { IsInOrder run.end.now.blocked }
    ensures { IfOk result (λ e. (f : ClockFacts) → f ≡ record { of_text = of_text.now; ends = run.entry.end.now.ends; blocked = run.entry.end.now.blocked; waits = run.entry.waits.items }
        → IsToldByFacts f run.entry.plan.now e.lines × (e.has_waiting ≡ some_activity_waits f.ends)) }
{
    let ClockRunEnd { plan, end, waits } = run;
    let facts = ClockFacts::new(of_text, end, waits);
    let circle = circle_of(of_text.alloc, end.blocked.as_slice())?;
    let explanation = explain_facts(&facts, plan, circle.as_slice())?;
    Ok(explanation)
}

// Explains what is known of a text with these places and this layout, where a run has ended so.
fn explain_layout(
    alloc: Global,
    places: &TextPlaces<'_>,
    file: Option<&[u8]>,
    layout: &ClockLayout<'_>,
    run: ClockRunEnd<'_>,
) -> Result<ClockExplanation, NoMemory>
    requires few { length run.end.now.ends < 2 ^ 32 }
    requires in_order { IsInOrder run.end.now.blocked }
    ensures { IfOk result (λ e. (f : ClockFacts) → f ≡ record {
      of_text = record {
        text = places.now;
        file = option_copied file.entry;
        offsets = layout.now.offsets;
        begun = layout.now.origins.begun;
        things = layout.now.origins.things;
      };
      ends = run.entry.end.now.ends;
      blocked = run.entry.end.now.blocked;
      waits = run.entry.waits.items;
    } → IsToldByFacts f run.entry.plan.now e.lines × (e.has_waiting ≡ some_activity_waits f.ends)) }
{
    let of_text = ClockTextFacts::new(alloc, places, file, layout);
    let explanation = explain_waits(&of_text, run)?;
    Ok(explanation)
}

/// Explains where a run of the plan of a clock text has ended: `world` is that of its end, and `end` the value of its state. `places` are those of the
/// text, which is this program and unfolds to the plan of the world, and `file` is the name of its file, if it comes from one. The only error is want of
/// memory. The time is linear in the visits of the unfolding, in the pairs of an activity that waits with another one, with a clock or finish or with a
/// paragraph, and for each clock or finish for which one waits in the ops that those have left who keep it waiting; and where nobody waits, in the ops of
/// the plan and in the pairs of two clocks or finishes.
pub fn clock_explanation_of(
    alloc: Global,
    places: &TextPlaces<'_>,
    file: Option<&[u8]>,
    program: &ClockProgram,
    world: &World<'_>,
    end: &Final,
) -> Result<ClockExplanation, NoMemory>
    requires few { clock_count program.now.body + 1 < 2 ^ 32 }
    requires reads { IsClockText places.now program.now.body }
    requires plan { clock_plan_of program.now.body ≡ Ok world.now.plan }
    requires end { end.now ≡ final_of world.now.plan (state_of world.now) }
    ensures { IfOk result (λ e. (u : ClockUnfolding) → clock_unfolded program.now.body ≡ Ok u →
        ExplainsActivities (option_copied file.entry) places.now program.now.body u world.now.plan (state_of world.now) (done_by (places_of world.now)) e.lines e.has_waiting) }
{
    let plan = world.plan();
    let layout = ClockLayout::new(alloc, places.text(), program)?;
    let ops = clock_op_origins(alloc, program, plan)?;
    let waits = waits_of(
        alloc,
        &layout.origins,
        ops.as_slice(),
        world,
        end.ends.as_slice(),
    )?;
    let explanation = explain_layout(
        alloc,
        places,
        file,
        &layout,
        ClockRunEnd { plan, end, waits },
    )?;
    Ok(explanation)
}
