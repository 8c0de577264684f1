// From which statements of a clock program the ops of its plan come.
ghost use Rattle.std.specs.Prelude.{◌≡◌, ◌+◌, ◌<◌, ◌^◌, Ok, Some, IfOk, IfSome, length, slice_get};
ghost use Rattle.armus_base.specs.Plans.{code_of};
ghost use Rattle.clock_syntax.specs.Trees.{clock_count};
ghost use Rattle.clock_semantics.specs.Unfolding.{ClockUnfolding, clock_plan_of, clock_unfolded};
ghost use Rattle.clock_source_map.specs.ClockOps.{all_op_origins};
ghost use Rattle.clock_source_map.specs.inside.OpNotes.{code_noted};

use crate::notes::ClockBegun;
use crate::op_notes::OpNotes;
use crate::op_walk::note_body;
use crate::origins::ClockOrigins;
use armus_base::{Cursor, List, NoMemory, Plan, TaskId};
use clock_syntax::ClockProgram;
use std::alloc::Global;

// From which statement each op of this code comes, of an activity that is started so; room is made for so many ops first.
fn code_origins(
    alloc: Global,
    begun: &ClockBegun<'_>,
    code: Cursor<'_>,
    room: usize,
) -> Result<List<Option<u32>>, NoMemory>
    ensures { IfOk result (λ os. os ≡ (code_noted begun.now code.entry).origins) }
{
    let mut notes = OpNotes::new(alloc, code, room)?;
    note_body(&mut notes, begun.first, begun.body)?;
    notes.stop()?;
    Ok(notes.into_origins())
}

// The same for the code of task `t`, whose activity is one of these.
fn task_origins(
    alloc: Global,
    origins: &ClockOrigins<'_>,
    plan: &Plan,
    t: u32,
) -> Result<List<Option<u32>>, NoMemory>
    requires task { t < length plan.now.parents }
    requires begun { t < length origins.now.begun }
    ensures { IfOk result (λ os. IfSome (slice_get origins.now.begun t) (λ b. os ≡ (code_noted b (code_of plan.now t)).origins)) }
{
    let Some(begun) = origins.begun(t) else {
        unreachable!();
    };
    let room = plan.pieces(TaskId(t)).len();
    code_origins(alloc, begun, plan.cursor(TaskId(t)), room)
}

/// From which statement each op of a plan comes, for each task in order of its number, and each op of its code: the number of the statement, and None for
/// the ops by which an activity leaves its clocks and its finish at its end. The plan is that to which the program unfolds. The time is linear in the visits
/// of the unfolding and in the ops; the answer takes 8 bytes an op.
pub fn clock_op_origins(
    alloc: Global,
    program: &ClockProgram,
    plan: &Plan,
) -> Result<List<List<Option<u32>>>, NoMemory>
    requires few { clock_count program.now.body + 1 < 2 ^ 32 }
    requires unfolds { clock_plan_of program.now.body ≡ Ok plan.now }
    ensures { IfOk result (λ origins. (u : ClockUnfolding) → clock_unfolded program.now.body ≡ Ok u → origins ≡ all_op_origins u) }
{
    let origins = ClockOrigins::new(alloc, program)?;
    let mut all = List::new(alloc);
    for t in 0..plan.tasks() {
        all.push(task_origins(alloc, &origins, plan, t)?)?;
    }
    Ok(all)
}
