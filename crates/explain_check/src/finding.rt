// The scene of the first fault.

ghost use Rattle.std.specs.Prelude.{◌≡◌, ◌<◌, ◌≤◌, ◌^◌, [], length, replicate, IfOk};
ghost use Rattle.pl_syntax.specs.Tree.{count, height};
ghost use Rattle.pl_plan.specs.inside.Numbers.{spelling};
ghost use Rattle.pl_plan.specs.inside.Opening.{IsOpeningChecker};
ghost use Rattle.explain_check.specs.calls.Scenes.{TellsScene};
ghost use Rattle.pl_syntax.specs.declared.tree.Program.{Program as ProgramValue};
ghost use Rattle.explain_check.specs.inside.Noted.{no_turn};
ghost use Rattle.explain_check.specs.inside.Seeks.{Before, HasSource, a_source};
ghost use Rattle.explain_check.specs.inside.Told.{CanBeTold, EndScene, PlaceCanBeTold, PlaceScene, VisitScene};

use crate::around::turns_told;
use crate::notes::LastTurn;
use crate::scene::{Matter, Scene};
use crate::seek::{FaultPlace, FoundFault, Seeker, seek_tasks};
use crate::sight::StepSight;
use crate::telling::{forked_by, phaser_told, task_told, visit_told};
use armus_base::{List, NoMemory, PhaserId, TaskId};
use indexmap::IndexSet;
use pl_plan::checker::Checker;
use pl_plan::flatten::flatten_body;
use pl_plan::step::FlatStep;
use pl_syntax::{MAX_OPEN_BRACES, Program};
use std::alloc::{AllocError, Global};

// What is told of a fault at a visit.
fn visit_scene(
    alloc: Global,
    names: &[&[u8]],
    seeker: &Seeker,
    steps: &[FlatStep],
    stop: FoundFault,
    sight: StepSight,
) -> Result<Scene, NoMemory>
    requires { CanBeTold seeker.now.last_turns.items steps.now stop.first stop.after sight }
    ensures { IfOk result (VisitScene (spelling names.now) seeker.now.notes seeker.now.last_turns.items steps.now stop sight) }
{
    let notes = seeker.notes.as_slice();
    let task = task_told(alloc, names, notes, sight.t.0)?;
    let range = (stop.first, stop.after);
    let n = sight.item.at + 1;
    let turns = turns_told(alloc, steps, range, &seeker.last_turns, sight.t, n)?;
    let matter = visit_told(alloc, names, notes, stop.fault.kind, sight)?;
    Ok(Scene {
        fault: stop.fault,
        task,
        forked: forked_by(notes, sight.t.0),
        turns,
        matter,
    })
}

// What is told of a fault at the end of a task.
fn end_scene(
    alloc: Global,
    names: &[&[u8]],
    seeker: &Seeker,
    stop: FoundFault,
    t: TaskId,
    p: PhaserId,
) -> Result<Scene, NoMemory>
    ensures { IfOk result (EndScene (spelling names.now) seeker.now.notes stop t.0 p.0) }
{
    let notes = seeker.notes.as_slice();
    let task = task_told(alloc, names, notes, t.0)?;
    let phaser = phaser_told(alloc, names, notes, p.0)?;
    Ok(Scene {
        fault: stop.fault,
        task,
        forked: forked_by(notes, t.0),
        turns: List::new(alloc),
        matter: Matter::TooManyOpsAtEnd { phaser },
    })
}

// What is told of a fault.
fn place_scene(
    alloc: Global,
    names: &[&[u8]],
    seeker: &Seeker,
    steps: &[FlatStep],
    stop: FoundFault,
) -> Result<Scene, NoMemory>
    requires { PlaceCanBeTold seeker.now.last_turns.items steps.now stop.first stop.after stop.place }
    ensures { IfOk result (PlaceScene (spelling names.now) seeker.now.notes seeker.now.last_turns.items steps.now stop stop.place) }
{
    match stop.place {
        FaultPlace::Visit(sight) => visit_scene(alloc, names, seeker, steps, stop, sight),
        FaultPlace::End(t, p) => end_scene(alloc, names, seeker, stop, t, p),
    }
}

// No turn of any loop.
fn no_turns(alloc: Global, n: usize) -> Result<Vec<LastTurn>, AllocError>
    ensures { IfOk result (λ v. v.items ≡ replicate n no_turn) }
{
    let last = LastTurn {
        task: TaskId(0),
        turn: 0,
    };
    vec![in alloc; last; n]
}

// What is kept before the first visit.
fn new_seeker(alloc: Global, steps: Vec<FlatStep>, names: usize) -> Result<Seeker, NoMemory>
    requires { length steps.items < 2 ^ 32 }
    ensures checker { IfOk result (λ s. IsOpeningChecker steps.items names s.checker) }
    ensures notes { IfOk result (λ s. s.notes ≡ []) }
    ensures last_turns { IfOk result (λ s. s.last_turns.items ≡ replicate (length steps.items) no_turn) }
{
    let last_turns = no_turns(alloc, steps.len())?;
    Ok(Seeker {
        checker: Checker::new(alloc, steps, names)?,
        notes: List::new(alloc),
        last_turns,
    })
}

// The scene of the first fault from the first task on, by the names and the steps.
fn find_scene(
    alloc: Global,
    names: &[&[u8]],
    steps: &[FlatStep],
    seeker: &mut Seeker,
    two: bool,
) -> Result<Option<Scene>, NoMemory>
    requires next { HasSource two (spelling names.now) steps.now seeker.old.checker seeker.old.notes seeker.old.last_turns.items }
    ensures { (program : ProgramValue) → program.two ≡ two →
        Before (a_source program (spelling names.now) steps.now) 0 seeker.old.checker seeker.old.notes seeker.old.last_turns.items → IfOk result (TellsScene program) }
{
    match seek_tasks(alloc, seeker, two)? {
        None => Ok(None),
        Some(stop) => Ok(Some(place_scene(alloc, names, seeker, steps, stop)?)),
    }
}

/// What is known of the first check fault of a program; none where it has a plan. The only error is want of memory.
///
/// The walk to the fault makes at most `MAX_VISITS` visits, and keeps for each task that is drawn or forked, each phaser that is made, and each registration
/// and leaving the number of its statement.
pub fn scene_of(alloc: Global, program: &Program) -> Result<Option<Scene>, NoMemory>
    requires few { count program.now.body < 2 ^ 32 }
    requires shallow { height program.now.body ≤ MAX_OPEN_BRACES }
    ensures scene { IfOk result (TellsScene program.now) }
{
    let mut names = IndexSet::new(alloc);
    let mut steps = Vec::new(alloc);
    flatten_body(&mut names, &mut steps, &program.body)?;
    let kept = Vec::from_slice(alloc, &steps)?;
    let mut seeker = new_seeker(alloc, steps, names.len())?;
    find_scene(alloc, names.as_slice(), &kept, &mut seeker, program.two)
}
