// The way to the first fault, task by task.

ghost use Rattle.std.specs.Prelude.{◌≡◌, ◌+◌, ◌<◌, ◌^◌, ◌∷◌, [], length};
ghost use Rattle.pl_plan.specs.inside.Checker.{IsChecker};
ghost use Rattle.pl_plan.specs.inside.CheckerSteps.{HasNames};
ghost use Rattle.explain_check.specs.inside.Noted.{turn_at};
ghost use Rattle.explain_check.specs.inside.Seeks.{Before, CameTo, HasBefore, HasLeaving, HasMidst, Leaving, Midst, SoughtAll, SoughtEnd, SoughtTask, SoughtVisits, NamedProgram, whole_body};

use crate::frames::{Item, OpenBody, go_on};
use crate::notes::{LastTurn, Note, count_turn, put_note};
use crate::sight::{StepSight, leave, look, visit};
use armus_base::{List, MAX_PHASERS, NoMemory, PhaserId, TaskId};
use pl_plan::CheckFault;
use pl_plan::checker::Checker;
use std::alloc::Global;

/// Where the fault stands: at a visit, before which this was looked at, or at the end of a task, which leaves a phaser.
#[derive(Clone, Copy)]
pub(crate) enum FaultPlace {
    Visit(StepSight),
    End(TaskId, PhaserId),
}

/// The first fault, where it stands, and the steps of the task: the first one, and the one behind them.
#[derive(Clone, Copy)]
pub(crate) struct FoundFault {
    pub fault: CheckFault,
    pub place: FaultPlace,
    pub first: u32,
    pub after: u32,
}

/// What is kept on the way: what the checker keeps; what the visits did; and for each step that is a loop the last turn.
#[derive(Drop)]
pub(crate) struct Seeker {
    pub checker: Checker,
    pub notes: List<Note>,
    pub last_turns: Vec<LastTurn>,
}

// A coming to a step. What the fault may need is looked at before.
fn come_to(
    alloc: Global,
    seeker: &mut Seeker,
    t: TaskId,
    item: Item,
    first: u32,
    after: u32,
) -> Result<Option<FoundFault>, NoMemory>
    requires fits { IsChecker seeker.old.checker }
    requires task { t.0 < length seeker.old.checker.parents }
    requires names { HasNames (length seeker.old.checker.bindings.slots) item.step }
    requires small { item.at + 1 < 2 ^ 32 }
    requires here { item.at < length seeker.old.last_turns.items }
    requires few { turn_at seeker.old.last_turns.items t.0 item.at + 1 < 2 ^ 32 }
    ensures { CameTo t item first after result seeker.old.checker seeker.old.notes seeker.old.last_turns.items seeker.new.checker seeker.new.notes seeker.new.last_turns.items }
{
    let sight = look(&seeker.checker, t, item);
    count_turn(&mut seeker.last_turns, sight);
    if let Some(fault) = visit(alloc, &mut seeker.checker, t, item)? {
        return Ok(Some(FoundFault {
            fault,
            place: FaultPlace::Visit(sight),
            first,
            after,
        }));
    }
    put_note(&mut seeker.notes, sight)?;
    Ok(None)
}

// The visits of a task.
fn seek_visits(
    alloc: Global,
    seeker: &mut Seeker,
    t: TaskId,
    first: u32,
    after: u32,
) -> Result<Option<FoundFault>, NoMemory>
    requires begun { HasMidst t.0 first after (whole_body first after ∷ []) seeker.old.checker seeker.old.notes seeker.old.last_turns.items }
    ensures { (g : NamedProgram) → Midst g t.0 first after (whole_body first after ∷ []) seeker.old.checker seeker.old.notes seeker.old.last_turns.items →
        SoughtVisits g t.0 first after result seeker.new.checker seeker.new.notes seeker.new.last_turns.items }
{
    let mut frames = Vec::new(alloc);
    frames.push(OpenBody {
        at: first,
        to: after,
        of_loop: 0,
        left: 0,
    })?;
    'frames: while let Some(frame) = frames.pop() {
        let Some(item) = go_on(&mut frames, &seeker.checker, frame)? else {
            continue;
        };
        if let Some(stop) = come_to(alloc, seeker, t, item, first, after)? {
            return Ok(Some(stop));
        }
    }
    Ok(None)
}

// The end of a task in PL 2: it leaves its phasers, in order of number.
fn seek_end(
    seeker: &mut Seeker,
    t: TaskId,
    first: u32,
    after: u32,
) -> Result<Option<FoundFault>, NoMemory>
    requires done { HasLeaving t.0 first after 0 seeker.old.checker seeker.old.notes seeker.old.last_turns.items }
    ensures { (g : NamedProgram) → Leaving g t.0 first after 0 seeker.old.checker seeker.old.notes seeker.old.last_turns.items →
        SoughtEnd g t.0 first after result seeker.new.checker seeker.new.notes seeker.new.last_turns.items }
{
    for p in 0..MAX_PHASERS {
        if let Some(fault) = leave(&mut seeker.checker, t, first, PhaserId(p))? {
            return Ok(Some(FoundFault {
                fault,
                place: FaultPlace::End(t, PhaserId(p)),
                first,
                after,
            }));
        }
    }
    Ok(None)
}

// The visits and the end of a task that is forked; another has neither.
fn seek_task(
    alloc: Global,
    seeker: &mut Seeker,
    two: bool,
    t: TaskId,
) -> Result<Option<FoundFault>, NoMemory>
    requires next { HasBefore two t.0 seeker.old.checker seeker.old.notes seeker.old.last_turns.items }
    requires here { t.0 < length seeker.old.checker.parents }
    ensures { (g : NamedProgram) → g.program.two ≡ two → Before g t.0 seeker.old.checker seeker.old.notes seeker.old.last_turns.items →
        SoughtTask g (t.0 + 1) result seeker.new.checker seeker.new.notes seeker.new.last_turns.items }
{
    let Some((first, after)) = seeker.checker.begin(alloc, t)? else {
        return Ok(None);
    };
    if let Some(stop) = seek_visits(alloc, seeker, t, first, after)? {
        return Ok(Some(stop));
    }
    if two {
        return seek_end(seeker, t, first, after);
    }
    Ok(None)
}

/// The first fault, with what was noted before it; none where all tasks pass, those included that are drawn meanwhile.
pub(crate) fn seek_tasks(
    alloc: Global,
    seeker: &mut Seeker,
    two: bool,
) -> Result<Option<FoundFault>, NoMemory>
    requires next { HasBefore two 0 seeker.old.checker seeker.old.notes seeker.old.last_turns.items }
    ensures { (g : NamedProgram) → g.program.two ≡ two → Before g 0 seeker.old.checker seeker.old.notes seeker.old.last_turns.items →
        SoughtAll g result seeker.new.notes seeker.new.last_turns.items }
{
    let mut t = 0;
    while t < seeker.checker.tasks() {
        if let Some(stop) = seek_task(alloc, seeker, two, TaskId(t))? {
            return Ok(Some(stop));
        }
        t += 1;
    }
    Ok(None)
}
