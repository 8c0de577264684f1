// What is wrong at a fault, by the notes and by what was looked at.

ghost use Rattle.std.specs.Prelude.{◌≡◌, ◌≤◌, IfOk};
ghost use Rattle.pl_plan.specs.inside.Numbers.{spelling};
ghost use Rattle.explain_check.specs.inside.Noted.{a_deed, last_noted};
ghost use Rattle.explain_check.specs.inside.Told.{cells_told, drawn_told, forked_told, limit_told, member_told, name_noted, names_told, parent_told, phaser_told, reg_told, registered_told, statement_noted, task_told, thing_told, visit_told, wanted_told};

use crate::notes::{Deed, Note, last_note, phaser_in, task_in};
use crate::scene::{Matter, NamedPhaser, NamedTask, Verb};
use crate::sight::StepSight;
use armus_base::{List, MAX_PHASERS, MAX_TASKS, NoMemory, PhaserId, TaskId};
use pl_plan::step::{FlatStep, NameId, Thing};
use pl_plan::{
    ALREADY_FORKED, ALREADY_MEMBER, NOT_DRAWN_HERE, NOT_MEMBER, OTHER_KIND, TOO_MANY_CELLS,
    TOO_MANY_OPS, TOO_MANY_PHASERS, TOO_MANY_TASKS, UNKNOWN_NAME,
};
use std::alloc::Global;

// The bytes of a name.
fn bytes_of(alloc: Global, names: &[&[u8]], x: NameId) -> Result<List<u8>, NoMemory>
    ensures { IfOk result (λ name. name ≡ spelling names.now x.0) }
{
    match names.get(x.0 as usize) {
        None => Ok(List::new(alloc)),
        Some(name) => Ok(List::from_vec(Vec::from_slice(alloc, name)?)),
    }
}

// The name in a note.
fn name_noted(alloc: Global, names: &[&[u8]], note: Option<Note>) -> Result<List<u8>, NoMemory>
    ensures { IfOk result (λ name. name ≡ name_noted (spelling names.now) note) }
{
    match note {
        None => Ok(List::new(alloc)),
        Some(note) => match note.name {
            None => Ok(List::new(alloc)),
            Some(x) => bytes_of(alloc, names, x),
        },
    }
}

/// The statement of a note, and 0 where there is none.
pub(crate) fn statement_noted(note: Option<Note>) -> u32
    ensures { result ≡ statement_noted note }
{
    match note {
        None => 0,
        Some(note) => note.statement,
    }
}

// The last note of a deed on one or two things.
fn last_of(notes: &[Note], kind: u8, first: u32, second: u32) -> Option<Note>
    ensures { result ≡ last_noted (a_deed kind first second) notes.now }
{
    last_note(
        notes,
        Deed {
            kind,
            first,
            second,
        },
    )
}

/// The statement that forked the task, and 0 for task 0.
pub(crate) fn forked_by(notes: &[Note], c: u32) -> u32
    ensures { result ≡ statement_noted (last_noted (a_deed 2 c 0) notes.now) }
{
    statement_noted(last_of(notes, 2, c, 0))
}

/// A task with its name.
pub(crate) fn task_told(
    alloc: Global,
    names: &[&[u8]],
    notes: &[Note],
    c: u32,
) -> Result<NamedTask, NoMemory>
    ensures { IfOk result (λ x. x ≡ task_told (spelling names.now) notes.now c) }
{
    let name = name_noted(alloc, names, last_of(notes, 0, c, 0))?;
    Ok(NamedTask { t: TaskId(c), name })
}

/// A phaser with its name.
pub(crate) fn phaser_told(
    alloc: Global,
    names: &[&[u8]],
    notes: &[Note],
    p: u32,
) -> Result<NamedPhaser, NoMemory>
    ensures { IfOk result (λ x. x ≡ phaser_told (spelling names.now) notes.now p) }
{
    let name = name_noted(alloc, names, last_of(notes, 1, p, 0))?;
    Ok(NamedPhaser {
        p: PhaserId(p),
        name,
    })
}

// With a name, by what it stands for.
fn thing_told(
    alloc: Global,
    names: &[&[u8]],
    notes: &[Note],
    verb: Verb,
    x: NameId,
    thing: Thing,
) -> Result<Matter, NoMemory>
    ensures { IfOk result (λ m. m ≡ thing_told (spelling names.now) notes.now verb (spelling names.now x.0) thing) }
{
    let name = bytes_of(alloc, names, x)?;
    match thing {
        Thing::Nothing => Ok(Matter::UnknownName { name }),
        Thing::Phaser(p) => {
            let phaser = phaser_told(alloc, names, notes, p.0)?;
            let made = statement_noted(last_of(notes, 1, p.0, 0));
            Ok(Matter::TaskWanted {
                name,
                verb,
                phaser,
                made,
            })
        }
        Thing::Task(c) => {
            let task = task_told(alloc, names, notes, c.0)?;
            let drawn = statement_noted(last_of(notes, 0, c.0, 0));
            Ok(Matter::PhaserWanted {
                name,
                verb,
                task,
                drawn,
            })
        }
    }
}

// With the names of a reg.
fn reg_told(
    alloc: Global,
    names: &[&[u8]],
    notes: &[Note],
    sight: StepSight,
    x: NameId,
    y: NameId,
) -> Result<Matter, NoMemory>
    ensures { IfOk result (λ m. m ≡ reg_told (spelling names.now) notes.now (spelling names.now x.0) (spelling names.now y.0) sight.x sight.y) }
{
    match sight.x {
        Thing::Task(_) => thing_told(alloc, names, notes, Verb::Reg, y, sight.y),
        Thing::Phaser(_) => thing_told(alloc, names, notes, Verb::Reg, x, sight.x),
        Thing::Nothing => thing_told(alloc, names, notes, Verb::Reg, x, sight.x),
    }
}

// With the names of a step.
fn names_told(
    alloc: Global,
    names: &[&[u8]],
    notes: &[Note],
    sight: StepSight,
) -> Result<Matter, NoMemory>
    ensures { IfOk result (λ m. m ≡ names_told (spelling names.now) notes.now sight sight.item.step) }
{
    match sight.item.step {
        FlatStep::Fork { x, after: _ } => thing_told(alloc, names, notes, Verb::Fork, x, sight.x),
        FlatStep::Reg { x, y } => reg_told(alloc, names, notes, sight, x, y),
        FlatStep::Dereg { x } => thing_told(alloc, names, notes, Verb::Dereg, x, sight.x),
        FlatStep::Adv { x } => thing_told(alloc, names, notes, Verb::Adv, x, sight.x),
        FlatStep::Await { x, off: _ } => thing_told(alloc, names, notes, Verb::Await, x, sight.x),
        _ => Ok(Matter::TooManyVisits),
    }
}

// The phaser of which the task has to be a member.
fn wanted_told(sight: StepSight) -> u32
    ensures { result ≡ wanted_told sight sight.item.step }
{
    match sight.item.step {
        FlatStep::Reg { x: _, y: _ } => phaser_in(sight.y),
        _ => phaser_in(sight.x),
    }
}

// The task is no member of the phaser: it has left it, or it never was one.
fn member_told(
    alloc: Global,
    names: &[&[u8]],
    notes: &[Note],
    t: TaskId,
    p: u32,
) -> Result<Matter, NoMemory>
    ensures { IfOk result (λ m. m ≡ member_told (spelling names.now) notes.now p (last_noted (a_deed 4 t.0 p) notes.now)) }
{
    let phaser = phaser_told(alloc, names, notes, p)?;
    match last_of(notes, 4, t.0, p) {
        None => Ok(Matter::NeverMember { phaser }),
        Some(note) => Ok(Matter::HasLeft {
            phaser,
            left: note.statement,
        }),
    }
}

// The task is a member of the phaser.
fn registered_told(
    alloc: Global,
    names: &[&[u8]],
    notes: &[Note],
    c: u32,
    p: u32,
) -> Result<Matter, NoMemory>
    ensures { IfOk result (λ m. m ≡ registered_told (spelling names.now) notes.now c p) }
{
    let task = task_told(alloc, names, notes, c)?;
    let phaser = phaser_told(alloc, names, notes, p)?;
    let registered = statement_noted(last_of(notes, 3, c, p));
    Ok(Matter::AlreadyMember {
        task,
        phaser,
        registered,
    })
}

// The number of the task that drew a task.
fn parent_told(parent: Option<TaskId>) -> u32
    ensures { result ≡ parent_told parent }
{
    match parent {
        None => 0,
        Some(u) => u.0,
    }
}

// Another task drew the task.
fn drawn_told(
    alloc: Global,
    names: &[&[u8]],
    notes: &[Note],
    c: u32,
    parent: Option<TaskId>,
) -> Result<Matter, NoMemory>
    ensures { IfOk result (λ m. m ≡ drawn_told (spelling names.now) notes.now c parent) }
{
    let task = task_told(alloc, names, notes, c)?;
    let by = task_told(alloc, names, notes, parent_told(parent))?;
    let drawn = statement_noted(last_of(notes, 0, c, 0));
    Ok(Matter::NotDrawnHere { task, by, drawn })
}

// The task is forked.
fn forked_told(alloc: Global, names: &[&[u8]], notes: &[Note], c: u32) -> Result<Matter, NoMemory>
    ensures { IfOk result (λ m. m ≡ forked_told (spelling names.now) notes.now c) }
{
    let task = task_told(alloc, names, notes, c)?;
    Ok(Matter::AlreadyForked {
        task,
        forked: forked_by(notes, c),
    })
}

// So many tasks and phasers, with the one that is drawn or made.
fn cells_told(sight: StepSight) -> Matter
    requires tasks { sight.tasks ≤ MAX_TASKS }
    requires phasers { sight.phasers ≤ MAX_PHASERS }
    ensures { result ≡ cells_told sight sight.item.step }
{
    match sight.item.step {
        FlatStep::NewTask { x: _ } => Matter::TooManyCells {
            tasks: sight.tasks + 1,
            phasers: sight.phasers,
        },
        _ => Matter::TooManyCells {
            tasks: sight.tasks,
            phasers: sight.phasers + 1,
        },
    }
}

// Of a limit, by the kind of the fault.
fn limit_told(kind: u8, sight: StepSight) -> Matter
    requires tasks { sight.tasks ≤ MAX_TASKS }
    requires phasers { sight.phasers ≤ MAX_PHASERS }
    ensures { result ≡ limit_told kind sight }
{
    if kind == TOO_MANY_TASKS {
        return Matter::TooManyTasks;
    }
    if kind == TOO_MANY_PHASERS {
        return Matter::TooManyPhasers;
    }
    if kind == TOO_MANY_OPS {
        return Matter::TooManyOps;
    }
    if kind == TOO_MANY_CELLS {
        return cells_told(sight);
    }
    Matter::TooManyVisits
}

/// What is wrong at a visit, by the kind of the fault.
pub(crate) fn visit_told(
    alloc: Global,
    names: &[&[u8]],
    notes: &[Note],
    kind: u8,
    sight: StepSight,
) -> Result<Matter, NoMemory>
    requires tasks { sight.tasks ≤ MAX_TASKS }
    requires phasers { sight.phasers ≤ MAX_PHASERS }
    ensures { IfOk result (λ m. m ≡ visit_told (spelling names.now) notes.now kind sight) }
{
    let p = wanted_told(sight);
    let c = task_in(sight.x);
    if kind == UNKNOWN_NAME {
        return names_told(alloc, names, notes, sight);
    }
    if kind == OTHER_KIND {
        return names_told(alloc, names, notes, sight);
    }
    if kind == NOT_MEMBER {
        return member_told(alloc, names, notes, sight.t, p);
    }
    if kind == ALREADY_MEMBER {
        return registered_told(alloc, names, notes, c, p);
    }
    if kind == NOT_DRAWN_HERE {
        return drawn_told(alloc, names, notes, c, sight.parent);
    }
    if kind == ALREADY_FORKED {
        return forked_told(alloc, names, notes, c);
    }
    Ok(limit_told(kind, sight))
}
