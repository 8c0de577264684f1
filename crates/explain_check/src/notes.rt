// What is noted of the visits that passed: which statement was the last to do a thing, and in which turns a task is.

ghost use Rattle.std.specs.Prelude.{◌≡◌, ◌<◌, ◌+◌, ◌^◌, ◌++◌, ◌∷◌, [], length, OnOk};
ghost use Rattle.explain_check.specs.inside.Noted.{a_deed, last_noted, phaser_in, same_deed, task_in, turn_at, with_last_turn, with_notes};

use crate::sight::StepSight;
use armus_base::{List, NoMemory, TaskId};
use pl_plan::step::{FlatStep, NameId, Thing};

/// What a statement did: its kind, and the numbers of one or two things. It drew a task (0), made a phaser (1), forked a task (2), registered a task at a
/// phaser (3), or by it a task left a phaser (4).
#[derive(Clone, Copy)]
pub(crate) struct Deed {
    pub kind: u8,
    pub first: u32,
    pub second: u32,
}

/// A deed with the number of its statement, and the name of what was drawn or made.
#[derive(Clone, Copy)]
pub(crate) struct Note {
    pub deed: Deed,
    pub statement: u32,
    pub name: Option<NameId>,
}

/// The last task that was in a loop, and in which turn.
#[derive(Clone, Copy)]
pub(crate) struct LastTurn {
    pub task: TaskId,
    pub turn: u32,
}

// Two deeds are one.
fn same_deed(a: Deed, b: Deed) -> bool
    ensures { result ≡ same_deed a b }
{
    a.kind == b.kind && (a.first == b.first && a.second == b.second)
}

/// The last note of this deed.
pub(crate) fn last_note(notes: &[Note], deed: Deed) -> Option<Note>
    ensures { result ≡ last_noted deed notes.now }
{
    let mut last = None;
    for note in notes {
        if same_deed(note.deed, deed) {
            last = Some(*note);
        }
    }
    last
}

/// The number of a task, and 0 of what is none.
pub(crate) fn task_in(thing: Thing) -> u32
    ensures { result ≡ task_in thing }
{
    match thing {
        Thing::Task(c) => c.0,
        Thing::Phaser(_) => 0,
        Thing::Nothing => 0,
    }
}

/// The number of a phaser, and 0 of what is none.
pub(crate) fn phaser_in(thing: Thing) -> u32
    ensures { result ≡ phaser_in thing }
{
    match thing {
        Thing::Phaser(p) => p.0,
        Thing::Task(_) => 0,
        Thing::Nothing => 0,
    }
}

/// Notes what this visit did, which passed.
pub(crate) fn put_note(notes: &mut List<Note>, sight: StepSight) -> Result<(), NoMemory>
    requires { sight.item.at + 1 < 2 ^ 32 }
    ensures { OnOk result (notes.new ≡ with_notes sight notes.old) }
{
    let statement = sight.item.at + 1;
    match sight.item.step {
        FlatStep::NewTask { x } => put_deed(notes, 0, sight.tasks, 0, statement, Some(x)),
        FlatStep::NewPhaser { x } => put_deed(notes, 1, sight.phasers, 0, statement, Some(x)),
        FlatStep::Fork { x: _, after: _ } => {
            put_deed(notes, 2, task_in(sight.x), 0, statement, None)
        }
        FlatStep::Reg { x: _, y: _ } => put_deed(
            notes,
            3,
            task_in(sight.x),
            phaser_in(sight.y),
            statement,
            None,
        ),
        FlatStep::Dereg { x: _ } => {
            put_deed(notes, 4, sight.t.0, phaser_in(sight.x), statement, None)
        }
        _ => Ok(()),
    }
}

// One note more.
fn put_deed(
    notes: &mut List<Note>,
    kind: u8,
    first: u32,
    second: u32,
    statement: u32,
    name: Option<NameId>,
) -> Result<(), NoMemory>
    ensures { OnOk result (notes.new ≡ notes.old ++ record { deed = a_deed kind first second; statement = statement; name = name } ∷ []) }
{
    notes.push(Note {
        deed: Deed {
            kind,
            first,
            second,
        },
        statement,
        name,
    })
}

/// In which turn task `t` is of the loop whose step has this index.
pub(crate) fn turn_of(last_turns: &[LastTurn], t: TaskId, at: u32) -> u32
    requires { at < length last_turns.now }
    ensures { result ≡ turn_at last_turns.now t.0 at }
{
    let last = last_turns[at as usize];
    if last.task.0 == t.0 { last.turn } else { 0 }
}

/// Counts a visit: one to a loop begins it anew, and one that begins a turn is one turn more.
pub(crate) fn count_turn(last_turns: &mut Vec<LastTurn>, sight: StepSight)
    requires here { sight.item.at < length last_turns.old.items }
    requires few { turn_at last_turns.old.items sight.t.0 sight.item.at + 1 < 2 ^ 32 }
    ensures { last_turns.new.items ≡ with_last_turn sight last_turns.old.items }
{
    let at = sight.item.at as usize;
    let task = sight.t;
    if sight.item.turn {
        let turn = turn_of(last_turns, task, sight.item.at) + 1;
        last_turns[at] = LastTurn { task, turn };
        return;
    }
    if let FlatStep::Loop {
        k: _,
        after: _,
        steady: _,
    } = sight.item.step
    {
        last_turns[at] = LastTurn { task, turn: 0 };
    }
}
