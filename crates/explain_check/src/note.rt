// The note on what is wrong at a check fault.
ghost use Rattle.std.specs.Prelude.{◌≡◌, ◌++◌, OnOk, codes};
ghost use Rattle.explain_check.specs.MatterNotes.{note_line, matter_note};
ghost use Rattle.explain_check.specs.NameWords.{phaser_words, task_words};

use crate::names::{put_phaser, put_task};
use crate::scene::{Matter, NamedPhaser, NamedTask};
use crate::statements::StatementPlaces;
use armus_base::NoMemory;
use source_map::{TextPlace, TextPlaces};
use std::alloc::Global;

// Words and a place, as a line.
fn put_line_at(
    alloc: Global,
    out: &mut Vec<u8>,
    places: &TextPlaces,
    words: &[u8],
    place: TextPlace,
) -> Result<(), NoMemory>
    ensures { OnOk result (out.new.items ≡ out.old.items ++ note_line places.now words.now place) }
{
    out.extend_from_slice(b"  ")?;
    out.extend_from_slice(words)?;
    places.put(alloc, out, place)?;
    out.extend_from_slice(b"\n")?;
    Ok(())
}

// Where a phaser was made, as a line.
fn put_made(
    alloc: Global,
    out: &mut Vec<u8>,
    places: &TextPlaces,
    phaser: &NamedPhaser,
    place: TextPlace,
) -> Result<(), NoMemory>
    ensures { OnOk result (out.new.items ≡ out.old.items ++ note_line places.now (phaser_words phaser.now ++ codes " made at ") place) }
{
    let mut words = Vec::new(alloc);
    put_phaser(alloc, &mut words, phaser)?;
    words.extend_from_slice(b" made at ")?;
    put_line_at(alloc, out, places, &words, place)
}

// A task, words and a place, as a line.
fn put_task_at(
    alloc: Global,
    out: &mut Vec<u8>,
    places: &TextPlaces,
    task: &NamedTask,
    verb: &[u8],
    place: TextPlace,
) -> Result<(), NoMemory>
    ensures { OnOk result (out.new.items ≡ out.old.items ++ note_line places.now (task_words task.now ++ verb.now) place) }
{
    let mut words = Vec::new(alloc);
    put_task(alloc, &mut words, task)?;
    words.extend_from_slice(verb)?;
    put_line_at(alloc, out, places, &words, place)
}

/// Appends the note on what is wrong, where the current task was forked by this statement.
pub(crate) fn put_note(
    alloc: Global,
    out: &mut Vec<u8>,
    statements: &StatementPlaces,
    forked_by: u32,
    matter: &Matter,
) -> Result<(), NoMemory>
    ensures { OnOk result (out.new.items ≡ out.old.items ++ matter_note statements.now.places statements.now.offsets statements.now.end forked_by matter.now) }
{
    let places = &statements.places;
    match matter {
        Matter::TaskWanted { phaser, made, .. } => {
            let at = statements.place(*made);
            put_made(alloc, out, places, phaser, at)
        }
        Matter::PhaserWanted { task, drawn, .. } => {
            let at = statements.place(*drawn);
            put_task_at(alloc, out, places, task, b" drawn at ", at)
        }
        Matter::HasLeft { left, .. } => {
            let at = statements.place(*left);
            put_line_at(alloc, out, places, b"it left at ", at)
        }
        Matter::NeverMember { .. } => {
            let at = statements.place(forked_by);
            put_line_at(
                alloc,
                out,
                places,
                b"it was not registered before its fork at ",
                at,
            )
        }
        Matter::AlreadyMember { registered, .. } => {
            let at = statements.place(*registered);
            put_line_at(alloc, out, places, b"it was registered at ", at)
        }
        Matter::NotDrawnHere { by, drawn, .. } => {
            let at = statements.place(*drawn);
            put_task_at(alloc, out, places, by, b" drew it at ", at)
        }
        Matter::AlreadyForked { forked, .. } => {
            let at = statements.place(*forked);
            put_line_at(alloc, out, places, b"it was forked at ", at)
        }
        _ => Ok(()),
    }
}
