// Where the unfolding was at a check fault.
ghost use Rattle.std.specs.Prelude.{◌≡◌, ◌++◌, [], OnOk, codes, decimal, flat_map};
ghost use Rattle.source_map.specs.PlaceWords.{place_words};
ghost use Rattle.explain_check.specs.NameWords.{task_words};
ghost use Rattle.explain_check.specs.Whereabouts.{forked_at_words, is_none, more_turns, loop_turn_words, turns_words, whereabouts, whereabouts_words};

use crate::names::put_task;
use crate::scene::{LoopTurn, NamedTask};
use crate::statements::StatementPlaces;
use armus_base::NoMemory;
use source_map::{TextPlace, TextPlaces};
use std::alloc::Global;

// The task, and the place where it was forked.
fn put_forked_at(
    alloc: Global,
    out: &mut Vec<u8>,
    places: &TextPlaces,
    task: &NamedTask,
    place: TextPlace,
) -> Result<(), NoMemory>
    ensures { OnOk result (out.new.items ≡ out.old.items ++ (codes "in " ++ task_words task.now ++ codes ", forked at " ++ place_words places.now place)) }
{
    out.extend_from_slice(b"in ")?;
    put_task(alloc, out, task)?;
    out.extend_from_slice(b", forked at ")?;
    places.put(alloc, out, place)
}

// The task, and where it was forked.
fn put_forked(
    alloc: Global,
    out: &mut Vec<u8>,
    statements: &StatementPlaces,
    task: &NamedTask,
    forked: u32,
) -> Result<(), NoMemory>
    ensures { OnOk result (out.new.items ≡ out.old.items ++ forked_at_words statements.now.places statements.now.offsets statements.now.end task.now forked) }
{
    put_forked_at(
        alloc,
        out,
        &statements.places,
        task,
        statements.place(forked),
    )
}

// The number of a turn.
fn put_turn_number(alloc: Global, out: &mut Vec<u8>, number: u32) -> Result<(), NoMemory>
    ensures { OnOk result (out.new.items ≡ out.old.items ++ (codes "turn " ++ decimal number ++ codes " of the loop at ")) }
{
    let text = format!(in alloc; "turn {number} of the loop at ")?;
    out.extend_from_slice(text.as_bytes())?;
    Ok(())
}

// The number of a turn, and the place of its loop.
fn put_turn_at(
    alloc: Global,
    out: &mut Vec<u8>,
    places: &TextPlaces,
    number: u32,
    place: TextPlace,
) -> Result<(), NoMemory>
    ensures { OnOk result (out.new.items ≡ out.old.items ++ ((codes "turn " ++ decimal number ++ codes " of the loop at ") ++ place_words places.now place)) }
{
    put_turn_number(alloc, out, number)?;
    places.put(alloc, out, place)
}

// A turn of a loop.
fn put_turn(
    alloc: Global,
    out: &mut Vec<u8>,
    statements: &StatementPlaces,
    turn: LoopTurn,
) -> Result<(), NoMemory>
    ensures { OnOk result (out.new.items ≡ out.old.items ++ loop_turn_words statements.now.places statements.now.offsets statements.now.end turn) }
{
    put_turn_at(
        alloc,
        out,
        &statements.places,
        turn.turn,
        statements.place(turn.statement),
    )
}

// A turn of a loop, behind a semicolon.
fn put_next_turn(
    alloc: Global,
    out: &mut Vec<u8>,
    statements: &StatementPlaces,
    turn: LoopTurn,
) -> Result<(), NoMemory>
    ensures { OnOk result (out.new.items ≡ out.old.items ++ (codes "; " ++ loop_turn_words statements.now.places statements.now.offsets statements.now.end turn)) }
{
    out.extend_from_slice(b"; ")?;
    put_turn(alloc, out, statements, turn)
}

// Turns of loops, each behind a semicolon.
fn put_more_turns(
    alloc: Global,
    out: &mut Vec<u8>,
    statements: &StatementPlaces,
    turns: &[LoopTurn],
) -> Result<(), NoMemory>
    ensures { OnOk result (out.new.items ≡ out.old.items ++ more_turns statements.now.places statements.now.offsets statements.now.end turns.now) }
{
    for turn in turns {
        put_next_turn(alloc, out, statements, *turn)?;
    }
    Ok(())
}

// Turns of loops, with semicolons between them.
fn put_turns(
    alloc: Global,
    out: &mut Vec<u8>,
    statements: &StatementPlaces,
    turns: &[LoopTurn],
) -> Result<(), NoMemory>
    ensures { OnOk result (out.new.items ≡ out.old.items ++ turns_words statements.now.places statements.now.offsets statements.now.end turns.now) }
{
    match turns {
        [] => Ok(()),
        [first, more @ ..] => {
            put_turn(alloc, out, statements, *first)?;
            put_more_turns(alloc, out, statements, more)
        }
    }
}

// The task, where it is not task 0, and the turns of its loops.
fn put_parts(
    alloc: Global,
    out: &mut Vec<u8>,
    statements: &StatementPlaces,
    task: &NamedTask,
    forked: u32,
    turns: &[LoopTurn],
) -> Result<(), NoMemory>
    ensures { OnOk result (out.new.items ≡ out.old.items ++ whereabouts_words statements.now.places statements.now.offsets statements.now.end task.now forked turns.now) }
{
    if task.t.0 == 0 {
        return put_turns(alloc, out, statements, turns);
    }
    put_forked(alloc, out, statements, task, forked)?;
    put_more_turns(alloc, out, statements, turns)
}

// Whether there are no turns.
fn is_none(turns: &[LoopTurn]) -> bool
    ensures { result ≡ is_none turns.now }
{
    matches!(turns, [])
}

/// Appends where the unfolding was: in which task, and in which turns of its loops. There is no line for task 0 outside of loops.
pub(crate) fn put_whereabouts(
    alloc: Global,
    out: &mut Vec<u8>,
    statements: &StatementPlaces,
    task: &NamedTask,
    forked: u32,
    turns: &[LoopTurn],
) -> Result<(), NoMemory>
    ensures { OnOk result (out.new.items ≡ out.old.items ++ whereabouts statements.now.places statements.now.offsets statements.now.end task.now forked turns.now) }
{
    if task.t.0 == 0 && is_none(turns) {
        return Ok(());
    }
    out.extend_from_slice(b"  ")?;
    put_parts(alloc, out, statements, task, forked, turns)?;
    out.extend_from_slice(b"\n")?;
    Ok(())
}
