// The notes, where nobody waits for ever: on phasers for which nobody ever has to wait, and on awaits at which nobody ever has to.
ghost use Rattle.std.specs.Prelude.{◌≡◌, ◌++◌, ◌<◌, OnOk, length};
ghost use Rattle.explain_deadlock.specs.Notes.{alone_words, immediate_note, immediate_notes, made_front, note_by, notes, phaser_notes, unawaited_note, why_immediate};
ghost use Rattle.explain_deadlock.specs.inside.Fitting.{IsTextOf};
ghost use Rattle.explain_tasks.specs.Places.{front_in};

use armus_base::{NoMemory, Offset, PhaserId, Plan, TaskId, put_words};
use explain_facts::{Account, ImmediateAwait, PhaserUse, used_phasers};
use explain_tasks::Facts;
use source_map::{TextPlace, TextPlaces};

/// A text with its account.
#[derive(Clone, Copy, Drop)]
pub(crate) struct NotedText<'a> {
    /// Its places.
    pub(crate) places: &'a TextPlaces<'a>,
    /// The name of its file, if it comes from one.
    pub(crate) file: Option<&'a [u8]>,
    /// What is known of its tasks and phasers.
    pub(crate) account: &'a Account,
    /// Its plan.
    pub(crate) plan: &'a Plan,
}

// Appends the place at which a phaser is made.
fn put_made_front(
    facts: &Facts,
    text: NotedText<'_>,
    out: &mut Vec<u8>,
    p: PhaserId,
) -> Result<(), NoMemory>
    requires text { IsTextOf facts.now text }
    ensures { OnOk result (out.new.items ≡ out.old.items ++ made_front facts.now p.0) }
{
    match text.account.phasers.as_slice().get(p.0 as usize) {
        Some(at) => text.places.put_front(facts.alloc(), out, text.file, *at),
        None => Ok(()),
    }
}

// Appends the note that nobody awaits a phaser.
fn put_unawaited(
    facts: &Facts,
    text: NotedText<'_>,
    out: &mut Vec<u8>,
    p: PhaserId,
) -> Result<(), NoMemory>
    requires text { IsTextOf facts.now text }
    ensures { OnOk result (out.new.items ≡ out.old.items ++ unawaited_note facts.now p.0) }
{
    put_made_front(facts, text, out, p)?;
    put_words(out, b": note: nobody awaits ")?;
    facts.put_named_phaser(out, p)?;
    put_words(out, b"\n")
}

// Appends the note that only this task, its maker, is ever a member of a phaser.
fn put_alone(
    facts: &Facts,
    text: NotedText<'_>,
    out: &mut Vec<u8>,
    maker: TaskId,
    p: PhaserId,
) -> Result<(), NoMemory>
    requires text { IsTextOf facts.now text }
    ensures { OnOk result (out.new.items ≡ out.old.items ++ alone_words facts.now p.0 maker.0) }
{
    put_made_front(facts, text, out, p)?;
    put_words(out, b": note: only ")?;
    facts.put_named(out, maker)?;
    put_words(out, b" is ever a member of ")?;
    facts.put_named_phaser(out, p)?;
    put_words(out, b"\n")
}

// Appends the note on a phaser, if there is one, by whether an op awaits it, and whether one registers a task on it.
fn put_note(
    facts: &Facts,
    text: NotedText<'_>,
    out: &mut Vec<u8>,
    p: PhaserId,
    awaited: bool,
    registered: bool,
) -> Result<(), NoMemory>
    requires text { IsTextOf facts.now text }
    requires phaser { p.0 < length text.plan.now.makers }
    ensures { OnOk result (out.new.items ≡ out.old.items ++ note_by facts.now text.entry.plan.now p.0 awaited registered) }
{
    if awaited {
        if registered {
            return Ok(());
        }
        return put_alone(facts, text, out, text.plan.maker(p), p);
    }
    put_unawaited(facts, text, out, p)
}

// Appends the notes on the phasers of a text.
fn put_phaser_notes(facts: &Facts, text: NotedText<'_>, out: &mut Vec<u8>) -> Result<(), NoMemory>
    requires text { IsTextOf facts.now text }
    ensures { OnOk result (out.new.items ≡ out.old.items ++ phaser_notes facts.now text.entry.plan.now) }
{
    let awaited = used_phasers(facts.alloc(), text.plan, PhaserUse::Awaits)?;
    let registered = used_phasers(facts.alloc(), text.plan, PhaserUse::Registers)?;
    for q in 0..text.plan.phasers() {
        let at = q as usize;
        put_note(facts, text, out, PhaserId(q), awaited[at], registered[at])?;
    }
    Ok(())
}

// Appends why nobody ever has to wait at an await that looks so far back or ahead.
fn put_why_immediate(out: &mut Vec<u8>, off: Offset) -> Result<(), NoMemory>
    ensures { OnOk result (out.new.items ≡ out.old.items ++ why_immediate off) }
{
    match off {
        Offset::Here | Offset::Ahead(_) | Offset::Back(0) => {
            put_words(out, b"its task has not arrived there yet")
        }
        Offset::Back(_) => put_words(out, b"it looks back to phase 0"),
    }
}

// Appends the place with which the note on an await begins.
fn put_await_front(
    facts: &Facts,
    text: NotedText<'_>,
    out: &mut Vec<u8>,
    at: TextPlace,
) -> Result<(), NoMemory>
    requires text { IsTextOf facts.now text }
    ensures { OnOk result (out.new.items ≡ out.old.items ++ front_in facts.now at) }
{
    text.places.put_front(facts.alloc(), out, text.file, at)
}

// Appends an await, as it is printed.
fn put_await_words(out: &mut Vec<u8>, told: &ImmediateAwait) -> Result<(), NoMemory>
    ensures { OnOk result (out.new.items ≡ out.old.items ++ told.now.words) }
{
    put_words(out, told.words.as_slice())
}

// Appends the note on an await at which nobody ever has to wait.
fn put_immediate(
    facts: &Facts,
    text: NotedText<'_>,
    out: &mut Vec<u8>,
    told: &ImmediateAwait,
) -> Result<(), NoMemory>
    requires text { IsTextOf facts.now text }
    ensures { OnOk result (out.new.items ≡ out.old.items ++ immediate_note facts.now told.now) }
{
    put_await_front(facts, text, out, told.at)?;
    put_words(out, b": note: ")?;
    put_await_words(out, told)?;
    put_words(out, b" never has to wait: ")?;
    put_why_immediate(out, told.off)?;
    put_words(out, b"\n")
}

// Appends the notes on these awaits, at which nobody ever has to wait.
fn put_immediate_notes(
    facts: &Facts,
    text: NotedText<'_>,
    out: &mut Vec<u8>,
    awaits: &[ImmediateAwait],
) -> Result<(), NoMemory>
    requires text { IsTextOf facts.now text }
    ensures { OnOk result (out.new.items ≡ out.old.items ++ immediate_notes facts.now awaits.now) }
{
    for told in awaits {
        put_immediate(facts, text, out, told)?;
    }
    Ok(())
}

/// Appends the notes on the phasers and the awaits of a text.
pub(crate) fn put_notes(
    facts: &Facts,
    text: NotedText<'_>,
    out: &mut Vec<u8>,
) -> Result<(), NoMemory>
    requires text { IsTextOf facts.now text }
    ensures { OnOk result (out.new.items ≡ out.old.items ++ notes facts.now text.entry.plan.now) }
{
    put_phaser_notes(facts, text, out)?;
    put_immediate_notes(facts, text, out, text.account.immediate.as_slice())
}
