// The notes, where nobody waits for ever: on clocks on which nobody ever has to wait for another activity, and on finishes that never have to wait.
ghost use Rattle.std.specs.Prelude.{◌≡◌, ◌++◌, OnOk, false, is_some, option_copied, slice_get, slice_index_or};
ghost use Rattle.explain_facts.specs.calls.Used.{AreUsed};
ghost use Rattle.explain_facts.specs.declared.uses.PhaserUse.TheVariants.{Awaits, Registers};
ghost use Rattle.explain_clock.specs.ClockNotes.{clock_note_line, clock_note_words, clock_notes, is_made_at, is_one_made_at, is_used_at, name_words, note_of_thing, note_words, noted_by, noted_with};

use crate::text_facts::ClockTextFacts;
use armus_base::{NoMemory, Plan, put_words};
use clock_source_map::ClockThing;
use explain_facts::{PhaserUse, used_phasers};

/// What is noted of the clocks, or the finishes, that a statement makes.
#[derive(Clone, Copy, Debug, PartialEq, Eq)]
pub enum ClockNote {
    /// No activity ever advances one of these clocks.
    NobodyAdvances,
    /// On each of these clocks its maker alone is ever registered.
    OnlyItsMaker,
    /// No activity is ever started that one of these finishes governs.
    NeverWaits,
}

/// A plan, and how its ops use its clocks and finishes.
#[derive(Clone, Copy, Drop)]
struct ThingUses<'a> {
    plan: &'a Plan,
    /// Which of them an op awaits.
    awaited: &'a [bool],
    /// On which of them an op registers an activity.
    registered: &'a [bool],
}

// Whether a number has a mark.
fn has_mark(marks: &[bool], p: u32) -> bool
    ensures { result ≡ slice_index_or marks.now p false }
{
    match marks.get(p as usize) {
        Some(mark) => *mark,
        None => false,
    }
}

// Whether it has a name, as a clock has.
fn has_name(thing: &ClockThing<'_>) -> bool
    ensures { result ≡ is_some thing.now.name }
{
    match thing.name() {
        Some(_) => true,
        None => false,
    }
}

// What is noted of clocks, or of finishes, by whether one is awaited, and whether one has an activity registered on it.
fn noted_by(clocks: bool, awaited: bool, registered: bool) -> Option<ClockNote>
    ensures { result ≡ noted_by clocks awaited registered }
{
    if clocks {
        if awaited {
            if registered {
                return None;
            }
            return Some(ClockNote::OnlyItsMaker);
        }
        return Some(ClockNote::NobodyAdvances);
    }
    if registered {
        return None;
    }
    Some(ClockNote::NeverWaits)
}

// The words of a note in front of the name of a clock.
fn note_words(note: ClockNote) -> &'static [u8]
    ensures { result.now ≡ note_words note }
{
    match note {
        ClockNote::NobodyAdvances => b"nobody advances clock ",
        ClockNote::OnlyItsMaker => b"only its maker is ever registered on clock ",
        ClockNote::NeverWaits => b"the finish never has to wait",
    }
}

// Appends the name of a clock; a finish has none.
fn put_name(out: &mut Vec<u8>, thing: &ClockThing<'_>) -> Result<(), NoMemory>
    ensures { OnOk result (out.new.items ≡ out.old.items ++ name_words thing.now.name) }
{
    match thing.name() {
        Some(name) => put_words(out, name),
        None => Ok(()),
    }
}

impl<'a> ClockTextFacts<'a> {
    // Whether statement `n` makes this clock or finish.
    fn is_made_at(&self, n: u32, p: u32) -> bool
        ensures { result ≡ is_made_at n (slice_get self.now.things p) }
    {
        match self.thing(p) {
            Some(thing) => thing.statement() == n,
            None => false,
        }
    }

    // Whether statement `n` makes one below `k`.
    fn is_one_made_at(&self, k: u32, n: u32) -> bool
        ensures { result ≡ is_one_made_at self.now.things k n }
    {
        for p in 0..k {
            if self.is_made_at(n, p) {
                return true;
            }
        }
        false
    }

    // Whether statement `n` makes one that has a mark.
    fn is_used_at(&self, plan: &Plan, marks: &[bool], n: u32) -> bool
        ensures { (use_so : PhaserUse) → AreUsed use_so plan.now marks.now → result ≡ is_used_at use_so self.now.things plan.now n }
    {
        for p in 0..plan.phasers() {
            if self.is_made_at(n, p) && has_mark(marks, p) {
                return true;
            }
        }
        false
    }

    // What is noted of all that is made at the statement of this clock or finish.
    fn noted_with(&self, uses: ThingUses<'_>, thing: &ClockThing<'_>) -> Option<ClockNote>
        requires awaited { AreUsed Awaits uses.plan.now uses.awaited.now }
        requires registered { AreUsed Registers uses.plan.now uses.registered.now }
        ensures { result ≡ noted_with self.now.things uses.entry.plan.now thing.now }
    {
        let n = thing.statement();
        let awaited = self.is_used_at(uses.plan, uses.awaited, n);
        let registered = self.is_used_at(uses.plan, uses.registered, n);
        noted_by(has_name(thing), awaited, registered)
    }

    // Appends this note of what is made at the statement of this clock or finish.
    fn put_note_line(
        &self,
        out: &mut Vec<u8>,
        thing: &ClockThing<'_>,
        note: ClockNote,
    ) -> Result<(), NoMemory>
        ensures { OnOk result (out.new.items ≡ out.old.items ++ clock_note_line self.now thing.now note) }
    {
        self.put_front(out, Some(thing.statement()))?;
        put_words(out, b"note: ")?;
        put_words(out, note_words(note))?;
        put_name(out, thing)?;
        put_words(out, b"\n")
    }

    // Appends the note, if there is one.
    fn put_noted(
        &self,
        out: &mut Vec<u8>,
        thing: &ClockThing<'_>,
        noted: Option<ClockNote>,
    ) -> Result<(), NoMemory>
        ensures { OnOk result (out.new.items ≡ out.old.items ++ clock_note_words self.now thing.now noted) }
    {
        match noted {
            Some(note) => self.put_note_line(out, thing, note),
            None => Ok(()),
        }
    }

    // Appends the note at the statement that makes `p`, where `p` is the first that it makes.
    fn put_note_of(&self, out: &mut Vec<u8>, uses: ThingUses<'_>, p: u32) -> Result<(), NoMemory>
        requires awaited { AreUsed Awaits uses.plan.now uses.awaited.now }
        requires registered { AreUsed Registers uses.plan.now uses.registered.now }
        ensures { OnOk result (out.new.items ≡ out.old.items ++ note_of_thing self.now uses.entry.plan.now p (slice_get self.now.things p)) }
    {
        let Some(thing) = self.thing(p) else {
            return Ok(());
        };
        if self.is_one_made_at(p, thing.statement()) {
            return Ok(());
        }
        self.put_noted(out, thing, self.noted_with(uses, thing))
    }

    // Appends the notes, by how the ops of the plan use its clocks and finishes.
    fn put_notes_of(&self, out: &mut Vec<u8>, uses: ThingUses<'_>) -> Result<(), NoMemory>
        requires awaited { AreUsed Awaits uses.plan.now uses.awaited.now }
        requires registered { AreUsed Registers uses.plan.now uses.registered.now }
        ensures { OnOk result (out.new.items ≡ out.old.items ++ clock_notes self.now uses.entry.plan.now) }
    {
        for p in 0..uses.plan.phasers() {
            self.put_note_of(out, uses, p)?;
        }
        Ok(())
    }

    /// Appends the notes. The time is linear in the ops of the plan, and quadratic in its clocks and finishes.
    pub(crate) fn put_notes(&self, out: &mut Vec<u8>, plan: &Plan) -> Result<(), NoMemory>
        ensures { OnOk result (out.new.items ≡ out.old.items ++ clock_notes self.now plan.now) }
    {
        let awaited = used_phasers(self.alloc, plan, PhaserUse::Awaits)?;
        let registered = used_phasers(self.alloc, plan, PhaserUse::Registers)?;
        let uses = ThingUses {
            plan,
            awaited: &awaited,
            registered: &registered,
        };
        self.put_notes_of(out, uses)
    }
}
