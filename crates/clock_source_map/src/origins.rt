// The origins of a clock program.
ghost use Rattle.std.specs.Prelude.{◌≡◌, ◌+◌, ◌<◌, ◌^◌, [], Ok, IfOk, OnOk, length, option_copied, slice_get, slice_index_or};
ghost use Rattle.clock_syntax.specs.Trees.{clock_count};
ghost use Rattle.clock_semantics.specs.Unfolding.{ClockUnfolding, clock_unfolded, comings_of};
ghost use Rattle.clock_source_map.specs.ClockOrigins.{waits_in};
ghost use Rattle.clock_source_map.specs.calls.Values.{AreOriginsOf};
ghost use Rattle.clock_source_map.specs.inside.VisitNotes.{noted_all};

use crate::notes::{ClockBegun, ClockThing, VisitNotes};
use crate::walk::walk_body;
use armus_base::{List, NoMemory};
use clock_syntax::{ClockBody, ClockProgram};
use std::alloc::Global;
use std::marker::Model;

/// From which statements of a clock program its activities, clocks and finishes come, by their numbers, and at which statements each activity waits.
/// A statement is told by its number, from 1 in the order in which statements stand in the text.
#[derive(Drop)]
pub struct ClockOrigins<'p> {
    begun: Vec<ClockBegun<'p>>,
    things: Vec<ClockThing<'p>>,
    waits: Vec<List<u32>>,
}

impl<'p> Model for ClockOrigins<'p> {
    ghost use Rattle.std.specs.Prelude.{◌<◌, ◌^◌, length};
    ghost use Rattle.std.specs.Coded.{codes};
    ghost use Rattle.clock_syntax.specs.calls.Trees.{clock_tree_code};
    ghost use Rattle.clock_source_map.specs.calls.Values.{OriginsValue};

    ghost Value = { OriginsValue };

    ghost coded = { Prim.hlevel (codes, clock_tree_code) };

    ghost view = { λ o. record { begun = o.begun.items; things = o.things.items; waits = o.waits.items } };

    ghost invariant = { λ o. length o.things.items < 2 ^ 32 };
}

// Notes what an activity of this body does, and answers at which statements it waits.
fn note_activity<'p>(
    alloc: Global,
    notes: &mut VisitNotes<'p>,
    first: u32,
    body: &'p ClockBody,
) -> Result<List<u32>, NoMemory>
    requires few { first + clock_count body.now < 2 ^ 32 }
    requires nothing { notes.old.waits ≡ [] }
    ensures waits { IfOk result (λ waits. waits ≡ waits_in (comings_of first body.now)) }
    ensures notes { OnOk result (notes.new ≡ record (noted_all (comings_of first body.now) notes.old) { waits = [] }) }
{
    walk_body(notes, first, body)?;
    Ok(notes.take_waits(alloc))
}

// What is noted of all activities, and at which statements each waits.
fn origins_of<'p>(notes: VisitNotes<'p>, waits: Vec<List<u32>>) -> ClockOrigins<'p>
    requires { length notes.things < 2 ^ 32 }
    ensures { result ≡ record { begun = notes.entry.begun; things = notes.entry.things; waits = waits.items } }
{
    ClockOrigins {
        begun: notes.begun,
        things: notes.things,
        waits,
    }
}

impl<'p> ClockOrigins<'p> {
    /// The origins of a program that has an unfolding. The time is linear in the visits of the unfolding.
    pub fn new(alloc: Global, program: &'p ClockProgram) -> Result<ClockOrigins<'p>, NoMemory>
        requires few { clock_count program.now.body + 1 < 2 ^ 32 }
        requires unfolds { (u : ClockUnfolding) × (clock_unfolded program.now.body ≡ Ok u) }
        ensures { IfOk result (λ o. (u : ClockUnfolding) → clock_unfolded program.now.body ≡ Ok u → AreOriginsOf u o) }
    {
        let mut notes = VisitNotes::new(alloc);
        notes.begin(&program.body)?;
        let mut waits = Vec::new(alloc);
        let mut t = 0;
        while t < notes.activities() {
            let (first, body) = notes.activity(t);
            waits.push(note_activity(alloc, &mut notes, first, body)?)?;
            t += 1;
        }
        Ok(origins_of(notes, waits))
    }

    /// An activity, by its number: none where there is no such activity.
    pub fn begun(&self, t: u32) -> Option<&ClockBegun<'p>>
        ensures { option_copied result ≡ slice_get self.now.begun t }
    {
        self.begun.get(t as usize)
    }

    /// A clock or finish, by its number: none where there is no such one.
    pub fn thing(&self, p: u32) -> Option<&ClockThing<'p>>
        ensures { option_copied result ≡ slice_get self.now.things p }
    {
        self.things.get(p as usize)
    }

    /// How many clocks and finishes there are.
    pub fn things(&self) -> u32
        ensures { result ≡ length self.now.things }
    {
        self.things.len() as u32
    }

    /// The number of the statement at which an activity waits when it has waited k times before: none where it does not wait so often, or there is no
    /// such activity.
    pub fn wait(&self, t: u32, k: u32) -> Option<u32>
        ensures { result ≡ slice_get (slice_index_or self.now.waits t []) k }
    {
        match self.waits.get(t as usize) {
            Some(waits) => waits.as_slice().get(k as usize).copied(),
            None => None,
        }
    }
}
