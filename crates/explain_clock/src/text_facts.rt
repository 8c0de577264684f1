// What is known of a clock text alone.
ghost use Rattle.std.specs.Prelude.{◌≡◌, ◌+◌, ◌<◌, ◌^◌, IfOk, Ok, length, option_copied, slice_get};
ghost use Rattle.clock_syntax.specs.Grammar.{IsClockText};
ghost use Rattle.clock_syntax.specs.Trees.{clock_count};
ghost use Rattle.clock_semantics.specs.Unfolding.{ClockUnfolding, clock_unfolded};
ghost use Rattle.clock_source_map.specs.ClockOffsets.{clock_offsets};
ghost use Rattle.clock_source_map.specs.calls.Values.{AreOriginsOf};

use armus_base::{List, NoMemory};
use clock_source_map::{ClockBegun, ClockOrigins, ClockThing, clock_offsets};
use clock_syntax::ClockProgram;
use source_map::TextPlaces;
use std::alloc::Global;
use std::marker::Model;

/// Where the statements of a clock text begin, and what comes from them.
#[derive(Drop)]
pub struct ClockLayout<'p> {
    /// How many bytes stand before each statement, in the order of the statements' numbers.
    pub offsets: List<u32>,
    /// The activities, the clocks and finishes, and the waits of each activity.
    pub origins: ClockOrigins<'p>,
}

impl<'p> ClockLayout<'p> {
    /// That of the text of this program, which has an unfolding. The only error is want of memory. The time is linear in the visits of the unfolding.
    pub fn new(
        alloc: Global,
        text: &[u8],
        program: &'p ClockProgram,
    ) -> Result<ClockLayout<'p>, NoMemory>
        requires short { length text.now < 2 ^ 32 }
        requires few { clock_count program.now.body + 1 < 2 ^ 32 }
        requires reads { IsClockText text.now program.now.body }
        requires unfolds { (u : ClockUnfolding) × (clock_unfolded program.now.body ≡ Ok u) }
        ensures offsets { IfOk result (λ l. l.offsets ≡ clock_offsets text.now program.now.body) }
        ensures origins { IfOk result (λ l. (u : ClockUnfolding) → clock_unfolded program.now.body ≡ Ok u → AreOriginsOf u l.origins) }
    {
        let offsets = clock_offsets(alloc, text, program)?;
        let origins = ClockOrigins::new(alloc, program)?;
        Ok(ClockLayout { offsets, origins })
    }
}

/// What is known of a clock text alone: its bytes, the name of its file, if it comes from one, and the offsets and origins of its statements.
#[derive(Drop)]
pub struct ClockTextFacts<'a> {
    pub(crate) alloc: Global,
    pub(crate) places: &'a TextPlaces<'a>,
    pub(crate) file: Option<&'a [u8]>,
    pub(crate) layout: &'a ClockLayout<'a>,
}

impl<'a> Model for ClockTextFacts<'a> {
    ghost use Rattle.std.specs.Prelude.{option_copied};
    ghost use Rattle.std.specs.Coded.{codes};
    ghost use Rattle.clock_syntax.specs.calls.Trees.{clock_tree_code};
    ghost use Rattle.explain_clock.specs.ClockFacts.{ClockTextValue};

    ghost Value = { ClockTextValue };

    ghost coded = { Prim.hlevel (codes, clock_tree_code) };

    ghost view = { λ f. record {
      text = f.places.now;
      file = option_copied f.file;
      offsets = f.layout.now.offsets;
      begun = f.layout.now.origins.begun;
      things = f.layout.now.origins.things;
    } };
}

impl<'a> ClockTextFacts<'a> {
    /// What is known of a text with these places, of the file with this name if it comes from one, with this layout.
    pub fn new(
        alloc: Global,
        places: &'a TextPlaces<'a>,
        file: Option<&'a [u8]>,
        layout: &'a ClockLayout<'a>,
    ) -> ClockTextFacts<'a>
        ensures { result ≡ record {
          text = places.now;
          file = option_copied file.entry;
          offsets = layout.now.offsets;
          begun = layout.now.origins.begun;
          things = layout.now.origins.things;
        } }
    {
        ClockTextFacts {
            alloc,
            places,
            file,
            layout,
        }
    }

    // An activity.
    pub(crate) fn begun(&self, t: u32) -> Option<&ClockBegun<'a>>
        ensures { option_copied result ≡ slice_get self.now.begun t }
    {
        self.layout.origins.begun(t)
    }

    /// A clock or finish, by its number: none where there is no such one.
    pub fn thing(&self, p: u32) -> Option<&ClockThing<'a>>
        ensures { option_copied result ≡ slice_get self.now.things p }
    {
        self.layout.origins.thing(p)
    }

    // How many clocks and finishes there are.
    pub(crate) fn things(&self) -> u32
        ensures { result ≡ length self.now.things }
    {
        self.layout.origins.things()
    }
}
