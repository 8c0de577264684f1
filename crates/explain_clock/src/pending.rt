// What is pending where an activity waits.
ghost use Rattle.std.specs.Prelude.{◌≡◌, ◌<◌, ◌-◌, ◌^◌, ◌++◌, IfOk, OnOk, Some, codes, length, option_copied, option_map, slice_get};
ghost use Rattle.pl_syntax.specs.Printed.{line};
ghost use Rattle.explain_clock.specs.ClockExplanations.{line_if_pending, lines_below, pending_line, pending_lines, pending_named};
ghost use Rattle.explain_clock.specs.ClockFacts.{pending_in};
ghost use Rattle.explain_clock.specs.ClockWords.{made_clock_words};
ghost use Rattle.explain_clock.specs.inside.FewLines.{AddsLines};

use crate::facts::ClockFacts;
use crate::few_lines::{FEW_LINES, put_more};
use crate::text_facts::ClockTextFacts;
use armus_base::{Event, NoMemory, PhaserId, put_words};
use clock_source_map::ClockThing;

impl<'a> ClockTextFacts<'a> {
    // Appends the line of a clock of this name, made at statement `n`.
    fn put_pending_clock(&self, out: &mut Vec<u8>, x: &[u8], n: u32) -> Result<(), NoMemory>
        ensures { OnOk result (out.new.items ≡ out.old.items ++ line (codes "  resume left " ++ made_clock_words self.now x.now n ++ codes " pending")) }
    {
        put_words(out, b"  resume left ")?;
        self.put_clock(out, x, n)?;
        put_words(out, b" pending\n")
    }

    // Appends its line behind so many others, if it is one of the first three, and says how many there are then.
    fn put_few_pending(
        &self,
        out: &mut Vec<u8>,
        x: &[u8],
        n: u32,
        count: usize,
    ) -> Result<usize, NoMemory>
        requires { count < 2 ^ 64 - 1 }
        ensures { IfOk result (AddsLines count (pending_named self.now (Some x.now) n) out.old.items out.new.items) }
    {
        if count >= FEW_LINES {
            return Ok(count + 1);
        }
        self.put_pending_clock(out, x, n)?;
        Ok(count + 1)
    }

    // Appends the line of a clock or finish, which has a name or none.
    fn put_pending_named(
        &self,
        out: &mut Vec<u8>,
        name: Option<&[u8]>,
        n: u32,
        count: usize,
    ) -> Result<usize, NoMemory>
        requires { count < 2 ^ 64 - 1 }
        ensures { IfOk result (AddsLines count (pending_named self.now (option_map (λ x. x.now) name.entry) n) out.old.items out.new.items) }
    {
        match name {
            Some(x) => self.put_few_pending(out, x, n, count),
            None => Ok(count),
        }
    }

    // Appends the line of a clock, if there is such one.
    fn put_pending(
        &self,
        out: &mut Vec<u8>,
        thing: Option<&ClockThing<'a>>,
        count: usize,
    ) -> Result<usize, NoMemory>
        requires { count < 2 ^ 64 - 1 }
        ensures { IfOk result (AddsLines count (pending_line self.now (option_copied thing.entry)) out.old.items out.new.items) }
    {
        match thing {
            Some(thing) => self.put_pending_named(out, thing.name(), thing.statement(), count),
            None => Ok(count),
        }
    }
}

impl<'a> ClockFacts<'a> {
    // Appends the line of `p` behind so many others, where it is pending, not what activity `t` waits for and one of the first three, and says how many these
    // are then.
    fn put_if_pending(
        &self,
        out: &mut Vec<u8>,
        event: Event,
        t: u32,
        p: PhaserId,
        count: usize,
    ) -> Result<usize, NoMemory>
        requires { count < 2 ^ 64 - 1 }
        ensures { IfOk result (AddsLines count (line_if_pending self.now event (pending_in (slice_get self.now.waits t)) p.0) out.old.items out.new.items) }
    {
        if self.is_pending(t, p) && p != event.p {
            self.of_text
                .put_pending(out, self.of_text.thing(p.0), count)
        } else {
            Ok(count)
        }
    }

    // Appends the lines of the first three that are pending where activity `t` waits for the event, and the number of the others.
    pub(crate) fn put_pending_lines(
        &self,
        out: &mut Vec<u8>,
        event: Event,
        t: u32,
    ) -> Result<(), NoMemory>
        ensures { OnOk result (out.new.items ≡ out.old.items ++ pending_lines self.now event t) }
    {
        let of_text = self.of_text;
        let mut count = 0;
        for p in 0..self.of_text.things() {
            count = self.put_if_pending(out, event, t, PhaserId(p), count)?;
        }
        put_more(of_text.alloc, out, count.saturating_sub(FEW_LINES))
    }
}
