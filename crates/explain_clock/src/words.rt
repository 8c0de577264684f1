// Words for places and activities, and for clocks.
ghost use Rattle.std.specs.Prelude.{◌≡◌, ◌++◌, ℕ, List, OnOk, decimal, length, option_copied};
ghost use Rattle.explain_clock.specs.ClockWords.{activity_words, async_words, front_of, made_clock_words, made_finish_words, offset_of, statement_place_words, started_at_words, started_words, clock_statement_place};

use crate::text_facts::ClockTextFacts;
use armus_base::{NoMemory, put_number, put_words};
use clock_source_map::ClockBegun;
use source_map::TextPlace;
use std::alloc::Global;

// The offset of statement `n`, or that of the end of a text of so many bytes.
pub(crate) fn offset_of(offsets: &[u32], end: u32, n: u32) -> u32
    ensures { (text : List ℕ) → end ≡ length text → result ≡ offset_of text offsets.now n }
{
    if n == 0 {
        return end;
    }
    match offsets.get(n as usize - 1) {
        Some(offset) => *offset,
        None => end,
    }
}

impl<'a> ClockTextFacts<'a> {
    // The place of statement `n`.
    fn statement(&self, n: u32) -> TextPlace
        ensures { result ≡ clock_statement_place self.now n }
    {
        let end = self.places.text().len() as u32;
        self.places
            .at(offset_of(self.layout.offsets.as_slice(), end, n))
    }

    /// Appends the place of statement `n` within a line.
    pub fn put_place(&self, out: &mut Vec<u8>, n: u32) -> Result<(), NoMemory>
        ensures { OnOk result (out.new.items ≡ out.old.items ++ statement_place_words self.now n) }
    {
        self.places.put(self.alloc, out, self.statement(n))
    }

    // Appends the place of a statement with which a line begins.
    pub(crate) fn put_front(&self, out: &mut Vec<u8>, n: Option<u32>) -> Result<(), NoMemory>
        ensures { OnOk result (out.new.items ≡ out.old.items ++ front_of self.now n) }
    {
        let Some(n) = n else {
            return Ok(());
        };
        self.places
            .put_front(self.alloc, out, self.file, self.statement(n))?;
        put_words(out, b": ")
    }

    // Appends where an activity is started by the async at statement `n`.
    fn put_async(&self, out: &mut Vec<u8>, n: u32) -> Result<(), NoMemory>
        ensures { OnOk result (out.new.items ≡ out.old.items ++ async_words self.now n) }
    {
        if n == 0 {
            return Ok(());
        }
        put_words(out, b" (async at ")?;
        self.put_place(out, n)?;
        put_words(out, b")")
    }

    // Appends where an activity is started, if there is such one.
    fn put_started(&self, out: &mut Vec<u8>, begun: Option<&ClockBegun<'a>>) -> Result<(), NoMemory>
        ensures { OnOk result (out.new.items ≡ out.old.items ++ started_words self.now (option_copied begun.entry)) }
    {
        match begun {
            Some(begun) => self.put_async(out, begun.statement()),
            None => Ok(()),
        }
    }

    // Appends where activity `t` is started.
    pub(crate) fn put_started_at(&self, out: &mut Vec<u8>, t: u32) -> Result<(), NoMemory>
        ensures { OnOk result (out.new.items ≡ out.old.items ++ started_at_words self.now t) }
    {
        self.put_started(out, self.begun(t))
    }

    /// Appends an activity: `activity 1 (async at 3:5)`.
    pub fn put_activity(&self, out: &mut Vec<u8>, t: u32) -> Result<(), NoMemory>
        ensures { OnOk result (out.new.items ≡ out.old.items ++ activity_words self.now t) }
    {
        put_words(out, b"activity ")?;
        put_number(self.alloc, out, t as u64)?;
        self.put_started_at(out, t)
    }

    /// Appends a clock of this name, made at statement `n`: `clock c made at 1:1`.
    pub fn put_clock(&self, out: &mut Vec<u8>, x: &[u8], n: u32) -> Result<(), NoMemory>
        ensures { OnOk result (out.new.items ≡ out.old.items ++ made_clock_words self.now x.now n) }
    {
        put_words(out, b"clock ")?;
        put_words(out, x)?;
        put_words(out, b" made at ")?;
        self.put_place(out, n)
    }

    /// Appends the finish of statement `n`: `the finish at 2:1`.
    pub fn put_finish(&self, out: &mut Vec<u8>, n: u32) -> Result<(), NoMemory>
        ensures { OnOk result (out.new.items ≡ out.old.items ++ made_finish_words self.now n) }
    {
        put_words(out, b"the finish at ")?;
        self.put_place(out, n)
    }
}
