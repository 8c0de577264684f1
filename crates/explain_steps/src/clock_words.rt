// The words for where a step is made.
ghost use Rattle.std.specs.Prelude.{◌≡◌, ◌++◌, OnOk, Some, codes, option_map};
ghost use Rattle.std.specs.List.{flat_map};
ghost use Rattle.explain_steps.specs.ClockStepWords.{behind_comma, clock_statement_words, clock_whence_words, finish_op_words, listed_names};
ghost use Rattle.explain_steps.specs.calls.Known.{clock_part_of, known_ops};

use crate::clock_facts::ClockOpFacts;
use armus_base::{NoMemory, Op, put_words};
use clock_syntax::{ClockName, ClockStmt};

// Appends a name behind others in a list.
fn put_behind_comma(out: &mut Vec<u8>, x: &ClockName) -> Result<(), NoMemory>
    ensures { OnOk result (out.new.items ≡ out.old.items ++ behind_comma x.now) }
{
    put_words(out, b", ")?;
    put_words(out, x.as_bytes())
}

// Appends names behind another one in a list.
fn put_more_names(out: &mut Vec<u8>, names: &[ClockName]) -> Result<(), NoMemory>
    ensures { OnOk result (out.new.items ≡ out.old.items ++ flat_map behind_comma names.now) }
{
    for name in names {
        put_behind_comma(out, name)?;
    }
    Ok(())
}

// Appends names with commas.
fn put_names(out: &mut Vec<u8>, names: &[ClockName]) -> Result<(), NoMemory>
    ensures { OnOk result (out.new.items ≡ out.old.items ++ listed_names names.now) }
{
    match names.split_first() {
        Some((first, rest)) => {
            put_words(out, first.as_bytes())?;
            put_more_names(out, rest)
        }
        None => Ok(()),
    }
}

// Appends a `clock`.
fn put_clock_made(out: &mut Vec<u8>, x: &ClockName) -> Result<(), NoMemory>
    ensures { OnOk result (out.new.items ≡ out.old.items ++ (codes "clock " ++ x.now)) }
{
    put_words(out, b"clock ")?;
    put_words(out, x.as_bytes())
}

// Appends a statement with one name in parentheses.
fn put_call(out: &mut Vec<u8>, front: &[u8], x: &ClockName) -> Result<(), NoMemory>
    ensures { OnOk result (out.new.items ≡ out.old.items ++ (front.now ++ x.now ++ codes ")")) }
{
    put_words(out, front)?;
    put_words(out, x.as_bytes())?;
    put_words(out, b")")
}

// Appends an `async`, without its body.
fn put_async(out: &mut Vec<u8>, names: &[ClockName]) -> Result<(), NoMemory>
    ensures { OnOk result (out.new.items ≡ out.old.items ++ (codes "async(" ++ listed_names names.now ++ codes ")")) }
{
    put_words(out, b"async(")?;
    put_names(out, names)?;
    put_words(out, b")")
}

// The words for the part of a finish from which an op comes.
fn finish_op_words(op: Option<Op>) -> &'static [u8]
    ensures { result.now ≡ finish_op_words op }
{
    match op {
        Some(Op::Make { p: _ }) => b"finish",
        _ => b"end of the finish",
    }
}

// Appends the statement from which this op comes, without its semicolon and its body.
fn put_clock_statement(
    out: &mut Vec<u8>,
    op: Option<Op>,
    stmt: Option<&ClockStmt>,
) -> Result<(), NoMemory>
    ensures { OnOk result (out.new.items ≡ out.old.items ++ clock_statement_words op (option_map (λ s. clock_part_of s.now) stmt.entry)) }
{
    match stmt {
        Some(ClockStmt::Clock { x }) => put_clock_made(out, x),
        Some(ClockStmt::Advance { x }) => put_call(out, b"advance(", x),
        Some(ClockStmt::Resume { x }) => put_call(out, b"resume(", x),
        Some(ClockStmt::Drop { x }) => put_call(out, b"drop(", x),
        Some(ClockStmt::Async { names, body: _ }) => put_async(out, names.as_slice()),
        Some(ClockStmt::Finish { body: _ }) => put_words(out, finish_op_words(op)),
        _ => Ok(()),
    }
}

impl<'a> ClockOpFacts<'a> {
    // Appends the place of the statement with this number, from which this op comes, and what it says.
    fn put_at_statement(&self, out: &mut Vec<u8>, op: Option<Op>, n: u32) -> Result<(), NoMemory>
        ensures { OnOk result (out.new.items ≡ out.old.items ++ clock_whence_words (known_ops self.now) op (Some n)) }
    {
        self.of_text.put_place(out, n)?;
        put_words(out, b": ")?;
        put_clock_statement(out, op, self.statement(n))
    }

    // Appends where an activity makes this op of this origin, and at which statement.
    pub(crate) fn put_whence(
        &self,
        out: &mut Vec<u8>,
        op: Option<Op>,
        origin: Option<u32>,
    ) -> Result<(), NoMemory>
        ensures { OnOk result (out.new.items ≡ out.old.items ++ clock_whence_words (known_ops self.now) op origin) }
    {
        match origin {
            Some(n) => self.put_at_statement(out, op, n),
            None => put_words(out, b"its end"),
        }
    }
}
