// The words for tasks and phasers, and for where a step is made.
ghost use Rattle.std.specs.Prelude.{◌≡◌, ◌++◌, OnOk, codes, option_map};
ghost use Rattle.source_map.specs.Origins.{fork_origin, op_origin};
ghost use Rattle.source_map.specs.inside.Tables.{coming_of};
ghost use Rattle.source_map.specs.PlaceWords.{place_words};
ghost use Rattle.explain_facts.specs.Accounts.{end_place};
ghost use Rattle.explain_tasks.specs.Places.{said_of};
ghost use Rattle.explain_steps.specs.StepWords.{made_phaser_words, statement_words, drawn_task_words, whence_words};
ghost use Rattle.explain_facts.specs.calls.Known.{AreKnownFacts, kept_layout};

use armus_base::{NoMemory, PhaserId, TaskId, put_words};
use explain_facts::{TextFacts, put_await};
use explain_tasks::{put_phaser_words, put_task_words};
use pl_syntax::{Name, Stmt};
use std::alloc::Global;

// Appends a call with one name.
fn put_call(out: &mut Vec<u8>, front: &[u8], x: &Name) -> Result<(), NoMemory>
    ensures { OnOk result (out.new.items ≡ out.old.items ++ (front.now ++ x.now ++ codes ")")) }
{
    put_words(out, front)?;
    put_words(out, x.as_bytes())?;
    put_words(out, b")")
}

// Appends a `newPhaser`.
fn put_new_phaser(out: &mut Vec<u8>, x: &Name) -> Result<(), NoMemory>
    ensures { OnOk result (out.new.items ≡ out.old.items ++ (x.now ++ codes " = newPhaser()")) }
{
    put_words(out, x.as_bytes())?;
    put_words(out, b" = newPhaser()")
}

// Appends a `reg`.
fn put_reg(out: &mut Vec<u8>, x: &Name, y: &Name) -> Result<(), NoMemory>
    ensures { OnOk result (out.new.items ≡ out.old.items ++ (codes "reg(" ++ x.now ++ codes ", " ++ y.now ++ codes ")")) }
{
    put_words(out, b"reg(")?;
    put_words(out, x.as_bytes())?;
    put_words(out, b", ")?;
    put_words(out, y.as_bytes())?;
    put_words(out, b")")
}

/// Appends a statement that makes an op, without its semicolon and its body.
pub fn put_statement(alloc: Global, out: &mut Vec<u8>, stmt: Option<&Stmt>) -> Result<(), NoMemory>
    ensures { OnOk result (out.new.items ≡ out.old.items ++ statement_words (option_map (λ s. coming_of s.now) stmt.entry)) }
{
    match stmt {
        Some(Stmt::NewPhaser { x }) => put_new_phaser(out, x),
        Some(Stmt::Reg { x, y }) => put_reg(out, x, y),
        Some(Stmt::Dereg { x }) => put_call(out, b"dereg(", x),
        Some(Stmt::Adv { x }) => put_call(out, b"adv(", x),
        Some(Stmt::Await { x, off }) => put_await(alloc, out, x, *off),
        Some(Stmt::Fork { x, body: _ }) => put_call(out, b"fork(", x),
        _ => Ok(()),
    }
}

/// Appends a task.
pub fn put_task(facts: &TextFacts<'_>, out: &mut Vec<u8>, t: TaskId) -> Result<(), NoMemory>
    requires known { AreKnownFacts facts.now }
    ensures { OnOk result (out.new.items ≡ out.old.items ++ drawn_task_words facts.now.program.now t.0) }
{
    put_task_words(facts.alloc, &facts.names, out, t)
}

/// Appends a phaser.
pub fn put_phaser(facts: &TextFacts<'_>, out: &mut Vec<u8>, p: PhaserId) -> Result<(), NoMemory>
    requires known { AreKnownFacts facts.now }
    ensures { OnOk result (out.new.items ≡ out.old.items ++ made_phaser_words facts.now.program.now p.0) }
{
    put_phaser_words(facts.alloc, &facts.names, out, p)
}

// Appends the place of a statement and what it says.
fn put_at_statement(facts: &TextFacts<'_>, out: &mut Vec<u8>, n: u32) -> Result<(), NoMemory>
    requires known { AreKnownFacts facts.now }
    ensures { OnOk result (out.new.items ≡ out.old.items ++ whence_words (kept_layout facts.now) facts.now.program.now 0 (Some n)) }
{
    facts.places.put(facts.alloc, out, facts.statement(n))?;
    put_words(out, b": ")?;
    put_statement(facts.alloc, out, facts.origins.statement(n))
}

// Appends the place where the code of a task ends.
fn put_end_place(facts: &TextFacts<'_>, out: &mut Vec<u8>, t: TaskId) -> Result<(), NoMemory>
    requires known { AreKnownFacts facts.now }
    ensures { OnOk result (out.new.items ≡ out.old.items
        ++ said_of (λ f. place_words facts.now.places.now (end_place (kept_layout facts.now) f)) (fork_origin facts.now.program.now t.0)) }
{
    match facts.origins.fork(t) {
        Some(f) => facts.places.put(facts.alloc, out, facts.end(f)),
        None => Ok(()),
    }
}

// Appends where a task makes op i of its code, and at which statement.
pub(crate) fn put_whence(
    facts: &TextFacts<'_>,
    out: &mut Vec<u8>,
    t: TaskId,
    i: u32,
) -> Result<(), NoMemory>
    requires known { AreKnownFacts facts.now }
    ensures { OnOk result (out.new.items ≡ out.old.items
        ++ whence_words (kept_layout facts.now) facts.now.program.now t.0 (op_origin facts.now.program.now t.0 i)) }
{
    match facts.origins.op(facts.program, t, i) {
        Some(n) => put_at_statement(facts, out, n),
        None => {
            put_end_place(facts, out, t)?;
            put_words(out, b": end")
        }
    }
}
