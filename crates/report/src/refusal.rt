// Why an input is refused, and the line that says so.
ghost use Rattle.std.specs.Prelude.{◌≡◌, IfOk, string_bytes};
ghost use Rattle.report.specs.Refusals.{refusal_text, syntax_line, check_line, schedule_line};

use armus_base::{List, NoMemory};
use pl_plan::CheckFault;
use pl_syntax::SyntaxFault;
use std::alloc::{AllocError, Global};

/// The first line of a schedule that is at fault.
#[derive(Clone, Copy, Debug, PartialEq, Eq)]
pub struct ScheduleFault {
    /// The number of the line, from 1.
    pub line: u32,
    /// The kind of its fault, from 1 to 5.
    pub kind: u8,
}

/// Why an input is refused.
#[derive(Clone, Copy, Debug, PartialEq, Eq)]
pub enum Refusal {
    /// It is longer than its limit.
    Length,
    /// Its text is not in the grammar.
    Syntax(SyntaxFault),
    /// Its text cannot be unfolded to a plan.
    Check(CheckFault),
    /// Its schedule is at fault.
    Schedule(ScheduleFault),
}

// The line of a syntax fault.
fn syntax_words(alloc: Global, kind: u8, at: u32) -> Result<String, AllocError>
    ensures { IfOk result (λ words. string_bytes words ≡ syntax_line kind at) }
{
    let words = format!(in alloc; "refused syntax {kind} at {at}\n")?;
    Ok(words)
}

// The line of a check fault.
fn check_words(alloc: Global, kind: u8, statement: u32) -> Result<String, AllocError>
    ensures { IfOk result (λ words. string_bytes words ≡ check_line kind statement) }
{
    let words = format!(in alloc; "refused check {kind} statement {statement}\n")?;
    Ok(words)
}

// The line of a schedule's fault.
fn schedule_words(alloc: Global, kind: u8, line: u32) -> Result<String, AllocError>
    ensures { IfOk result (λ words. string_bytes words ≡ schedule_line kind line) }
{
    let words = format!(in alloc; "refused schedule {kind} line {line}\n")?;
    Ok(words)
}

// The line, as text.
fn refusal_words(alloc: Global, why: &Refusal) -> Result<String, AllocError>
    ensures { IfOk result (λ words. string_bytes words ≡ refusal_text why.now) }
{
    match why {
        Refusal::Length => String::from_str(alloc, "refused length\n"),
        Refusal::Syntax(fault) => syntax_words(alloc, fault.kind, fault.at),
        Refusal::Check(fault) => check_words(alloc, fault.kind, fault.statement),
        Refusal::Schedule(fault) => schedule_words(alloc, fault.kind, fault.line),
    }
}

/// The line that says why an input is refused.
pub fn refusal_line(alloc: Global, why: &Refusal) -> Result<List<u8>, NoMemory>
    ensures { IfOk result (λ line. line ≡ refusal_text why.now) }
{
    let words = refusal_words(alloc, why)?;
    Ok(List::from_vec(words.into_bytes()))
}
