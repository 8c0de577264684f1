// The line of a fault.
ghost use Rattle.std.specs.Prelude.{◌≡◌, ◌++◌, OnOk, codes, decimal};
ghost use Rattle.monitor_words.specs.Faults.{fault_line, line_fault_words};
ghost use Rattle.monitor_words.specs.calls.FaultValues.{fault_of_line};

use armus_base::{NoMemory, put_number, put_words};
use std::alloc::Global;

/// A fault of a line, with the names as they stand in the line.
#[derive(Clone, Copy)]
pub enum FaultOfLine<'a> {
    /// It is no line.
    Malformed,
    /// A wildcard of this name is to be, and a task of the name is there.
    NamesTask(&'a [u8]),
    /// A task of this name is to be, and a wildcard of the name is there.
    NamesWildcard(&'a [u8]),
    /// The task of this name waits.
    StillWaits(&'a [u8]),
    /// The task of this name does not wait.
    DoesNotWait(&'a [u8]),
    /// The task or wildcard of the first name is a member of the phaser of the second.
    IsMemberAlready(&'a [u8], &'a [u8]),
    /// The task or wildcard of the first name is no member of the phaser of the second.
    IsNoMember(&'a [u8], &'a [u8]),
    /// The task or wildcard of the first name has the greatest phase on the phaser of the second.
    IsAtLastPhase(&'a [u8], &'a [u8]),
    /// The list has as many as it may.
    TooManyListed,
    /// Those of the list have as many memberships as they may.
    TooManyMemberships,
}

// Appends a name and words behind it.
fn put_of(out: &mut Vec<u8>, name: &[u8], words: &[u8]) -> Result<(), NoMemory>
    ensures { OnOk result (out.new.items ≡ out.old.items ++ (name.now ++ words.now)) }
{
    put_words(out, name)?;
    put_words(out, words)
}

// Appends a name and words and a phaser behind it.
fn put_of_both(out: &mut Vec<u8>, name: &[u8], words: &[u8], phaser: &[u8]) -> Result<(), NoMemory>
    ensures { OnOk result (out.new.items ≡ out.old.items ++ (name.now ++ words.now ++ phaser.now)) }
{
    put_words(out, name)?;
    put_words(out, words)?;
    put_words(out, phaser)
}

// Appends the text of a fault.
fn put_text(out: &mut Vec<u8>, fault: FaultOfLine<'_>) -> Result<(), NoMemory>
    ensures { OnOk result (out.new.items ≡ out.old.items ++ line_fault_words (fault_of_line fault.entry)) }
{
    match fault {
        FaultOfLine::Malformed => put_words(out, b"malformed"),
        FaultOfLine::NamesTask(w) => put_of(out, w, b" is a task"),
        FaultOfLine::NamesWildcard(t) => put_of(out, t, b" is a wildcard"),
        FaultOfLine::StillWaits(t) => put_of(out, t, b" waits"),
        FaultOfLine::DoesNotWait(t) => put_of(out, t, b" does not wait"),
        FaultOfLine::IsMemberAlready(t, p) => put_of_both(out, t, b" is a member of ", p),
        FaultOfLine::IsNoMember(t, p) => put_of_both(out, t, b" is no member of ", p),
        FaultOfLine::IsAtLastPhase(t, p) => put_of_both(out, t, b" is at the last phase of ", p),
        FaultOfLine::TooManyListed => put_words(out, b"there are 65536 tasks"),
        FaultOfLine::TooManyMemberships => put_words(out, b"there are 1048576 memberships"),
    }
}

/// Appends the line on a fault of the line with this number, counted from 1.
pub fn put_fault(
    alloc: Global,
    out: &mut Vec<u8>,
    number: u64,
    fault: FaultOfLine<'_>,
) -> Result<(), NoMemory>
    ensures { OnOk result (out.new.items ≡ out.old.items ++ fault_line number (fault_of_line fault.entry)) }
{
    put_words(out, b"line ")?;
    put_number(alloc, out, number)?;
    put_words(out, b": ")?;
    put_text(out, fault)?;
    put_words(out, b"\n")
}
