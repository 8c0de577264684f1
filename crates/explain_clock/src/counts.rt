// How activities stand.
ghost use Rattle.std.specs.Prelude.{◌≡◌, ◌++◌, OnOk, count_by};
ghost use Rattle.explain_clock.specs.ClockExplanations.{ended_counts, is_ended, is_unstarted, waits_there, some_activity_waits, waiting_counts};

use armus_base::{NoMemory, TaskEnd, put_number, put_words};
use std::alloc::Global;

// It waits.
pub(crate) fn waits_there(end: TaskEnd) -> bool
    ensures { result ≡ waits_there end }
{
    matches!(end, TaskEnd::Blocked(_))
}

// It is not started.
pub(crate) fn is_unstarted(end: TaskEnd) -> bool
    ensures { result ≡ is_unstarted end }
{
    matches!(end, TaskEnd::Unforked)
}

// How many have ended.
fn count_ended(ends: &[TaskEnd]) -> usize
    ensures { result ≡ count_by is_ended ends.now }
{
    ends.iter()
        .filter(|end| matches!(end, TaskEnd::Done))
        .count()
}

// How many wait.
fn count_waiting(ends: &[TaskEnd]) -> usize
    ensures { result ≡ count_by waits_there ends.now }
{
    ends.iter()
        .filter(|end| matches!(end, TaskEnd::Blocked(_)))
        .count()
}

// How many are not started.
fn count_unstarted(ends: &[TaskEnd]) -> usize
    ensures { result ≡ count_by is_unstarted ends.now }
{
    ends.iter()
        .filter(|end| matches!(end, TaskEnd::Unforked))
        .count()
}

// Appends how many activities there are, and how many have ended.
fn put_ended(alloc: Global, out: &mut Vec<u8>, ends: &[TaskEnd]) -> Result<(), NoMemory>
    ensures { OnOk result (out.new.items ≡ out.old.items ++ ended_counts ends.now) }
{
    put_words(out, b"activities ")?;
    put_number(alloc, out, ends.len() as u64)?;
    put_words(out, b" ended ")?;
    put_number(alloc, out, count_ended(ends) as u64)?;
    Ok(())
}

// Appends how many wait, and how many are not started.
fn put_waiting(alloc: Global, out: &mut Vec<u8>, ends: &[TaskEnd]) -> Result<(), NoMemory>
    ensures { OnOk result (out.new.items ≡ out.old.items ++ waiting_counts ends.now) }
{
    let waiting = count_waiting(ends);
    let unstarted = count_unstarted(ends);
    let text = format!(in alloc; " waiting {waiting} unstarted {unstarted}\n")?;
    out.extend_from_slice(text.as_bytes())?;
    Ok(())
}

// Appends the line that counts how activities stand.
pub(crate) fn put_counts(alloc: Global, out: &mut Vec<u8>, ends: &[TaskEnd]) -> Result<(), NoMemory>
    ensures { OnOk result (out.new.items ≡ out.old.items ++ ended_counts ends.now ++ waiting_counts ends.now) }
{
    put_ended(alloc, out, ends)?;
    put_waiting(alloc, out, ends)
}

// Whether some activity waits.
pub(crate) fn somebody_waits(ends: &[TaskEnd]) -> bool
    ensures { result ≡ some_activity_waits ends.now }
{
    ends.iter().any(|end| matches!(end, TaskEnd::Blocked(_)))
}
