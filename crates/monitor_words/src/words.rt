// Words, numbers, and how many are left.
ghost use Rattle.std.specs.Prelude.{◌≡◌, ◌++◌, OnOk, decimal};
ghost use Rattle.monitor_words.specs.Words.{at_words, waited_words, more_words};

use armus_base::{List, NoMemory, put_number, put_words};
use std::alloc::Global;

/// Appends a number behind words.
pub(crate) fn put_numbered(
    alloc: Global,
    out: &mut Vec<u8>,
    before: &[u8],
    number: u32,
) -> Result<(), NoMemory>
    ensures { OnOk result (out.new.items ≡ out.old.items ++ (before.now ++ decimal number)) }
{
    put_words(out, before)?;
    put_number(alloc, out, u64::from(number))
}

/// Appends a number and words behind it.
pub(crate) fn put_number_and(
    alloc: Global,
    out: &mut Vec<u8>,
    number: u32,
    behind: &[u8],
) -> Result<(), NoMemory>
    ensures { OnOk result (out.new.items ≡ out.old.items ++ (decimal number ++ behind.now)) }
{
    put_number(alloc, out, u64::from(number))?;
    put_words(out, behind)
}

/// Appends a number between words.
pub(crate) fn put_counted(
    alloc: Global,
    out: &mut Vec<u8>,
    before: &[u8],
    number: u32,
    behind: &[u8],
) -> Result<(), NoMemory>
    ensures { OnOk result (out.new.items ≡ out.old.items ++ (before.now ++ decimal number ++ behind.now)) }
{
    put_words(out, before)?;
    put_number(alloc, out, u64::from(number))?;
    put_words(out, behind)
}

/// Appends how many are left, if some are: ` and 3 more`.
pub(crate) fn put_left(alloc: Global, out: &mut Vec<u8>, left: u32) -> Result<(), NoMemory>
    ensures { OnOk result (out.new.items ≡ out.old.items ++ more_words left) }
{
    if left == 0 {
        return Ok(());
    }
    put_counted(alloc, out, b" and ", left, b" more")
}

/// Appends a place, if there is one, and before it these words.
pub(crate) fn put_at(
    out: &mut Vec<u8>,
    before: &[u8],
    place: &Option<List<u8>>,
) -> Result<(), NoMemory>
    ensures { OnOk result (out.new.items ≡ out.old.items ++ at_words before.now place.now) }
{
    match place {
        Some(place) => {
            put_words(out, before)?;
            put_words(out, place.as_slice())
        }
        None => Ok(()),
    }
}

/// Appends what a task waits for: `phase 1 of pb`.
pub(crate) fn put_event(
    alloc: Global,
    out: &mut Vec<u8>,
    phaser: &[u8],
    phase: u32,
) -> Result<(), NoMemory>
    ensures { OnOk result (out.new.items ≡ out.old.items ++ waited_words (phaser.now, phase)) }
{
    put_counted(alloc, out, b"phase ", phase, b" of ")?;
    put_words(out, phaser)
}
