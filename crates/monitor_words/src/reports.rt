// Reports and lists.
ghost use Rattle.std.specs.Prelude.{◌≡◌, ◌++◌, OnOk, codes, decimal};
ghost use Rattle.monitor_words.specs.Words.{message_line};
ghost use Rattle.monitor_words.specs.inside.ValueMessages.{shown_listed_line, shown_report_words, shown_tasks_line, standing_word};

use crate::rows::ShownRows;
use crate::words::{put_counted, put_numbered};
use armus_base::{NoMemory, put_words};
use std::alloc::Global;

/// How many tasks of a state are in which condition; wildcards are not counted.
#[derive(Clone, Copy)]
pub struct StateCounts {
    /// Those that have not ended.
    pub tasks: u32,
    /// Those that run.
    pub running: u32,
    /// Those that wait.
    pub waiting: u32,
    /// Those of the waiting ones that are stuck.
    pub stuck: u32,
    /// Those of the list that have ended.
    pub ended: u32,
}

/// How a waiting task stands in a list.
#[derive(Clone, Copy)]
pub enum WaitStanding {
    /// It is stuck.
    Stuck,
    /// It is kept waiting, and is not stuck.
    Held,
    /// Nobody keeps it waiting.
    Free,
}

// Appends the first line of a report.
fn put_counts(alloc: Global, out: &mut Vec<u8>, counts: StateCounts) -> Result<(), NoMemory>
    ensures { OnOk result (out.new.items ≡ out.old.items ++ shown_tasks_line counts) }
{
    put_numbered(alloc, out, b"tasks ", counts.tasks)?;
    put_numbered(alloc, out, b" running ", counts.running)?;
    put_numbered(alloc, out, b" waiting ", counts.waiting)?;
    put_numbered(alloc, out, b" stuck ", counts.stuck)?;
    put_counted(alloc, out, b" ended ", counts.ended, b"\n")
}

/// Appends a report.
pub fn put_report(
    alloc: Global,
    out: &mut Vec<u8>,
    counts: StateCounts,
    rows: &ShownRows,
) -> Result<(), NoMemory>
    ensures { OnOk result (out.new.items ≡ out.old.items ++ shown_report_words counts rows.now) }
{
    put_counts(alloc, out, counts)?;
    rows.put(alloc, out)
}

// The word of a standing.
fn standing_word(standing: WaitStanding) -> &'static [u8]
    ensures { result.now ≡ standing_word standing }
{
    match standing {
        WaitStanding::Stuck => b"stuck ",
        WaitStanding::Held => b"held ",
        WaitStanding::Free => b"free ",
    }
}

/// Appends the line of a list on a waiting task: how it stands, its name, and the name of the phaser and the phase for which it waits.
pub fn put_listed(
    alloc: Global,
    out: &mut Vec<u8>,
    standing: WaitStanding,
    name: &[u8],
    phaser: &[u8],
    phase: u32,
) -> Result<(), NoMemory>
    ensures { OnOk result (out.new.items ≡ out.old.items ++ shown_listed_line standing name.now phaser.now phase) }
{
    put_words(out, standing_word(standing))?;
    put_words(out, name)?;
    put_words(out, b" ")?;
    put_words(out, phaser)?;
    put_counted(alloc, out, b" ", phase, b"\n")
}

/// Appends the last line of a list of so many lines.
pub fn put_listed_count(alloc: Global, out: &mut Vec<u8>, count: u32) -> Result<(), NoMemory>
    ensures { OnOk result (out.new.items ≡ out.old.items ++ message_line (codes "listed " ++ decimal count)) }
{
    put_counted(alloc, out, b"listed ", count, b"\n")
}
