// Rows of tasks that wait.
ghost use Rattle.std.specs.Prelude.{◌≡◌, ◌++◌, OnOk, codes, decimal, flat_map, if◌then◌else◌};
ghost use Rattle.monitor_words.specs.Words.{at_words, more_line};
ghost use Rattle.monitor_words.specs.inside.ValueWords.{row_end, row_tasks, row_waited, is_one, shown_keepers_words, shown_names_words, shown_row_words, shown_rows_words};

use crate::keepers::{KeeperGroup, put_groups};
use crate::names::ShownNames;
use crate::words::{put_at, put_counted, put_event, put_left};
use armus_base::{List, NoMemory, put_words};
use std::alloc::Global;

/// Tasks that wait for the same phase of the same phaser at the same place, and who keeps them waiting.
#[derive(Drop)]
pub struct WaitRow {
    /// Their names.
    pub tasks: ShownNames,
    /// Their place, if they have one.
    pub place: Option<List<u8>>,
    /// The phaser's name.
    pub phaser: List<u8>,
    /// The phase.
    pub phase: u32,
    /// Who keeps them waiting; the first three groups at most are shown.
    pub keepers: List<KeeperGroup>,
    /// How many keepers stand in no group that is shown.
    pub left: u32,
}

/// Rows of which the first ten at most are shown.
#[derive(Drop)]
pub struct ShownRows {
    /// Those that are shown.
    pub rows: List<WaitRow>,
    /// How many tasks stand in no row that is shown.
    pub left: u32,
}

// The verb of tasks that wait.
fn waiters_verb(names: &ShownNames) -> &'static [u8]
    ensures { result.now ≡ (if is_one names.now then codes " waits for " else codes " wait for ") }
{
    if names.is_one() {
        b" waits for "
    } else {
        b" wait for "
    }
}

impl WaitRow {
    // Appends the tasks and their place.
    fn put_tasks(&self, alloc: Global, out: &mut Vec<u8>) -> Result<(), NoMemory>
        ensures { OnOk result (out.new.items ≡ out.old.items ++ row_tasks self.now) }
    {
        put_words(out, b"  ")?;
        self.tasks.put(alloc, out)?;
        put_at(out, b" at ", &self.place)
    }

    // Appends what they wait for.
    fn put_waited(&self, alloc: Global, out: &mut Vec<u8>) -> Result<(), NoMemory>
        ensures { OnOk result (out.new.items ≡ out.old.items ++ row_waited self.now) }
    {
        put_words(out, waiters_verb(&self.tasks))?;
        put_event(alloc, out, self.phaser.as_slice(), self.phase)
    }

    // Appends who keeps them waiting.
    fn put_keepers(&self, alloc: Global, out: &mut Vec<u8>) -> Result<(), NoMemory>
        ensures { OnOk result (out.new.items ≡ out.old.items ++ shown_keepers_words self.now) }
    {
        put_groups(alloc, out, self.keepers.as_slice())?;
        put_left(alloc, out, self.left)
    }

    // Appends what stands behind what they wait for.
    fn put_end(&self, alloc: Global, out: &mut Vec<u8>) -> Result<(), NoMemory>
        ensures { OnOk result (out.new.items ≡ out.old.items ++ row_end self.now) }
    {
        put_words(out, b"; ")?;
        self.put_keepers(alloc, out)?;
        put_words(out, b"\n")
    }

    // Appends the row.
    fn put(&self, alloc: Global, out: &mut Vec<u8>) -> Result<(), NoMemory>
        ensures { OnOk result (out.new.items ≡ out.old.items ++ shown_row_words self.now) }
    {
        self.put_tasks(alloc, out)?;
        self.put_waited(alloc, out)?;
        self.put_end(alloc, out)
    }
}

// Appends rows.
fn put_each(alloc: Global, out: &mut Vec<u8>, rows: &[WaitRow]) -> Result<(), NoMemory>
    ensures { OnOk result (out.new.items ≡ out.old.items ++ flat_map shown_row_words rows.now) }
{
    for row in rows {
        row.put(alloc, out)?;
    }
    Ok(())
}

// Appends the line on how many tasks are left, if some are.
fn put_more(alloc: Global, out: &mut Vec<u8>, left: u32) -> Result<(), NoMemory>
    ensures { OnOk result (out.new.items ≡ out.old.items ++ more_line left) }
{
    if left == 0 {
        return Ok(());
    }
    put_counted(alloc, out, b"  and ", left, b" more\n")
}

impl ShownRows {
    // Appends the rows.
    pub(crate) fn put(&self, alloc: Global, out: &mut Vec<u8>) -> Result<(), NoMemory>
        ensures { OnOk result (out.new.items ≡ out.old.items ++ shown_rows_words self.now) }
    {
        put_each(alloc, out, self.rows.as_slice())?;
        put_more(alloc, out, self.left)
    }
}
