// Why a task is stuck, in a sentence.
ghost use Rattle.std.specs.Prelude.{◌≡◌, ◌++◌, OnOk, codes, decimal, flat_map};
ghost use Rattle.monitor_words.specs.Words.{waited_words};
ghost use Rattle.monitor_words.specs.inside.ValueWords.{circle_end, circle_left, next_words, placed_words, shown_reason_words, shown_sentence_words, told_circle};

use crate::placed::PlacedTask;
use crate::words::{put_event, put_number_and};
use armus_base::{List, NoMemory, put_words};
use std::alloc::Global;

/// Why a task is stuck.
#[derive(Drop)]
pub enum StuckReason {
    /// It stands in a circle: the tasks behind it that are shown, each stopped by the next, and how many are left behind these.
    InCircle(List<PlacedTask>, u32),
    /// This task keeps it waiting, and has ended.
    EndedKeeps(PlacedTask),
    /// This task stops it, and is stuck.
    StuckStops(PlacedTask),
    /// Somebody is missing for this phase of this phaser.
    SomebodyMissing(List<u8>, u32),
}

/// A task that is stuck, and why.
#[derive(Drop)]
pub struct StuckSentence {
    /// The task.
    pub task: PlacedTask,
    /// Why it is stuck.
    pub reason: StuckReason,
}

// Appends a task of a circle, behind which another stands.
fn put_link(out: &mut Vec<u8>, task: &PlacedTask) -> Result<(), NoMemory>
    ensures { OnOk result (out.new.items ≡ out.old.items ++ (placed_words task.now ++ next_words)) }
{
    task.put(out)?;
    put_words(out, b", which waits for ")
}

// Appends tasks of a circle, behind which another stands.
fn put_links(out: &mut Vec<u8>, tasks: &[PlacedTask]) -> Result<(), NoMemory>
    ensures { OnOk result (out.new.items ≡ out.old.items ++ flat_map (λ x. placed_words x ++ next_words) tasks.now) }
{
    for task in tasks {
        put_link(out, task)?;
    }
    Ok(())
}

// Appends how many of a circle are left, if some are.
fn put_circle_left(alloc: Global, out: &mut Vec<u8>, left: u32) -> Result<(), NoMemory>
    ensures { OnOk result (out.new.items ≡ out.old.items ++ circle_left left) }
{
    if left == 0 {
        return Ok(());
    }
    put_number_and(alloc, out, left, b" more, the last of which waits for ")
}

// Appends the end of a circle.
fn put_end(alloc: Global, out: &mut Vec<u8>, left: u32, first: &[u8]) -> Result<(), NoMemory>
    ensures { OnOk result (out.new.items ≡ out.old.items ++ circle_end left first.now) }
{
    put_circle_left(alloc, out, left)?;
    put_words(out, first)
}

// Appends a circle.
fn put_circle(
    alloc: Global,
    out: &mut Vec<u8>,
    first: &[u8],
    others: &[PlacedTask],
    left: u32,
) -> Result<(), NoMemory>
    ensures { OnOk result (out.new.items ≡ out.old.items ++ told_circle first.now others.now left) }
{
    if others.is_empty() {
        return put_words(out, b"itself");
    }
    put_links(out, others)?;
    put_end(alloc, out, left, first)
}

// Appends a task and words behind it.
fn put_named(out: &mut Vec<u8>, task: &PlacedTask, behind: &[u8]) -> Result<(), NoMemory>
    ensures { OnOk result (out.new.items ≡ out.old.items ++ (placed_words task.now ++ behind.now)) }
{
    task.put(out)?;
    put_words(out, behind)
}

// Appends for what somebody is missing.
fn put_missing(alloc: Global, out: &mut Vec<u8>, phaser: &[u8], phase: u32) -> Result<(), NoMemory>
    ensures { OnOk result (out.new.items ≡ out.old.items ++ (waited_words (phaser.now, phase) ++ codes ", for which somebody is missing who cannot come any more")) }
{
    put_event(alloc, out, phaser, phase)?;
    put_words(
        out,
        b", for which somebody is missing who cannot come any more",
    )
}

impl StuckReason {
    // Appends whom or what the task of this name waits for.
    fn put(&self, alloc: Global, out: &mut Vec<u8>, first: &[u8]) -> Result<(), NoMemory>
        ensures { OnOk result (out.new.items ≡ out.old.items ++ shown_reason_words first.now self.now) }
    {
        match self {
            StuckReason::InCircle(others, left) => {
                put_circle(alloc, out, first, others.as_slice(), *left)
            }
            StuckReason::EndedKeeps(task) => put_named(out, task, b", which has ended"),
            StuckReason::StuckStops(task) => put_named(out, task, b", which is stuck"),
            StuckReason::SomebodyMissing(phaser, phase) => {
                put_missing(alloc, out, phaser.as_slice(), *phase)
            }
        }
    }
}

impl StuckSentence {
    // Appends the sentence, with this verb of the task.
    pub(crate) fn put(&self, alloc: Global, out: &mut Vec<u8>, verb: &[u8]) -> Result<(), NoMemory>
        ensures { OnOk result (out.new.items ≡ out.old.items ++ shown_sentence_words verb.now self.now) }
    {
        self.task.put(out)?;
        put_words(out, verb)?;
        self.reason.put(alloc, out, self.task.name.as_slice())
    }
}
