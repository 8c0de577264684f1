// The messages of a line.
ghost use Rattle.std.specs.Prelude.{◌≡◌, ◌++◌, OnOk, codes};
ghost use Rattle.monitor_words.specs.Words.{message_line};
ghost use Rattle.monitor_words.specs.inside.ValueMessages.{shown_refusal_words, shown_resolved_words, shown_told_words, shown_verdict};

use crate::names::ShownNames;
use crate::rows::ShownRows;
use crate::sentences::{StuckReason, StuckSentence};
use armus_base::{NoMemory, put_words};
use std::alloc::Global;

impl StuckReason {
    // Appends the word with which a message on this begins.
    fn put_verdict(&self, out: &mut Vec<u8>) -> Result<(), NoMemory>
        ensures { OnOk result (out.new.items ≡ out.old.items ++ shown_verdict self.now) }
    {
        match self {
            StuckReason::InCircle(_, _) => put_words(out, b"deadlock: "),
            StuckReason::EndedKeeps(_) => put_words(out, b"stuck: "),
            StuckReason::StuckStops(_) => put_words(out, b"stuck: "),
            StuckReason::SomebodyMissing(_, _) => put_words(out, b"stuck: "),
        }
    }
}

/// Appends the message on tasks that become stuck: the sentence on the first of them, and their rows.
pub fn put_told(
    alloc: Global,
    out: &mut Vec<u8>,
    sentence: &StuckSentence,
    rows: &ShownRows,
) -> Result<(), NoMemory>
    ensures { OnOk result (out.new.items ≡ out.old.items ++ shown_told_words sentence.now rows.now) }
{
    sentence.reason.put_verdict(out)?;
    sentence.put(alloc, out, b" waits for ")?;
    put_words(out, b"\n")?;
    rows.put(alloc, out)
}

/// Appends the message on tasks that are stuck no more.
pub fn put_resolved(alloc: Global, out: &mut Vec<u8>, names: &ShownNames) -> Result<(), NoMemory>
    ensures { OnOk result (out.new.items ≡ out.old.items ++ shown_resolved_words names.now) }
{
    put_words(out, b"resolved: ")?;
    names.put(alloc, out)?;
    put_words(out, b"\n")
}

/// Appends the answer that the task with this name may wait.
pub fn put_answer(out: &mut Vec<u8>, name: &[u8]) -> Result<(), NoMemory>
    ensures { OnOk result (out.new.items ≡ out.old.items ++ message_line (codes "wait " ++ name.now)) }
{
    put_words(out, b"wait ")?;
    put_words(out, name)?;
    put_words(out, b"\n")
}

/// Appends the answer that a task must not wait, and why.
pub fn put_refusal(
    alloc: Global,
    out: &mut Vec<u8>,
    sentence: &StuckSentence,
) -> Result<(), NoMemory>
    ensures { OnOk result (out.new.items ≡ out.old.items ++ shown_refusal_words sentence.now) }
{
    put_words(out, b"refuse ")?;
    put_words(out, sentence.task.name.as_slice())?;
    put_words(out, b": ")?;
    sentence.put(alloc, out, b" would wait for ")?;
    put_words(out, b"\n")
}
