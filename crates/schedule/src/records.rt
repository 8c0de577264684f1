// Records: the text of a run with the journal of its steps.
ghost use Rattle.std.specs.Prelude.{◌≡◌, ◌++◌, IfOk, OnOk};
ghost use Rattle.schedule.specs.Records.{IsClosedText, IsRecord, step_lines};
ghost use Rattle.schedule.specs.inside.StepLines.{IsKeptLineOf};

use armus_base::{List, NoMemory, TaskId};
use std::alloc::{AllocError, Global};

// What is wanted behind a text: an LF, where the text is not empty and does not end with one.
fn last_end(text: &[u8]) -> &'static [u8]
    ensures { IsClosedText text.now (text.now ++ result.now) }
{
    match text.split_last() {
        Some((last, _)) => { if *last == b'\n' { &[] } else { b"\n" } }
        None => &[],
    }
}

// The line of a task's steps.
#[derive(Drop)]
pub(crate) struct StepLine {
    pub(crate) task: TaskId,
    pub(crate) line: Vec<u8>,
}

// The line of a task.
fn line_of(alloc: Global, task: TaskId) -> Result<StepLine, AllocError>
    ensures { IfOk result (IsKeptLineOf task) }
{
    let t = task.0;
    let mut line = Vec::new(alloc);
    let text = format!(in alloc; "t {t}\n")?;
    line.extend_from_slice(text.as_bytes())?;
    Ok(StepLine { task, line })
}

// The line of a task, which is made anew where another one's is kept.
fn line_for(alloc: Global, kept: StepLine, task: TaskId) -> Result<StepLine, AllocError>
    requires kept { IsKeptLineOf kept.task kept }
    ensures { IfOk result (IsKeptLineOf task) }
{
    if kept.task == task {
        return Ok(kept);
    }
    line_of(alloc, task)
}

// The lines of a journal. The line of a task is kept while it goes on.
fn put_steps(alloc: Global, out: &mut Vec<u8>, journal: &[TaskId]) -> Result<(), AllocError>
    ensures { OnOk result (out.new.items ≡ out.old.items ++ step_lines journal.now) }
{
    let mut kept = line_of(alloc, TaskId(0))?;
    for task in journal {
        kept = line_for(alloc, kept, *task)?;
        out.extend_from_slice(&kept.line)?;
    }
    Ok(())
}

/// The record of a text and a journal: the text, an LF where its last line is not ended by one, the line `%%`, and a line for each step, in order.
pub fn recorded_text(alloc: Global, text: &[u8], journal: &[TaskId]) -> Result<List<u8>, NoMemory>
    ensures record { IfOk result (IsRecord text.now journal.now) }
{
    let mut out = Vec::new(alloc);
    out.extend_from_slice(text)?;
    out.extend_from_slice(last_end(text))?;
    out.extend_from_slice(b"%%\n")?;
    put_steps(alloc, &mut out, journal)?;
    Ok(List::from_vec(out))
}
