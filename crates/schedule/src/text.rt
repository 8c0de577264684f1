// The text of a replay.
ghost use Rattle.std.specs.Prelude.{◌≡◌, ◌<◌, ◌+◌, ◌^◌, ◌++◌, IfOk, OnOk, codes, decimal, length};
ghost use Rattle.schedule.specs.Texts.{dead_words, end_line, pass_line, pass_lines, text_of};

use crate::verdict::{PassVerdict, Replayed};
use armus_base::{List, NoMemory, TaskId};
use std::alloc::{AllocError, Global};

// A space, and a task.
fn put_task(alloc: Global, out: &mut Vec<u8>, task: TaskId) -> Result<(), AllocError>
    ensures { OnOk result (out.new.items ≡ out.old.items ++ (codes " t" ++ decimal task.0)) }
{
    let t = task.0;
    let text = format!(in alloc; " t{t}")?;
    out.extend_from_slice(text.as_bytes())
}

// The dead tasks, or none.
fn put_dead(alloc: Global, out: &mut Vec<u8>, dead: &[TaskId]) -> Result<(), AllocError>
    ensures { OnOk result (out.new.items ≡ out.old.items ++ dead_words dead.now) }
{
    if dead.is_empty() {
        return out.extend_from_slice(b" none");
    }
    for task in dead {
        put_task(alloc, out, *task)?;
    }
    Ok(())
}

// The line of a pass.
fn put_pass(
    alloc: Global,
    out: &mut Vec<u8>,
    number: usize,
    verdict: &PassVerdict,
) -> Result<(), AllocError>
    ensures { OnOk result (out.new.items ≡ out.old.items ++ pass_line number verdict.now) }
{
    let text = format!(in alloc; "pass {number} dead")?;
    out.extend_from_slice(text.as_bytes())?;
    put_dead(alloc, out, verdict.dead.as_slice())?;
    out.extend_from_slice(b"\n")
}

// The lines of all closed passes.
fn put_passes(alloc: Global, out: &mut Vec<u8>, verdicts: &[PassVerdict]) -> Result<(), AllocError>
    ensures { OnOk result (out.new.items ≡ out.old.items ++ pass_lines verdicts.now) }
{
    for (at, verdict) in verdicts.iter().enumerate() {
        put_pass(alloc, out, at + 1, verdict)?;
    }
    Ok(())
}

// The last line.
fn put_end(alloc: Global, out: &mut Vec<u8>, done: &Replayed) -> Result<(), AllocError>
    ensures { OnOk result (out.new.items ≡ out.old.items ++ end_line done.now) }
{
    let steps = done.steps;
    let passes = done.verdicts.as_slice().len();
    let text = format!(in alloc; "end steps {steps} passes {passes} dead")?;
    out.extend_from_slice(text.as_bytes())?;
    put_dead(alloc, out, done.dead.as_slice())?;
    out.extend_from_slice(b"\n")
}

/// The text of a replay: a line for each closed pass, from 1, with the tasks that it names, and a last line with the numbers of steps and of closed
/// passes and the tasks that are dead at the end.
pub fn replay_text(alloc: Global, done: &Replayed) -> Result<List<u8>, NoMemory>
    ensures text { IfOk result (λ text. text ≡ text_of done.now) }
{
    let mut out = Vec::new(alloc);
    put_passes(alloc, &mut out, done.verdicts.as_slice())?;
    put_end(alloc, &mut out, done)?;
    Ok(List::from_vec(out))
}
