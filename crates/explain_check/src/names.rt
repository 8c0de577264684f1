// Tasks and phasers, as they stand in sentences.
ghost use Rattle.std.specs.Prelude.{◌≡◌, ◌==◌, ◌++◌, [], OnOk, if◌then◌else◌};
ghost use Rattle.explain_check.specs.NameWords.{in_parentheses, number_words, phaser_words, task_words};

use crate::scene::{NamedPhaser, NamedTask};
use armus_base::NoMemory;
use std::alloc::Global;

// Appends a name in parentheses.
fn put_name(out: &mut Vec<u8>, name: &[u8]) -> Result<(), NoMemory>
    ensures { OnOk result (out.new.items ≡ out.old.items ++ in_parentheses name.now) }
{
    out.extend_from_slice(b" (")?;
    out.extend_from_slice(name)?;
    out.extend_from_slice(b")")?;
    Ok(())
}

// Appends the name of a task, which task 0 has not.
fn put_name_of(out: &mut Vec<u8>, t: u32, name: &[u8]) -> Result<(), NoMemory>
    ensures { OnOk result (out.new.items ≡ out.old.items ++ (if t == 0 then [] else in_parentheses name.now)) }
{
    if t == 0 {
        return Ok(());
    }
    put_name(out, name)
}

// Appends the number of a task.
fn put_task_number(alloc: Global, out: &mut Vec<u8>, t: u32) -> Result<(), NoMemory>
    ensures { OnOk result (out.new.items ≡ out.old.items ++ number_words 116 t) }
{
    let text = format!(in alloc; "t{t}")?;
    out.extend_from_slice(text.as_bytes())?;
    Ok(())
}

// Appends the number of a phaser.
fn put_phaser_number(alloc: Global, out: &mut Vec<u8>, p: u32) -> Result<(), NoMemory>
    ensures { OnOk result (out.new.items ≡ out.old.items ++ number_words 112 p) }
{
    let text = format!(in alloc; "p{p}")?;
    out.extend_from_slice(text.as_bytes())?;
    Ok(())
}

/// Appends a task: `t0`, or `t1 (t)`.
pub(crate) fn put_task(alloc: Global, out: &mut Vec<u8>, task: &NamedTask) -> Result<(), NoMemory>
    ensures { OnOk result (out.new.items ≡ out.old.items ++ task_words task.now) }
{
    put_task_number(alloc, out, task.t.0)?;
    put_name_of(out, task.t.0, task.name.as_slice())
}

/// Appends a phaser: `p0 (b)`.
pub(crate) fn put_phaser(
    alloc: Global,
    out: &mut Vec<u8>,
    phaser: &NamedPhaser,
) -> Result<(), NoMemory>
    ensures { OnOk result (out.new.items ≡ out.old.items ++ phaser_words phaser.now) }
{
    put_phaser_number(alloc, out, phaser.p.0)?;
    put_name(out, phaser.name.as_slice())
}
