// What is wrong at a check fault.
ghost use Rattle.std.specs.Prelude.{◌≡◌, ◌++◌, OnOk, codes, decimal};
ghost use Rattle.explain_syntax.specs.QuotedWords.{quoted};
ghost use Rattle.explain_check.specs.MatterWords.{matter_words, phaser_wanted_words, task_wanted_words};
ghost use Rattle.explain_check.specs.NameWords.{phaser_words, task_words};

use crate::names::{put_phaser, put_task};
use crate::scene::{Matter, NamedPhaser, NamedTask, Verb};
use armus_base::{NoMemory, put_words};
use explain_syntax::put_quoted;
use std::alloc::Global;

// What a statement wants, where the name is that of a phaser.
fn task_wanted_words(verb: Verb) -> &'static [u8]
    ensures { result.now ≡ task_wanted_words verb }
{
    match verb {
        Verb::Fork => b" is a phaser, and fork wants a task",
        Verb::Reg => b" is a phaser, and reg wants a task first",
        Verb::Dereg => b" is a phaser, and dereg wants a task",
        Verb::Adv => b" is a phaser, and adv wants a task",
        Verb::Await => b" is a phaser, and await wants a task",
    }
}

// What a statement wants, where the name is that of a task.
fn phaser_wanted_words(verb: Verb) -> &'static [u8]
    ensures { result.now ≡ phaser_wanted_words verb }
{
    match verb {
        Verb::Fork => b" is a task, and fork wants a phaser",
        Verb::Reg => b" is a task, and reg wants a phaser second",
        Verb::Dereg => b" is a task, and dereg wants a phaser",
        Verb::Adv => b" is a task, and adv wants a phaser",
        Verb::Await => b" is a task, and await wants a phaser",
    }
}

// A name, and what is wrong with it.
fn put_about_name(out: &mut Vec<u8>, name: &[u8], words: &[u8]) -> Result<(), NoMemory>
    ensures { OnOk result (out.new.items ≡ out.old.items ++ (quoted name.now ++ words.now)) }
{
    put_quoted(out, name)?;
    out.extend_from_slice(words)?;
    Ok(())
}

// A task and a phaser, with words between them.
fn put_task_and_phaser(
    alloc: Global,
    out: &mut Vec<u8>,
    task: &NamedTask,
    words: &[u8],
    phaser: &NamedPhaser,
) -> Result<(), NoMemory>
    ensures { OnOk result (out.new.items ≡ out.old.items ++ (task_words task.now ++ words.now ++ phaser_words phaser.now)) }
{
    put_task(alloc, out, task)?;
    out.extend_from_slice(words)?;
    put_phaser(alloc, out, phaser)
}

// A task is a member already.
fn put_member_already(
    alloc: Global,
    out: &mut Vec<u8>,
    task: &NamedTask,
    phaser: &NamedPhaser,
) -> Result<(), NoMemory>
    ensures { OnOk result (out.new.items ≡ out.old.items ++ ((task_words task.now ++ codes " is a member of " ++ phaser_words phaser.now) ++ codes " already")) }
{
    put_task_and_phaser(alloc, out, task, b" is a member of ", phaser)?;
    out.extend_from_slice(b" already")?;
    Ok(())
}

// A task did not draw another.
fn put_not_drawn(
    alloc: Global,
    out: &mut Vec<u8>,
    current: &NamedTask,
    task: &NamedTask,
) -> Result<(), NoMemory>
    ensures { OnOk result (out.new.items ≡ out.old.items ++ (task_words current.now ++ codes " did not draw " ++ task_words task.now)) }
{
    put_task(alloc, out, current)?;
    out.extend_from_slice(b" did not draw ")?;
    put_task(alloc, out, task)
}

// A task is forked already.
fn put_forked_already(alloc: Global, out: &mut Vec<u8>, task: &NamedTask) -> Result<(), NoMemory>
    ensures { OnOk result (out.new.items ≡ out.old.items ++ (task_words task.now ++ codes " is forked already")) }
{
    put_task(alloc, out, task)?;
    out.extend_from_slice(b" is forked already")?;
    Ok(())
}

// There are too many ops at the end of a task.
fn put_ops_at_end(
    alloc: Global,
    out: &mut Vec<u8>,
    current: &NamedTask,
    phaser: &NamedPhaser,
) -> Result<(), NoMemory>
    ensures { OnOk result (out.new.items ≡ out.old.items ++ (codes "1048576 ops are there already: at its end " ++ (task_words current.now ++ codes " cannot leave " ++ phaser_words phaser.now))) }
{
    out.extend_from_slice(b"1048576 ops are there already: at its end ")?;
    put_task_and_phaser(alloc, out, current, b" cannot leave ", phaser)
}

// So many tasks and phasers.
fn put_many(alloc: Global, out: &mut Vec<u8>, tasks: u32, phasers: u32) -> Result<(), NoMemory>
    ensures { OnOk result (out.new.items ≡ out.old.items ++ (decimal tasks ++ codes " tasks and " ++ decimal phasers ++ codes " phasers would be there")) }
{
    let text = format!(in alloc; "{tasks} tasks and {phasers} phasers would be there")?;
    out.extend_from_slice(text.as_bytes())?;
    Ok(())
}

// There would be too many cells.
fn put_cells(alloc: Global, out: &mut Vec<u8>, tasks: u32, phasers: u32) -> Result<(), NoMemory>
    ensures { OnOk result (out.new.items ≡ out.old.items ++ ((decimal tasks ++ codes " tasks and " ++ decimal phasers ++ codes " phasers would be there")
        ++ codes ": the tasks times one more than the phasers may be at most 1048576")) }
{
    put_many(alloc, out, tasks, phasers)?;
    out.extend_from_slice(b": the tasks times one more than the phasers may be at most 1048576")?;
    Ok(())
}

/// Appends what is wrong, where this is the current task.
pub(crate) fn put_matter(
    alloc: Global,
    out: &mut Vec<u8>,
    current: &NamedTask,
    matter: &Matter,
) -> Result<(), NoMemory>
    ensures { OnOk result (out.new.items ≡ out.old.items ++ (matter_words current.now matter.now)) }
{
    match matter {
        Matter::UnknownName { name } => {
            put_about_name(
                out,
                name.as_slice(),
                b" is not known here: no newTid or newPhaser names it before",
            )
        }
        Matter::TaskWanted { name, verb, .. } => put_about_name(
            out,
            name.as_slice(),
            task_wanted_words(*verb),
        ),
        Matter::PhaserWanted { name, verb, .. } => put_about_name(
            out,
            name.as_slice(),
            phaser_wanted_words(*verb),
        ),
        Matter::HasLeft { phaser, .. } => {
            put_task_and_phaser(alloc, out, current, b" is no member of ", phaser)
        }
        Matter::NeverMember { phaser } => {
            put_task_and_phaser(alloc, out, current, b" is no member of ", phaser)
        }
        Matter::AlreadyMember { task, phaser, .. } => put_member_already(alloc, out, task, phaser),
        Matter::NotDrawnHere { task, .. } => put_not_drawn(alloc, out, current, task),
        Matter::AlreadyForked { task, .. } => put_forked_already(alloc, out, task),
        Matter::TooManyTasks => { put_words(out, b"4096 tasks are there already: no more may be") }
        Matter::TooManyPhasers => {
            put_words(out, b"1024 phasers are there already: no more may be")
        }
        Matter::TooManyOps => put_words(out, b"1048576 ops are there already: no more may be"),
        Matter::TooManyOpsAtEnd { phaser } => put_ops_at_end(alloc, out, current, phaser),
        Matter::TooManyVisits => {
            put_words(out, b"4194304 visits were made already: no more may be")
        }
        Matter::TooManyCells { tasks, phasers } => put_cells(alloc, out, *tasks, *phasers),
    }
}
