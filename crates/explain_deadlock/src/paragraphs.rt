// The paragraphs of an explanation.
ghost use Rattle.explain_tasks.specs.Facts.{stands_unforked, is_waiting, tasks_that};
ghost use Rattle.explain_deadlock.specs.Paragraphs.{explained_tasks, lines_of_impeders, own_lines, paragraphs, shown_waiting};
ghost use Rattle.explain_tasks.specs.calls.Grouped.{AddsTold, IsSized};
ghost use Rattle.explain_deadlock.specs.inside.Grouped.{AreParagraphs, own_told, said_in};
ghost use Rattle.explain_deadlock.specs.inside.GroupTexts.{paragraph_text, texts_in};
ghost use Rattle.explain_deadlock.specs.inside.Numbered.{AreNumbers};
ghost use Rattle.std.specs.Prelude.{◌≡◌, ◌++◌, [], IfOk, OnOk, length, map};
ghost use Rattle.explain_tasks.specs.calls.Fitting.{FactsFitPlan};
ghost use Rattle.pl_core.specs.calls.Worlds.{state_of};
ghost use Rattle.explain_tasks.specs.calls.SayingValues.{said_by};

use crate::impeder_lines::{put_forking, put_impeders};
use crate::numbers::numbers_of;
use armus_base::{NoMemory, TaskId, put_words};
use explain_tasks::{
    Facts, Grouping, Saying, is_waiting, never_forked, passing_below, put_by_number, put_kept,
};
use pl_core::World;

// Appends the lines that say this of these tasks.
fn put_own_lines(
    facts: &Facts,
    out: &mut Vec<u8>,
    saying: &Saying,
    tasks: &[TaskId],
) -> Result<(), NoMemory>
    ensures { OnOk result (out.new.items ≡ out.old.items ++ own_lines facts.now (said_by saying.now) tasks.now) }
{
    put_kept(out, &saying.front)?;
    put_words(out, b": ")?;
    facts.put_named_tasks(out, tasks)?;
    put_by_number(out, tasks.len(), b" is ", b" are ")?;
    put_kept(out, &saying.words)?;
    put_forking(facts, out, &saying.forking, tasks)?;
    put_words(out, b"\n")
}

// Appends the lines of the impeders of the first of these tasks.
fn put_impeders_of(
    facts: &Facts,
    numbers: &[usize],
    out: &mut Vec<u8>,
    world: &World,
    tasks: &[TaskId],
) -> Result<(), NoMemory>
    requires numbers { AreNumbers facts.now numbers.now }
    requires fits { FactsFitPlan facts.now world.now.plan }
    ensures { OnOk result (out.new.items ≡ out.old.items ++ lines_of_impeders facts.now (state_of world.now).phases tasks.now) }
{
    match tasks {
        [t, ..] => put_impeders(facts, numbers, out, world, tasks.len(), *t),
        [] => Ok(()),
    }
}

// The shown tasks that wait.
fn shown_waiting(facts: &Facts, shown: &[TaskId]) -> Result<Vec<TaskId>, NoMemory>
    ensures { IfOk result (λ v. v.items ≡ shown_waiting facts.now shown.now) }
{
    let mut all = Vec::new(facts.alloc());
    for t in shown {
        if is_waiting(facts.situation(*t)) {
            all.push(*t)?;
        }
    }
    Ok(all)
}

// The tasks that wait.
fn waiting(facts: &Facts) -> Result<Vec<TaskId>, NoMemory>
    ensures { IfOk result (λ v. v.items ≡ tasks_that is_waiting facts.now) }
{
    passing_below(
        facts.alloc(),
        facts.count(),
        |t| is_waiting(facts.situation(t)),
    )
}

// The tasks that were not forked.
fn unforked(facts: &Facts) -> Result<Vec<TaskId>, NoMemory>
    ensures { IfOk result (λ v. v.items ≡ tasks_that stands_unforked facts.now) }
{
    passing_below(
        facts.alloc(),
        facts.count(),
        |t| never_forked(facts.situation(t)),
    )
}

// The tasks that are not done: first those that wait, then the others.
fn explained(facts: &Facts) -> Result<Vec<TaskId>, NoMemory>
    ensures { IfOk result (λ v. v.items ≡ explained_tasks facts.now) }
{
    let mut all = waiting(facts)?;
    let unforked = unforked(facts)?;
    all.extend_from_slice(&unforked)?;
    Ok(all)
}

// Notes what is said of each of these tasks, and of no task so far.
fn note_each(facts: &Facts, groups: &mut Grouping, tasks: &[TaskId]) -> Result<(), NoMemory>
    ensures noted { OnOk result (AddsTold (said_in (map (own_told facts.now) tasks.now)) [] groups.old groups.new) }
    ensures sized { OnOk result (IsSized groups.old → IsSized groups.new) }
{
    for t in tasks {
        groups.note(facts.alloc(), facts.own_saying(*t)?)?;
    }
    Ok(())
}

// Notes what is said of each of these tasks.
fn put_each(facts: &Facts, groups: &mut Grouping, tasks: &[TaskId]) -> Result<(), NoMemory>
    requires sized { IsSized groups.old }
    ensures { OnOk result (AddsTold (said_in (map (own_told facts.now) tasks.now)) (map (own_told facts.now) tasks.now) groups.old groups.new) }
{
    for t in tasks {
        groups.put(facts.alloc(), facts.own_saying(*t)?, *t)?;
    }
    Ok(())
}

// The tasks of which the same is said, together: those of the shown tasks that wait first.
fn own_groups(facts: &Facts, shown: &[TaskId]) -> Result<Grouping, NoMemory>
    ensures { IfOk result (AreParagraphs facts.now shown.now) }
{
    let first = shown_waiting(facts, shown)?;
    let all = explained(facts)?;
    let mut groups = Grouping::new(facts.alloc());
    note_each(facts, &mut groups, &first)?;
    put_each(facts, &mut groups, &all)?;
    Ok(groups)
}

// Appends the paragraph that says this of these tasks.
fn put_paragraph(
    facts: &Facts,
    numbers: &[usize],
    out: &mut Vec<u8>,
    world: &World,
    saying: &Saying,
    tasks: &[TaskId],
) -> Result<(), NoMemory>
    requires numbers { AreNumbers facts.now numbers.now }
    requires fits { FactsFitPlan facts.now world.now.plan }
    ensures { OnOk result (out.new.items ≡ out.old.items
        ++ (own_lines facts.now (said_by saying.now) tasks.now ++ lines_of_impeders facts.now (state_of world.now).phases tasks.now)) }
{
    put_own_lines(facts, out, saying, tasks)?;
    put_impeders_of(facts, numbers, out, world, tasks)
}

// Appends the paragraphs of these groups.
fn put_grouped(
    facts: &Facts,
    numbers: &[usize],
    out: &mut Vec<u8>,
    world: &World,
    sayings: &[Saying],
    groups: &[Vec<TaskId>],
) -> Result<(), NoMemory>
    requires numbers { AreNumbers facts.now numbers.now }
    requires fits { FactsFitPlan facts.now world.now.plan }
    requires sized { length groups.now ≡ length sayings.now }
    ensures { OnOk result (out.new.items ≡ out.old.items ++ texts_in (paragraph_text facts.now (state_of world.now).phases) sayings.now groups.now) }
{
    for k in 0..sayings.len() {
        put_paragraph(facts, numbers, out, world, &sayings[k], &groups[k])?;
    }
    Ok(())
}

/// Appends all paragraphs, where these tasks are shown.
pub fn put_paragraphs(
    facts: &Facts,
    out: &mut Vec<u8>,
    world: &World,
    shown: &[TaskId],
) -> Result<(), NoMemory>
    requires fits { FactsFitPlan facts.now world.now.plan }
    ensures { OnOk result (out.new.items ≡ out.old.items ++ paragraphs facts.now (state_of world.now).phases shown.now) }
{
    let grouping = own_groups(facts, shown)?;
    let numbers = numbers_of(facts)?;
    put_grouped(
        facts,
        &numbers,
        out,
        world,
        grouping.sayings.as_slice(),
        &grouping.groups,
    )
}
