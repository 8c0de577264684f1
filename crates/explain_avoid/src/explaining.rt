// The explanation of a run that avoids deadlock.
ghost use Rattle.std.specs.Prelude.{◌≡◌, ◌++◌, ◌<◌, ◌^◌, IfOk, OnOk, length, option_copied};
ghost use Rattle.armus_base.specs.Finals.{final_of};
ghost use Rattle.armus_base.specs.Places.{done_by};
ghost use Rattle.pl_core.specs.calls.Worlds.{places_of, state_of};
ghost use Rattle.report.specs.Counts.{counts_of};
ghost use Rattle.report.specs.Lines.{counts_line};
ghost use Rattle.explain_tasks.specs.calls.Fitting.{FactsFitPlan};
ghost use Rattle.explain_deadlock.specs.RunEnds.{IsAccountOf};
ghost use Rattle.explain_avoid.specs.calls.AvoidedRuns.{IsExplainedRun};
ghost use Rattle.explain_avoid.specs.AvoidedWords.{avoided_words, has_some, was_refused, waits_at_the_end, refused_line, somebody_stays, tasks_with, waiting_line};

use crate::avoiding::AvoidedRun;
use armus_base::{List, NoMemory, TaskId, put_words};
use explain_deadlock::put_paragraphs;
use explain_facts::Account;
use explain_tasks::{Facts, passing_below, put_by_number, task_standing};
use report::{Outline, Standing, outline_of};
use source_map::TextPlaces;
use std::alloc::Global;

/// The explanation of a run that avoids deadlock, and whether somebody was refused or waits for ever.
#[derive(Drop)]
pub struct AvoidedExplanation {
    /// The lines of the explanation.
    pub lines: List<u8>,
    /// Whether a task was refused or waits.
    pub somebody_stays: bool,
}

// Whether a task that stands so was refused.
fn is_refused(standing: Standing) -> bool
    ensures { result ≡ was_refused standing }
{
    match standing {
        Standing::Refused(_) => true,
        _ => false,
    }
}

// Whether a task that stands so waits.
fn is_waiting(standing: Standing) -> bool
    ensures { result ≡ waits_at_the_end standing }
{
    match standing {
        Standing::Dead(_) | Standing::Held(_) => true,
        _ => false,
    }
}

// The tasks that were refused.
fn refused(alloc: Global, standings: &[Standing]) -> Result<Vec<TaskId>, NoMemory>
    requires few { length standings.now < 2 ^ 32 }
    ensures { IfOk result (λ v. v.items ≡ tasks_with was_refused standings.now) }
{
    passing_below(alloc, standings.len() as u32, |t| {
        is_refused(task_standing(standings, t))
    })
}

// The tasks that wait.
fn waiting(alloc: Global, standings: &[Standing]) -> Result<Vec<TaskId>, NoMemory>
    requires few { length standings.now < 2 ^ 32 }
    ensures { IfOk result (λ v. v.items ≡ tasks_with waits_at_the_end standings.now) }
{
    passing_below(alloc, standings.len() as u32, |t| {
        is_waiting(task_standing(standings, t))
    })
}

// Whether one of two lists has a task.
fn has_task(a: &[TaskId], b: &[TaskId]) -> bool
    ensures { result ≡ has_some (a.now ++ b.now) }
{
    match a {
        [_, ..] => true,
        [] => match b {
            [_, ..] => true,
            [] => false,
        },
    }
}

// Appends the line that tells who was refused.
fn put_refused_line(facts: &Facts, out: &mut Vec<u8>, refused: &[TaskId]) -> Result<(), NoMemory>
    ensures { OnOk result (out.new.items ≡ out.old.items ++ refused_line facts.now.account.names refused.now) }
{
    match refused {
        [] => put_words(out, b"nobody was refused\n"),
        [_, ..] => {
            put_words(out, b"refused: ")?;
            facts.put_named_tasks(out, refused)?;
            put_words(out, b"\n")
        }
    }
}

// Appends the line that tells who waits for ever.
fn put_waiting_line(facts: &Facts, out: &mut Vec<u8>, waiting: &[TaskId]) -> Result<(), NoMemory>
    ensures { OnOk result (out.new.items ≡ out.old.items ++ waiting_line facts.now.account.names waiting.now) }
{
    match waiting {
        [] => put_words(out, b"nobody waits for ever\n"),
        [_, ..] => {
            facts.put_named_tasks(out, waiting)?;
            put_by_number(out, waiting.len(), b" waits for ever", b" wait for ever")?;
            put_words(out, b"\n")
        }
    }
}

// Explains the end of a run whose tasks stand so, behind this line of counts.
fn explain_standings(
    facts: &Facts,
    run: &AvoidedRun,
    counts: List<u8>,
    standings: &[Standing],
) -> Result<AvoidedExplanation, NoMemory>
    requires few { length standings.now < 2 ^ 32 }
    requires stand { facts.now.standings ≡ standings.now }
    requires counts { counts ≡ counts_line (counts_of standings.now) }
    requires fits { FactsFitPlan facts.now run.now.world.plan }
    ensures lines { IfOk result (λ x. x.lines ≡ avoided_words facts.now (state_of run.now.world).phases run.now.refusals) }
    ensures tells { IfOk result (λ x. x.somebody_stays ≡ somebody_stays standings.now) }
{
    let alloc = facts.alloc();
    let refused = refused(alloc, standings)?;
    let waiting = waiting(alloc, standings)?;
    let mut out = counts.into_vec();
    put_refused_line(facts, &mut out, &refused)?;
    put_waiting_line(facts, &mut out, &waiting)?;
    put_words(&mut out, run.refusals.as_slice())?;
    put_paragraphs(facts, &mut out, &run.world, &[])?;
    Ok(AvoidedExplanation {
        lines: List::from_vec(out),
        somebody_stays: has_task(&refused, &waiting),
    })
}

/// Explains the end of a serial avoided run of the text with these places, of which this is the account there; `file` is the name of the text's file, if it
/// comes from one. The only error is want of memory.
pub fn avoided_explanation_of(
    alloc: Global,
    places: &TextPlaces,
    file: Option<&[u8]>,
    account: &Account,
    run: &AvoidedRun,
) -> Result<AvoidedExplanation, NoMemory>
    requires account { IsAccountOf places.now run.now.world.plan (state_of run.now.world) (done_by (places_of run.now.world)) account.now }
    requires end { run.now.end ≡ final_of run.now.world.plan (state_of run.now.world) }
    ensures { IfOk result (IsExplainedRun (option_copied file.entry) places.now account.now run.now) }
{
    let _plan = run.world.plan();
    let outline = outline_of(alloc, &run.end)?;
    let Outline { standings, counts } = outline;
    let stand = standings.as_slice();
    let facts = Facts::new(alloc, places, file, account, stand);
    let explanation = explain_standings(&facts, run, counts, stand)?;
    Ok(explanation)
}
