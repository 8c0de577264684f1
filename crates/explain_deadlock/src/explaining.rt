// The explanation of the state in which a run has ended.
ghost use Rattle.explain_deadlock.specs.Explanations.{Explains, IsExplanationAt};
ghost use Rattle.std.specs.Prelude.{◌≡◌, ◌++◌, IfOk, OnOk, option_copied};
ghost use Rattle.armus_base.specs.Finals.{final_of};
ghost use Rattle.armus_base.specs.Places.{done_by};
ghost use Rattle.explain_deadlock.specs.Notes.{verdict_end};
ghost use Rattle.explain_deadlock.specs.RunEnds.{IsAccountOf};
ghost use Rattle.explain_deadlock.specs.calls.RunEnds.{WaitersStay};
ghost use Rattle.explain_tasks.specs.calls.Fitting.{FactsFitPlan};
ghost use Rattle.explain_deadlock.specs.inside.Fitting.{IsTextOf, WaitForSome};
ghost use Rattle.pl_core.specs.calls.Worlds.{places_of, state_of};
ghost use Rattle.explain_deadlock.specs.Verdicts.{shown_of, somebody_waits};

use crate::hint::put_hint;
use crate::notes::{NotedText, put_notes};
use crate::outcome::WaitVerdict;
use crate::paragraphs::put_paragraphs;
use crate::verdict_line::put_verdict;
use crate::walk::verdict_of;
use armus_base::{Final, List, NoMemory, TaskId};
use explain_facts::Account;
use explain_tasks::Facts;
use pl_core::World;
use report::{Outline, outline_of};
use source_map::TextPlaces;
use std::alloc::Global;

/// The explanation of a run, and whether somebody waits for ever.
#[derive(Drop)]
pub struct Explanation {
    /// The lines of the explanation.
    pub lines: List<u8>,
    /// Whether a task waits.
    pub has_waiting: bool,
}

// The shown tasks.
fn shown_of(alloc: Global, verdict: &WaitVerdict) -> Result<Vec<TaskId>, NoMemory>
    ensures { IfOk result (λ v. v.items ≡ shown_of verdict.now) }
{
    let mut shown = Vec::new(alloc);
    match verdict {
        WaitVerdict::Nobody => {}
        WaitVerdict::Circle(tasks) => shown.extend_from_slice(tasks.as_slice())?,
        WaitVerdict::Chain(held, last) => {
            shown.push(*held)?;
            shown.push(*last)?;
        }
    }
    Ok(shown)
}

// Whether a task waits, by the verdict.
fn has_waiting(verdict: &WaitVerdict) -> bool
    ensures { result ≡ somebody_waits verdict.now }
{
    match verdict {
        WaitVerdict::Nobody => false,
        _ => true,
    }
}

// Appends what stands behind the paragraphs: the hint, if one fits, or the notes.
fn put_end(
    facts: &Facts,
    text: NotedText<'_>,
    out: &mut Vec<u8>,
    world: &World,
    verdict: &WaitVerdict,
) -> Result<(), NoMemory>
    requires fits { FactsFitPlan facts.now world.now.plan }
    requires text { IsTextOf facts.now text }
    requires plan { text.plan.now ≡ world.now.plan }
    ensures { OnOk result (out.new.items ≡ out.old.items ++ verdict_end facts.now world.now.plan (state_of world.now).phases verdict.now) }
{
    match verdict {
        WaitVerdict::Nobody => put_notes(facts, text, out),
        WaitVerdict::Circle(_) => put_hint(facts, text.account, out, world, verdict),
        WaitVerdict::Chain(_, _) => put_hint(facts, text.account, out, world, verdict),
    }
}

// Explains what is known of a text, behind this line of counts.
fn explain_facts(
    facts: &Facts,
    text: NotedText<'_>,
    world: &World,
    counts: List<u8>,
) -> Result<Explanation, NoMemory>
    requires fits { FactsFitPlan facts.now world.now.plan }
    requires wait { WaitForSome facts.now (state_of world.now).phases }
    requires text { IsTextOf facts.now text }
    requires plan { text.plan.now ≡ world.now.plan }
    ensures { IfOk result (λ e. Explains facts.now world.now.plan (state_of world.now).phases counts e.lines e.has_waiting) }
{
    let verdict = verdict_of(facts, world)?;
    let shown = shown_of(facts.alloc(), &verdict)?;
    let mut out = counts.into_vec();
    put_verdict(facts, &mut out, &verdict)?;
    put_paragraphs(facts, &mut out, world, &shown)?;
    put_end(facts, text, &mut out, world, &verdict)?;
    Ok(Explanation {
        lines: List::from_vec(out),
        has_waiting: has_waiting(&verdict),
    })
}

/// Explains the state of a world in which no task that waits may go on. The world's plan is that of the text with these places, of which this is the account;
/// `file` is the name of the text's file, if it comes from one, and `end` is the value of the state. The only error is want of memory.
pub fn explanation_of(
    alloc: Global,
    places: &TextPlaces,
    file: Option<&[u8]>,
    account: &Account,
    world: &World,
    end: &Final,
) -> Result<Explanation, NoMemory>
    requires account { IsAccountOf places.now world.now.plan (state_of world.now) (done_by (places_of world.now)) account.now }
    requires rest { WaitersStay (state_of world.now) }
    requires end { end.now ≡ final_of world.now.plan (state_of world.now) }
    ensures { IfOk result (λ e. IsExplanationAt (option_copied file.entry) places.now world.now.plan (state_of world.now) (done_by (places_of world.now)) e.lines e.has_waiting) }
{
    let plan = world.plan();
    let outline = outline_of(alloc, end)?;
    let Outline { standings, counts } = outline;
    let facts = Facts::new(alloc, places, file, account, standings.as_slice());
    let text = NotedText {
        places,
        file,
        account,
        plan,
    };
    explain_facts(&facts, text, world, counts)
}
