// The line of the verdict.
ghost use Rattle.std.specs.Prelude.{◌<◌, ◌↔◌, ◌≡◌, ◌++◌, IsTrue, OnOk, flat_map, length};
ghost use Rattle.std.specs.List.{enumerate_from};
ghost use Rattle.explain_deadlock.specs.declared.outcome.WaitVerdict.TheVariants.{Chain};
ghost use Rattle.explain_tasks.specs.declared.situation.Situation.TheVariants.{HasEnded, NotForkedYet};
ghost use Rattle.explain_tasks.specs.Facts.{is_deadlocked, situation_of, tasks_that};
ghost use Rattle.explain_deadlock.specs.VerdictWords.{circle_words, walk_end_words, link_as, link_words, linked_words, shown_as, shown_words, verdict_kind, verdict_line, verdict_words};

use crate::outcome::WaitVerdict;
use crate::walk::least_dead;
use armus_base::{NoMemory, TaskId, put_words};
use explain_tasks::{Facts, Situation, is_deadlocked, is_waiting};

// Appends a shown task that stands so.
fn put_shown_as(
    facts: &Facts,
    out: &mut Vec<u8>,
    t: TaskId,
    situation: Situation,
) -> Result<(), NoMemory>
    ensures { OnOk result (out.new.items ≡ out.old.items ++ shown_as facts.now t.0 situation) }
{
    facts.put_named(out, t)?;
    if is_waiting(situation) {
        put_words(out, b" at ")?;
        facts.put_wait_place(out, t)?;
    }
    Ok(())
}

// Appends what stands between a shown task that is not forked yet and its forker.
fn put_fork_link(facts: &Facts, out: &mut Vec<u8>, t: TaskId) -> Result<(), NoMemory>
    ensures { OnOk result (out.new.items ≡ out.old.items ++ link_as facts.now 0 t.0 NotForkedYet) }
{
    put_words(out, b", to be forked at ")?;
    facts.put_fork_place(out, t)?;
    put_words(out, b" by ")
}

// Appends what stands between shown task k, which stands so, and the one behind it.
fn put_link_as(
    facts: &Facts,
    out: &mut Vec<u8>,
    k: usize,
    t: TaskId,
    situation: Situation,
) -> Result<(), NoMemory>
    ensures { OnOk result (out.new.items ≡ out.old.items ++ link_as facts.now k t.0 situation) }
{
    match situation {
        Situation::NotForkedYet => put_fork_link(facts, out, t),
        _ => {
            if k == 0 {
                put_words(out, b" waits for ")
            } else {
                put_words(out, b", which waits for ")
            }
        }
    }
}

// Appends shown task k and its link.
fn put_linked(facts: &Facts, out: &mut Vec<u8>, k: usize, t: TaskId) -> Result<(), NoMemory>
    ensures { OnOk result (out.new.items ≡ out.old.items ++ linked_words facts.now k t) }
{
    let situation = facts.situation(t);
    put_shown_as(facts, out, t, situation)?;
    put_link_as(facts, out, k, t, situation)
}

// Appends these shown tasks, each with its link.
fn put_links(facts: &Facts, out: &mut Vec<u8>, shown: &[TaskId]) -> Result<(), NoMemory>
    ensures { OnOk result (out.new.items ≡ out.old.items ++ flat_map (λ (k, v). linked_words facts.now k v) (enumerate_from 0 shown.now)) }
{
    for (k, t) in shown.iter().enumerate() {
        put_linked(facts, out, k, *t)?;
    }
    Ok(())
}

// Appends the tasks of a circle.
fn put_circle(facts: &Facts, out: &mut Vec<u8>, shown: &[TaskId]) -> Result<(), NoMemory>
    ensures { OnOk result (out.new.items ≡ out.old.items ++ circle_words facts.now shown.now) }
{
    match shown {
        [] => Ok(()),
        [t] => {
            put_shown_as(facts, out, *t, facts.situation(*t))?;
            put_words(out, b" waits for itself")
        }
        [t, _, ..] => {
            put_links(facts, out, shown)?;
            facts.put_named(out, *t)
        }
    }
}

// Appends where the last of a walk ended.
fn put_ended_last(facts: &Facts, out: &mut Vec<u8>, t: TaskId) -> Result<(), NoMemory>
    ensures { OnOk result (out.new.items ≡ out.old.items ++ walk_end_words facts.now t.0 HasEnded) }
{
    put_words(out, b", which ended at ")?;
    facts.put_end_place(out, t)
}

// Appends how the last of a walk stands that does not close.
fn put_last_of_walk(
    facts: &Facts,
    out: &mut Vec<u8>,
    t: TaskId,
    situation: Situation,
) -> Result<(), NoMemory>
    ensures { OnOk result (out.new.items ≡ out.old.items ++ walk_end_words facts.now t.0 situation) }
{
    match situation {
        Situation::HasEnded => put_ended_last(facts, out, t),
        _ => put_words(out, b", which is never forked"),
    }
}

// Appends the last two tasks of a walk that does not close.
fn put_chain(facts: &Facts, out: &mut Vec<u8>, held: TaskId, last: TaskId) -> Result<(), NoMemory>
    ensures { OnOk result (out.new.items ≡ out.old.items ++ verdict_words facts.now (Chain held last)) }
{
    put_linked(facts, out, 0, held)?;
    facts.put_named(out, last)?;
    put_last_of_walk(facts, out, last, facts.situation(last))
}

// Appends what the verdict says.
fn put_verdict_words(
    facts: &Facts,
    out: &mut Vec<u8>,
    verdict: &WaitVerdict,
) -> Result<(), NoMemory>
    ensures { OnOk result (out.new.items ≡ out.old.items ++ verdict_words facts.now verdict.now) }
{
    match verdict {
        WaitVerdict::Nobody => put_words(out, b"nobody waits for ever"),
        WaitVerdict::Circle(shown) => put_circle(facts, out, shown.as_slice()),
        WaitVerdict::Chain(held, last) => put_chain(facts, out, *held, *last),
    }
}

// Whether a task is deadlocked.
fn has_deadlocked(facts: &Facts) -> bool
    ensures { IsTrue result ↔ (0 < length (tasks_that is_deadlocked facts.now)) }
{
    least_dead(facts).is_some()
}

// Appends with what the verdict begins.
fn put_verdict_kind(facts: &Facts, out: &mut Vec<u8>, verdict: &WaitVerdict) -> Result<(), NoMemory>
    ensures { OnOk result (out.new.items ≡ out.old.items ++ verdict_kind facts.now verdict.now) }
{
    match verdict {
        WaitVerdict::Nobody => Ok(()),
        _ => {
            if has_deadlocked(facts) {
                put_words(out, b"deadlock: ")
            } else {
                put_words(out, b"waits for ever: ")
            }
        }
    }
}

/// Appends the line of the verdict.
pub(crate) fn put_verdict(
    facts: &Facts,
    out: &mut Vec<u8>,
    verdict: &WaitVerdict,
) -> Result<(), NoMemory>
    ensures { OnOk result (out.new.items ≡ out.old.items ++ verdict_line facts.now verdict.now) }
{
    put_verdict_kind(facts, out, verdict)?;
    put_verdict_words(facts, out, verdict)?;
    put_words(out, b"\n")
}
