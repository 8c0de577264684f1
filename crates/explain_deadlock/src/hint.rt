// The line of the hint.
ghost use Rattle.std.specs.Prelude.{◌≡◌, ◌==◌, ◌<◌, ◌-◌, ◌++◌, OnOk, is_none, length, option_copied, slice_get};
ghost use Rattle.std.specs.List.{find};
ghost use Rattle.explain_tasks.specs.Facts.{next_op_of, wait_of};
ghost use Rattle.explain_tasks.specs.calls.Fitting.{FactsFitPlan};
ghost use Rattle.explain_deadlock.specs.Hints.{awaited_phaser_words, before_fork_words, before_words, chain_hint, circle_hint, circle_hint_words, closed_hint, comes_no_more, first_no_more, is_done_with, no_more_behind, no_more_hint, no_more_or_circle, ended_hint, for_event_words, fork_hint, fork_or_others, verdict_hint, impeding_phase, is_ahead_of_itself, is_behind_a_wait, is_of_text, is_outside, itself_hint, itself_or_circle, leaving_words, let_maker_words, let_task_words, let_words, missing_arrivals, arrivals_words, never_forked_hint, others_words, own_phase_words, pair_words, unforked_hint, waits_at_words, waits_before_fork, waits_for_itself, waits_in_text};
ghost use Rattle.pl_core.specs.calls.Worlds.{state_of};

use crate::outcome::WaitVerdict;
use armus_base::{NoMemory, Phase, PhaserId, TaskId, put_number, put_words};
use explain_facts::{Account, Drawn, Forked, NextOp, Waiting};
use explain_tasks::{Facts, Impeder, Situation, is_waiting};
use pl_core::World;
use source_map::TextPlace;
use std::alloc::Global;

// Appends the phaser for which a task waits.
fn put_awaited_phaser(facts: &Facts, out: &mut Vec<u8>, t: TaskId) -> Result<(), NoMemory>
    ensures { OnOk result (out.new.items ≡ out.old.items ++ awaited_phaser_words facts.now t.0) }
{
    match facts.wait(t) {
        Some(wait) => facts.put_named_phaser(out, wait.event.p),
        None => Ok(()),
    }
}

// Whether a place is one of the text itself.
fn is_of_text(at: TextPlace) -> bool
    ensures { result ≡ is_of_text at }
{
    match at {
        TextPlace::Here { line: _, column: _ } => true,
        TextPlace::Elsewhere { from: _, to: _ } => false,
    }
}

// Whether a task that is drawn so is none of the other program of which this await is.
fn is_outside(drawn: Option<&Drawn>, wait: Option<&Waiting>) -> bool
    ensures { result ≡ is_outside (option_copied drawn.entry) (option_copied wait.entry) }
{
    match drawn {
        Some(drawn) => match wait {
            Some(wait) => is_of_text(drawn.at) && !is_of_text(wait.at),
            None => false,
        },
        None => false,
    }
}

// Appends that a task for which this one waits is never forked.
fn put_never_forked(
    facts: &Facts,
    out: &mut Vec<u8>,
    held: TaskId,
    last: TaskId,
) -> Result<(), NoMemory>
    ensures { OnOk result (out.new.items ≡ out.old.items ++ never_forked_hint facts.now held.0 last.0) }
{
    put_words(out, b"hint: ")?;
    facts.put_named(out, last)?;
    put_words(
        out,
        b" is never forked: fork it, or let it be no member of ",
    )?;
    put_awaited_phaser(facts, out, held)?;
    put_words(out, b"\n")
}

// Appends the hint where a task that is never forked ends the walk.
fn put_unforked(
    facts: &Facts,
    out: &mut Vec<u8>,
    held: TaskId,
    last: TaskId,
) -> Result<(), NoMemory>
    ensures { OnOk result (out.new.items ≡ out.old.items ++ unforked_hint facts.now held.0 last.0) }
{
    if is_outside(facts.drawn(last), facts.wait(held)) {
        return Ok(());
    }
    put_never_forked(facts, out, held, last)
}

// Appends so many arrivals.
fn put_more(alloc: Global, out: &mut Vec<u8>, n: u32) -> Result<(), NoMemory>
    ensures { OnOk result (out.new.items ≡ out.old.items ++ arrivals_words n) }
{
    if n == 1 {
        return put_words(out, b"once more");
    }
    put_number(alloc, out, u64::from(n))?;
    put_words(out, b" more times")
}

// Appends how often a member with this phase would have to arrive for the event that is awaited so.
fn put_missing(
    alloc: Global,
    out: &mut Vec<u8>,
    wait: Option<&Waiting>,
    phase: Option<Phase>,
) -> Result<(), NoMemory>
    ensures { OnOk result (out.new.items ≡ out.old.items ++ missing_arrivals (option_copied wait.entry) phase) }
{
    match wait {
        Some(wait) => match phase {
            Some(phase) => put_more(alloc, out, wait.event.n.saturating_sub(phase)),
            None => Ok(()),
        },
        None => Ok(()),
    }
}

// Appends how often a member with this phase would have to arrive for the event that a task awaits.
fn put_missing_for(
    facts: &Facts,
    out: &mut Vec<u8>,
    held: TaskId,
    phase: Option<Phase>,
) -> Result<(), NoMemory>
    ensures { OnOk result (out.new.items ≡ out.old.items ++ missing_arrivals (wait_of facts.now held.0) phase) }
{
    put_missing(facts.alloc(), out, facts.wait(held), phase)
}

// Appends what a task that has ended, and has this phase, would have to do before.
fn put_leaving(
    facts: &Facts,
    out: &mut Vec<u8>,
    held: TaskId,
    last: TaskId,
    phase: Option<Phase>,
) -> Result<(), NoMemory>
    ensures { OnOk result (out.new.items ≡ out.old.items ++ leaving_words facts.now held.0 last.0 phase) }
{
    put_words(out, b" leave ")?;
    put_awaited_phaser(facts, out, held)?;
    put_words(out, b" before ")?;
    facts.put_end_place(out, last)?;
    put_words(out, b", or arrive there ")?;
    put_missing_for(facts, out, held, phase)
}

// Appends that task 0 is to do so, which made the phaser.
fn put_let_maker(facts: &Facts, out: &mut Vec<u8>, held: TaskId) -> Result<(), NoMemory>
    ensures { OnOk result (out.new.items ≡ out.old.items ++ let_maker_words facts.now held.0) }
{
    put_words(out, b"hint: t0 made ")?;
    put_awaited_phaser(facts, out, held)?;
    put_words(out, b", and so is a member of it: let it")
}

// Appends that another task is to do so.
fn put_let_task(facts: &Facts, out: &mut Vec<u8>, last: TaskId) -> Result<(), NoMemory>
    ensures { OnOk result (out.new.items ≡ out.old.items ++ let_task_words facts.now last.0) }
{
    put_words(out, b"hint: let ")?;
    facts.put_named(out, last)
}

// Appends whom the hint tells to do so.
fn put_let(facts: &Facts, out: &mut Vec<u8>, held: TaskId, last: TaskId) -> Result<(), NoMemory>
    ensures { OnOk result (out.new.items ≡ out.old.items ++ let_words facts.now held.0 last.0) }
{
    if last.0 == 0 {
        return put_let_maker(facts, out, held);
    }
    put_let_task(facts, out, last)
}

// Appends the hint where a task that has ended, and has this phase, ends the walk.
fn put_ended(
    facts: &Facts,
    out: &mut Vec<u8>,
    held: TaskId,
    last: TaskId,
    phase: Option<Phase>,
) -> Result<(), NoMemory>
    ensures { OnOk result (out.new.items ≡ out.old.items ++ ended_hint facts.now held.0 last.0 phase) }
{
    put_let(facts, out, held, last)?;
    put_leaving(facts, out, held, last, phase)?;
    put_words(out, b"\n")
}

// Whether an impeder is this task.
fn is_impeder(impeder: Impeder, u: TaskId) -> bool
    ensures { result ≡ (impeder.t.0 == u.0) }
{
    impeder.t.0 == u.0
}

// The phase of one of these impeders.
fn impeding_phase(impeders: &[Impeder], u: TaskId) -> Option<Phase>
    ensures { result ≡ impeding_phase impeders.now u.0 }
{
    impeders
        .iter()
        .find(|impeder| is_impeder(**impeder, u))
        .map(|impeder| impeder.phase)
}

// Appends the hint where a task that stands so ends the walk.
fn put_chain_hint(
    facts: &Facts,
    out: &mut Vec<u8>,
    world: &World,
    held: TaskId,
    last: TaskId,
    situation: Situation,
) -> Result<(), NoMemory>
    requires fits { FactsFitPlan facts.now world.now.plan }
    ensures { OnOk result (out.new.items ≡ out.old.items ++ chain_hint facts.now (state_of world.now).phases held.0 last.0 situation) }
{
    match situation {
        Situation::HasEnded => {
            let impeders = facts.impeders(world, held)?;
            put_ended(facts, out, held, last, impeding_phase(&impeders, last))
        }
        Situation::NeverForked => put_unforked(facts, out, held, last),
        Situation::Deadlocked | Situation::Held | Situation::NotForkedYet => Ok(()),
    }
}

// Whether a task that stands so, and is forked so, is not forked yet, and who forks it waits.
fn is_behind_a_wait(facts: &Facts, situation: Situation, fork: Option<Forked>) -> bool
    ensures { result ≡ is_behind_a_wait facts.now situation fork }
{
    match situation {
        Situation::NotForkedYet => match fork {
            Some(fork) => is_waiting(facts.situation(fork.by)),
            None => false,
        },
        _ => false,
    }
}

// Whether a task is not forked yet, and its forker waits.
fn waits_before_fork(facts: &Facts, t: TaskId) -> bool
    ensures { result ≡ waits_before_fork facts.now t }
{
    is_behind_a_wait(facts, facts.situation(t), facts.fork(t))
}

// Appends where a task waits.
fn put_waits_at(facts: &Facts, out: &mut Vec<u8>, t: TaskId) -> Result<(), NoMemory>
    ensures { OnOk result (out.new.items ≡ out.old.items ++ waits_at_words facts.now t.0) }
{
    put_words(out, b"hint: ")?;
    facts.put_named(out, t)?;
    put_words(out, b" waits at ")?;
    facts.put_wait_place(out, t)
}

// Appends that who waits forks this task behind its wait.
fn put_before_fork(facts: &Facts, out: &mut Vec<u8>, t: TaskId) -> Result<(), NoMemory>
    ensures { OnOk result (out.new.items ≡ out.old.items ++ before_fork_words facts.now t.0) }
{
    put_words(out, b" before it forks ")?;
    facts.put_named(out, t)?;
    put_words(out, b" at ")?;
    facts.put_fork_place(out, t)?;
    put_words(out, b": let it fork first")
}

// Appends the hint on a task that is forked behind a wait.
fn put_fork_hint(facts: &Facts, out: &mut Vec<u8>, t: TaskId, fork: Forked) -> Result<(), NoMemory>
    ensures { OnOk result (out.new.items ≡ out.old.items ++ fork_hint facts.now t.0 fork) }
{
    put_waits_at(facts, out, fork.by)?;
    put_before_fork(facts, out, t)?;
    put_words(out, b"\n")
}

// Whether who waits so awaits a phase that it has not itself.
fn is_ahead_of_itself(wait: Option<&Waiting>) -> bool
    ensures { result ≡ is_ahead_of_itself (option_copied wait.entry) }
{
    match wait {
        Some(wait) => wait.phase < wait.event.n,
        None => false,
    }
}

// Whether a task is its own impeder.
fn waits_for_itself(facts: &Facts, t: TaskId) -> bool
    ensures { result ≡ waits_for_itself facts.now t }
{
    is_ahead_of_itself(facts.wait(t))
}

// Appends for which event a task waits.
fn put_for_event(facts: &Facts, out: &mut Vec<u8>, wait: &Waiting) -> Result<(), NoMemory>
    ensures { OnOk result (out.new.items ≡ out.old.items ++ for_event_words facts.now wait.now) }
{
    put_words(out, b" for phase ")?;
    put_number(facts.alloc(), out, wait.event.n as u64)?;
    put_words(out, b" of ")?;
    facts.put_named_phaser(out, wait.event.p)
}

// Appends which phase it has.
fn put_own_phase(alloc: Global, out: &mut Vec<u8>, wait: &Waiting) -> Result<(), NoMemory>
    ensures { OnOk result (out.new.items ≡ out.old.items ++ own_phase_words wait.now) }
{
    put_words(out, b", and has phase ")?;
    put_number(alloc, out, wait.phase as u64)?;
    put_words(out, b" itself: let it arrive first, or look less far ahead")
}

// Appends the hint on a task that waits so for itself.
fn put_itself_hint(
    facts: &Facts,
    out: &mut Vec<u8>,
    t: TaskId,
    wait: &Waiting,
) -> Result<(), NoMemory>
    ensures { OnOk result (out.new.items ≡ out.old.items ++ itself_hint facts.now t.0 wait.now) }
{
    put_waits_at(facts, out, t)?;
    put_for_event(facts, out, wait)?;
    put_own_phase(facts.alloc(), out, wait)?;
    put_words(out, b"\n")
}

// Appends what a task of a circle would have to do before it waits, where this one waits for it.
fn put_before(facts: &Facts, out: &mut Vec<u8>, waiter: TaskId, t: TaskId) -> Result<(), NoMemory>
    ensures { OnOk result (out.new.items ≡ out.old.items ++ before_words facts.now waiter t) }
{
    facts.put_named(out, t)?;
    put_words(out, b" at ")?;
    put_awaited_phaser(facts, out, waiter)?;
    put_words(out, b" before ")?;
    facts.put_wait_place(out, t)
}

// The task with this number in a list.
fn task_at(shown: &[TaskId], k: usize) -> Option<TaskId>
    ensures { result ≡ slice_get shown.now k }
{
    shown.get(k).copied()
}

// Appends the same of two tasks in a list, if they are there.
fn put_pair(
    facts: &Facts,
    out: &mut Vec<u8>,
    waiter: Option<TaskId>,
    t: Option<TaskId>,
) -> Result<(), NoMemory>
    ensures { OnOk result (out.new.items ≡ out.old.items ++ pair_words facts.now waiter t) }
{
    match waiter {
        Some(waiter) => match t {
            Some(t) => put_before(facts, out, waiter, t),
            None => Ok(()),
        },
        None => Ok(()),
    }
}

// Appends the same of the tasks with these numbers in a list.
fn put_pair_at(
    facts: &Facts,
    out: &mut Vec<u8>,
    shown: &[TaskId],
    waiter: usize,
    t: usize,
) -> Result<(), NoMemory>
    ensures { OnOk result (out.new.items ≡ out.old.items ++ pair_words facts.now (slice_get shown.now waiter) (slice_get shown.now t)) }
{
    put_pair(facts, out, task_at(shown, waiter), task_at(shown, t))
}

// Appends that the others of a circle of so many may do it too.
fn put_others(out: &mut Vec<u8>, count: usize) -> Result<(), NoMemory>
    ensures { OnOk result (out.new.items ≡ out.old.items ++ others_words count) }
{
    if count > 2 {
        return put_words(out, b", or another one likewise");
    }
    Ok(())
}

// Appends the hint on a circle of two or more.
fn put_circle_words(facts: &Facts, out: &mut Vec<u8>, shown: &[TaskId]) -> Result<(), NoMemory>
    requires { 0 < length shown.now }
    ensures { OnOk result (out.new.items ≡ out.old.items ++ circle_hint_words facts.now shown.now) }
{
    put_words(
        out,
        b"hint: one of them has to arrive, or leave, before it waits: ",
    )?;
    put_pair_at(facts, out, shown, shown.len() - 1, 0)?;
    put_words(out, b", or ")?;
    put_pair_at(facts, out, shown, 0, 1)?;
    put_others(out, shown.len())?;
    put_words(out, b"\n")
}

// Whether what a task does next is on this phaser.
fn is_there(next: NextOp, p: PhaserId) -> bool
    ensures { result ≡ (next.p.0 == p.0) }
{
    next.p.0 == p.0
}

// What of this is done first to a phaser.
fn next_there(nexts: &[NextOp], p: PhaserId) -> Option<NextOp>
    ensures { result ≡ find (λ (x : NextOp). x.p.0 == p.0) nexts.now }
{
    nexts.iter().copied().find(|next| is_there(*next, p))
}

// Whether a task does nothing any more to a phaser.
fn has_no_next(facts: &Facts, account: &Account, t: TaskId, p: PhaserId) -> bool
    requires account { facts.now.account ≡ account.now }
    ensures { result ≡ is_none (next_op_of facts.now t.0 p.0) }
{
    match account.tasks.as_slice().get(t.0 as usize) {
        Some(task) => next_there(task.nexts.as_slice(), p).is_none(),
        None => true,
    }
}

// Whether a task does nothing any more to the phaser that is awaited so.
fn is_done_with(facts: &Facts, account: &Account, t: TaskId, wait: Option<&Waiting>) -> bool
    requires account { facts.now.account ≡ account.now }
    ensures { result ≡ is_done_with facts.now t.0 (option_copied wait.entry) }
{
    match wait {
        Some(wait) => has_no_next(facts, account, t, wait.event.p),
        None => false,
    }
}

// Whether who waits so waits at a place of the text itself.
fn waits_in_text(wait: Option<&Waiting>) -> bool
    ensures { result ≡ waits_in_text (option_copied wait.entry) }
{
    match wait {
        Some(wait) => is_of_text(wait.at),
        None => false,
    }
}

// Whether a task waits at a place of the text itself, and does nothing any more to the phaser for which this one waits.
fn comes_no_more(facts: &Facts, account: &Account, waiter: TaskId, t: TaskId) -> bool
    requires account { facts.now.account ≡ account.now }
    ensures { result ≡ comes_no_more facts.now waiter t }
{
    waits_in_text(facts.wait(t)) && is_done_with(facts, account, t, facts.wait(waiter))
}

// The first of these tasks that comes no more to the phaser for which the one before it waits, with that one.
fn first_no_more(
    facts: &Facts,
    account: &Account,
    waiter: TaskId,
    shown: &[TaskId],
) -> Option<(TaskId, TaskId)>
    requires account { facts.now.account ≡ account.now }
    ensures { result ≡ first_no_more facts.now waiter shown.now }
{
    match shown {
        [] => None,
        [t, rest @ ..] => {
            if comes_no_more(facts, account, waiter, *t) {
                Some((waiter, *t))
            } else {
                first_no_more(facts, account, *t, rest)
            }
        }
    }
}

// The same, where the last one stands before the first, if there is one.
fn no_more_behind(
    facts: &Facts,
    account: &Account,
    last: Option<TaskId>,
    shown: &[TaskId],
) -> Option<(TaskId, TaskId)>
    requires account { facts.now.account ≡ account.now }
    ensures { result ≡ no_more_behind facts.now last shown.now }
{
    match last {
        Some(last) => first_no_more(facts, account, last, shown),
        None => None,
    }
}

// Appends the hint on a task that comes no more.
fn put_no_more(facts: &Facts, out: &mut Vec<u8>, waiter: TaskId, t: TaskId) -> Result<(), NoMemory>
    ensures { OnOk result (out.new.items ≡ out.old.items ++ no_more_hint facts.now waiter t) }
{
    put_words(out, b"hint: ")?;
    facts.put_named(out, t)?;
    put_words(out, b" has no adv of ")?;
    put_awaited_phaser(facts, out, waiter)?;
    put_words(
        out,
        b" any more: let it arrive there, or leave, before it waits at ",
    )?;
    facts.put_wait_place(out, t)?;
    put_words(out, b"\n")
}

// Appends the hint on a task that comes no more, if there is one, or else that on all of them.
fn put_no_more_or_circle(
    facts: &Facts,
    out: &mut Vec<u8>,
    shown: &[TaskId],
    gone: Option<(TaskId, TaskId)>,
) -> Result<(), NoMemory>
    requires { 0 < length shown.now }
    ensures { OnOk result (out.new.items ≡ out.old.items ++ no_more_or_circle facts.now shown.now gone) }
{
    match gone {
        Some((waiter, t)) => put_no_more(facts, out, waiter, t),
        None => put_circle_words(facts, out, shown),
    }
}

// Appends the hint on a circle.
fn put_circle_hint(
    facts: &Facts,
    account: &Account,
    out: &mut Vec<u8>,
    shown: &[TaskId],
) -> Result<(), NoMemory>
    requires account { facts.now.account ≡ account.now }
    ensures { OnOk result (out.new.items ≡ out.old.items ++ circle_hint facts.now shown.now) }
{
    if shown.len() < 2 {
        return Ok(());
    }
    let gone = no_more_behind(facts, account, task_at(shown, shown.len() - 1), shown);
    put_no_more_or_circle(facts, out, shown, gone)
}

// Appends the hint where this task waits for itself, if one does, and else that of the circle.
fn put_itself_or_circle(
    facts: &Facts,
    account: &Account,
    out: &mut Vec<u8>,
    shown: &[TaskId],
    itself: Option<TaskId>,
) -> Result<(), NoMemory>
    requires account { facts.now.account ≡ account.now }
    ensures { OnOk result (out.new.items ≡ out.old.items ++ itself_or_circle facts.now shown.now itself) }
{
    match itself {
        Some(t) => match facts.wait(t) {
            Some(wait) => put_itself_hint(facts, out, t, wait),
            None => Ok(()),
        },
        None => put_circle_hint(facts, account, out, shown),
    }
}

// The first of these tasks that is not forked yet, and whose forker waits.
fn first_behind_a_wait(facts: &Facts, shown: &[TaskId]) -> Option<TaskId>
    ensures { result ≡ find (waits_before_fork facts.now) shown.now }
{
    shown.iter().copied().find(|t| waits_before_fork(facts, *t))
}

// The first of these tasks that waits for itself.
fn first_for_itself(facts: &Facts, shown: &[TaskId]) -> Option<TaskId>
    ensures { result ≡ find (waits_for_itself facts.now) shown.now }
{
    shown.iter().copied().find(|t| waits_for_itself(facts, *t))
}

// Appends the hint where this task is not forked before its forker waits, if one is, and else that of the others.
fn put_fork_or_others(
    facts: &Facts,
    account: &Account,
    out: &mut Vec<u8>,
    shown: &[TaskId],
    late: Option<TaskId>,
) -> Result<(), NoMemory>
    requires account { facts.now.account ≡ account.now }
    ensures { OnOk result (out.new.items ≡ out.old.items ++ fork_or_others facts.now shown.now late) }
{
    match late {
        Some(t) => match facts.fork(t) {
            Some(fork) => put_fork_hint(facts, out, t, fork),
            None => Ok(()),
        },
        None => put_itself_or_circle(facts, account, out, shown, first_for_itself(facts, shown)),
    }
}

// Appends the hint where the walk closes in these tasks.
fn put_closed_hint(
    facts: &Facts,
    account: &Account,
    out: &mut Vec<u8>,
    shown: &[TaskId],
) -> Result<(), NoMemory>
    requires account { facts.now.account ≡ account.now }
    ensures { OnOk result (out.new.items ≡ out.old.items ++ closed_hint facts.now shown.now) }
{
    put_fork_or_others(
        facts,
        account,
        out,
        shown,
        first_behind_a_wait(facts, shown),
    )
}

/// Appends the line of the hint, if one fits.
pub(crate) fn put_hint(
    facts: &Facts,
    account: &Account,
    out: &mut Vec<u8>,
    world: &World,
    verdict: &WaitVerdict,
) -> Result<(), NoMemory>
    requires fits { FactsFitPlan facts.now world.now.plan }
    requires account { facts.now.account ≡ account.now }
    ensures { OnOk result (out.new.items ≡ out.old.items ++ verdict_hint facts.now (state_of world.now).phases verdict.now) }
{
    match verdict {
        WaitVerdict::Nobody => Ok(()),
        WaitVerdict::Circle(shown) => put_closed_hint(facts, account, out, shown.as_slice()),
        WaitVerdict::Chain(held, last) => {
            put_chain_hint(facts, out, world, *held, *last, facts.situation(*last))
        }
    }
}
