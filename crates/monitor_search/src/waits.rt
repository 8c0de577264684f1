// A wait by which its task does not come into a closed set, or comes into one alone.
ghost use Rattle.std.specs.Prelude.{◌≡◌, ◌&&◌, ◌==◌, false};
ghost use Rattle.std.specs.List.{list_any};
ghost use Rattle.monitor_state.specs.Values.{condition_value};
ghost use Rattle.monitor_search.specs.inside.Leaving.{passes_below, passes_numbered};
ghost use Rattle.monitor_search.specs.inside.Waits.{NobodyAwaits, is_inside_below, is_unstuck, is_unstuck_of, may_stand_inside, needs_in, needs_other, waits_inside, waits_unneeded, was_outside};

use crate::StuckTasks;
use crate::leaving::{somebody_runs, somebody_runs_of};
use crate::numbered::numbered;
use crate::parting::{has_phase_below, is_among};
use monitor_state::{ListedCondition, ListedParticipant, MonitorState};
use std::collections::BTreeSet;

// Whether u is a task that has not ended and was not stuck.
fn is_unstuck(was: &StuckTasks, u: &ListedParticipant) -> bool
    ensures { result ≡ is_unstuck was.now u.now }
{
    u.condition().is_live_task() && !was.has_number(u.number())
}

// Whether the task with this number is such a task.
fn is_unstuck_number(state: &MonitorState, was: &StuckTasks, k: u64) -> bool
    ensures { result ≡ list_any (λ u. is_unstuck was.now u && u.number == k) state.now.list }
{
    match numbered(state, k) {
        None => false,
        Some(u) => is_unstuck(was, u),
    }
}

// Whether somebody of the list is such a task with one of these numbers.
fn some_unstuck_of(state: &MonitorState, was: &StuckTasks, tasks: &[u64]) -> bool
    ensures { result ≡ list_any (is_unstuck_of was.now tasks.now) state.now.list }
{
    for k in tasks {
        if is_unstuck_number(state, was, *k) {
            return true;
        }
    }
    false
}

// Whether who has this number and is in this condition stood in no closed set, and is not the task with number k.
fn was_outside(
    state: &MonitorState,
    was: &StuckTasks,
    k: u64,
    number: u64,
    condition: &ListedCondition,
) -> bool
    ensures { result ≡ was_outside state.now.list was.now k number (condition_value condition.now) }
{
    match condition {
        ListedCondition::Running => true,
        ListedCondition::Waiting(_, _) => !(was.has_number(number) || number == k),
        ListedCondition::Ended => false,
        ListedCondition::AnyTask => somebody_runs(state.participants()),
        ListedCondition::OneOf(_, tasks) => some_unstuck_of(state, was, tasks),
    }
}

// Whether who has this number may have stood in a closed set, or is the task with number k.
fn is_inside_number(state: &MonitorState, was: &StuckTasks, k: u64, number: u64) -> bool
    ensures { result ≡ passes_numbered (may_stand_inside state.now.list was.now k) state.now.list number }
{
    match numbered(state, number) {
        None => false,
        Some(v) => !was_outside(state, was, k, v.number(), v.condition()),
    }
}

// Whether a phase below n stands among these with the number of somebody who may have stood in a closed set, or of the task with number k.
fn some_inside_at(
    state: &MonitorState,
    was: &StuckTasks,
    k: u64,
    pairs: &BTreeSet<(u32, u64)>,
    n: u32,
) -> bool
    ensures { result ≡ passes_below (passes_numbered (may_stand_inside state.now.list was.now k) state.now.list) n pairs.now.keys }
{
    for pair in pairs {
        if n <= pair.0 {
            return false;
        }
        if is_inside_number(state, was, k, pair.1) {
            return true;
        }
    }
    false
}

// Whether such a one is a member of phaser p with a phase below n.
fn some_inside_below(state: &MonitorState, was: &StuckTasks, k: u64, p: &[u8], n: u32) -> bool
    ensures { result ≡ list_any (is_inside_below state.now.list was.now k p.now n) state.now.list }
{
    match state.index().resting_at(p) {
        None => false,
        Some(pairs) => some_inside_at(state, was, k, pairs, n),
    }
}

// Whether who has this number and is in this condition was not stuck, and may come into a closed set because u does.
fn needs_in(
    state: &MonitorState,
    was: &StuckTasks,
    u: &ListedParticipant,
    number: u64,
    condition: &ListedCondition,
) -> bool
    ensures { result ≡ needs_in state.now.list was.now u.now number (condition_value condition.now) }
{
    match condition {
        ListedCondition::Running | ListedCondition::Ended => false,
        ListedCondition::Waiting(q, m) => has_phase_below(u, q, *m) && !was.has_number(number),
        ListedCondition::AnyTask => !somebody_runs(state.participants()),
        ListedCondition::OneOf(_, tasks) => {
            is_among(tasks, u.number()) && !somebody_runs_of(state, tasks)
        }
    }
}

// Whether v is somebody else who needs u.
fn needs_other(
    state: &MonitorState,
    was: &StuckTasks,
    u: &ListedParticipant,
    v: &ListedParticipant,
) -> bool
    ensures { result ≡ needs_other state.now.list was.now u.now v.now }
{
    v.number() != u.number() && needs_in(state, was, u, v.number(), v.condition())
}

// Whether somebody waits for u.
fn is_awaited(state: &MonitorState, u: &ListedParticipant) -> bool
    ensures { result ≡ false → NobodyAwaits state.now.list u.now.phases }
{
    let index = state.index();
    for membership in u.memberships().as_slice() {
        if index.is_awaited_above(membership.phaser(), membership.phase()) {
            return true;
        }
    }
    false
}

// Whether somebody else of the list needs u.
fn is_needed(state: &MonitorState, was: &StuckTasks, u: &ListedParticipant) -> bool
    ensures { result ≡ list_any (needs_other state.now.list was.now u.now) state.now.list }
{
    if !is_awaited(state, u) && !state.has_wildcards() {
        return false;
    }
    state
        .participants()
        .iter()
        .any(|v| needs_other(state, was, u, v))
}

/// Whether u waits for nobody who may have stood in a closed set, and nobody else needs it.
pub(crate) fn waits_unneeded(state: &MonitorState, was: &StuckTasks, u: &ListedParticipant) -> bool
    ensures { result ≡ waits_unneeded state.now.list was.now u.now u.now.condition }
{
    match u.condition() {
        ListedCondition::Waiting(p, n) => {
            !some_inside_below(state, was, u.number(), p, *n) && !is_needed(state, was, u)
        }
        ListedCondition::Running
        | ListedCondition::Ended
        | ListedCondition::AnyTask
        | ListedCondition::OneOf(_, _) => false,
    }
}

/// Whether u waits for somebody who may have stood in a closed set, or for itself, and nobody else needs it.
pub(crate) fn waits_inside(state: &MonitorState, was: &StuckTasks, u: &ListedParticipant) -> bool
    ensures { result ≡ waits_inside state.now.list was.now u.now u.now.condition }
{
    match u.condition() {
        ListedCondition::Waiting(p, n) => {
            some_inside_below(state, was, u.number(), p, *n) && !is_needed(state, was, u)
        }
        ListedCondition::Running
        | ListedCondition::Ended
        | ListedCondition::AnyTask
        | ListedCondition::OneOf(_, _) => false,
    }
}
