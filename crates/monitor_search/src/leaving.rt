// Lines by which nobody becomes stuck and nobody is stuck no longer.
ghost use Rattle.std.specs.Prelude.{◌≡◌, ◌&&◌, ◌==◌, true, not};
ghost use Rattle.std.specs.List.{list_any};
ghost use Rattle.trace_lines.specs.Values.{line_value};
ghost use Rattle.monitor_state.specs.Values.{condition_value};
ghost use Rattle.monitor_search.specs.Known.{KeepsStuck};
ghost use Rattle.monitor_search.specs.inside.Cascades.{HasLiveNumber};
ghost use Rattle.monitor_search.specs.inside.Keeping.{LeavesStuck, LeavesStuckBy, StaysOut};
ghost use Rattle.monitor_search.specs.inside.Leaving.{HasNoPhase, asks_for_ended, ends_quietly, frees_nobody, has_ended_as, is_for_any, is_freed, is_surely_out, is_unfreed, is_unfreed_below, lives_with_number, passes_below, passes_numbered, runs_as_one_of, runs_beside, runs_now};

use crate::StuckTasks;
use crate::numbered::numbered;
use crate::waits::waits_unneeded;
use monitor_state::{ListedCondition, ListedParticipant, MonitorState};
use std::collections::BTreeSet;
use trace_lines::TraceLine;

// Whether it is of a task that runs.
fn runs_now(condition: &ListedCondition) -> bool
    ensures { result ≡ runs_now (condition_value condition.now) }
{
    matches!(condition, ListedCondition::Running)
}

// Whether it is of a wildcard that any task may play.
fn is_for_any(condition: &ListedCondition) -> bool
    ensures { result ≡ is_for_any (condition_value condition.now) }
{
    matches!(condition, ListedCondition::AnyTask)
}

/// Whether a task of the list runs.
pub(crate) fn somebody_runs(list: &[ListedParticipant]) -> bool
    ensures { result ≡ list_any (λ u. runs_now u.condition) list.now }
{
    list.iter().any(|u| runs_now(u.condition()))
}

// Whether the task with this number runs.
fn runs_with_number(state: &MonitorState, k: u64) -> bool
    ensures { result ≡ list_any (λ u. runs_now u.condition && u.number == k) state.now.list }
{
    match numbered(state, k) {
        None => false,
        Some(u) => runs_now(u.condition()),
    }
}

/// Whether a task of the list with one of these numbers runs.
pub(crate) fn somebody_runs_of(state: &MonitorState, tasks: &[u64]) -> bool
    ensures { result ≡ list_any (runs_as_one_of tasks.now) state.now.list }
{
    for k in tasks {
        if runs_with_number(state, *k) {
            return true;
        }
    }
    false
}

/// Whether who is in this condition runs, or is a wildcard that somebody who runs may play.
#[tactic(auto, unfolding(crate::specs::inside::Leaving::is_freed))]
pub(crate) fn is_freed(state: &MonitorState, condition: &ListedCondition) -> bool
    ensures { result ≡ is_freed state.now.list (condition_value condition.now) }
{
    match condition {
        ListedCondition::Running => true,
        ListedCondition::Waiting(_, _) | ListedCondition::Ended => false,
        ListedCondition::AnyTask => somebody_runs(state.participants()),
        ListedCondition::OneOf(_, tasks) => somebody_runs_of(state, tasks),
    }
}

// Whether u has ended with the name t.
fn has_ended_as(u: &ListedParticipant, t: &[u8]) -> bool
    ensures { result ≡ has_ended_as t.now u.now }
{
    matches!(u.condition(), ListedCondition::Ended) && t == u.name()
}

// Whether who has this number is not freed.
fn is_unfreed_number(state: &MonitorState, k: u64) -> bool
    ensures { result ≡ passes_numbered (is_unfreed state.now.list) state.now.list k }
{
    match numbered(state, k) {
        None => false,
        Some(u) => !is_freed(state, u.condition()),
    }
}

// Whether a phase below n stands among these with the number of somebody who is not freed.
fn some_unfreed_at(state: &MonitorState, pairs: &BTreeSet<(u32, u64)>, n: u32) -> bool
    ensures { result ≡ passes_below (passes_numbered (is_unfreed state.now.list) state.now.list) n pairs.now.keys }
{
    for pair in pairs {
        if n <= pair.0 {
            return false;
        }
        if is_unfreed_number(state, pair.1) {
            return true;
        }
    }
    false
}

// Whether somebody who is not freed is a member of phaser p with a phase below n.
fn some_unfreed_below(state: &MonitorState, p: &[u8], n: u32) -> bool
    ensures { result ≡ list_any (is_unfreed_below state.now.list p.now n) state.now.list }
{
    match state.index().resting_at(p) {
        None => false,
        Some(pairs) => some_unfreed_at(state, pairs, n),
    }
}

// Whether who is in this condition is freed, or waits and all who keep it waiting are freed.
fn is_surely_out(state: &MonitorState, condition: &ListedCondition) -> bool
    ensures { result ≡ is_surely_out state.now.list (condition_value condition.now) }
{
    match condition {
        ListedCondition::Running => true,
        ListedCondition::Waiting(p, n) => !some_unfreed_below(state, p, *n),
        ListedCondition::Ended => false,
        ListedCondition::AnyTask => somebody_runs(state.participants()),
        ListedCondition::OneOf(_, tasks) => somebody_runs_of(state, tasks),
    }
}

// Whether any task may play a wildcard of the list.
fn some_for_any(state: &MonitorState) -> bool
    ensures { result ≡ list_any (λ u. is_for_any u.condition) state.now.list }
{
    if !state.has_wildcards() {
        return false;
    }
    state
        .participants()
        .iter()
        .any(|u| is_for_any(u.condition()))
}

/// Whether the task with this number is in the list and has not ended.
pub(crate) fn lives_with_number(state: &MonitorState, k: u64) -> bool
    ensures lives { result ≡ lives_with_number state.now.list k }
    ensures has { result ≡ true → HasLiveNumber state.now.list k }
{
    match numbered(state, k) {
        None => false,
        Some(u) => u.condition().is_live_task(),
    }
}

// Whether one of these is the number of no task that lives.
fn some_ended_of(state: &MonitorState, tasks: &[u64]) -> bool
    ensures { result ≡ list_any (λ k. not (lives_with_number state.now.list k)) tasks.now }
{
    for k in tasks {
        if !lives_with_number(state, *k) {
            return true;
        }
    }
    false
}

// Whether it is of a wildcard that some tasks may play, of whom not all live.
fn asks_for_ended(state: &MonitorState, condition: &ListedCondition) -> bool
    ensures { result ≡ asks_for_ended state.now.list (condition_value condition.now) }
{
    match condition {
        ListedCondition::OneOf(_, tasks) => some_ended_of(state, tasks),
        ListedCondition::Running
        | ListedCondition::Waiting(_, _)
        | ListedCondition::Ended
        | ListedCondition::AnyTask => false,
    }
}

// Whether there is such a wildcard in the list.
fn some_asks_for_ended(state: &MonitorState) -> bool
    ensures { result ≡ list_any (λ v. asks_for_ended state.now.list v.condition) state.now.list }
{
    if !state.has_wildcards() {
        return false;
    }
    state
        .participants()
        .iter()
        .any(|v| asks_for_ended(state, v.condition()))
}

// Whether a task of the list that has another number runs.
fn somebody_runs_beside(list: &[ListedParticipant], number: u64) -> bool
    ensures { result ≡ list_any (runs_beside number) list.now }
{
    list.iter()
        .any(|u| runs_now(u.condition()) && u.number() != number)
}

// Whether u frees nobody: it is no new task among stuck tasks and wildcards that nobody else who runs may play.
fn frees_nobody(state: &MonitorState, was: &StuckTasks, u: &ListedParticipant) -> bool
    ensures { result ≡ frees_nobody state.now.list was.now u.now }
{
    let list = state.participants();
    u.condition().is_live_wildcard()
        || was.is_empty()
        || !some_for_any(state)
        || somebody_runs_beside(list, u.number())
}

// Whether u stands in no closed set: it is freed or waits for those who are, or it waits unneeded for those who stood in none.
fn stays_out(state: &MonitorState, was: &StuckTasks, u: &ListedParticipant) -> bool
    ensures { result ≡ true → StaysOut state.now.list was.now u.now }
{
    if is_surely_out(state, u.condition()) {
        return true;
    }
    waits_unneeded(state, was, u)
}

// Whether u was not stuck, stands in no closed set now, and frees nobody.
fn leaves_stuck(state: &MonitorState, was: &StuckTasks, u: &ListedParticipant) -> bool
    ensures { result ≡ true → LeavesStuck state.now.list was.now u.now }
{
    if was.has_number(u.number()) || !frees_nobody(state, was, u) {
        return false;
    }
    stays_out(state, was, u)
}

// Whether somebody of the list has ended with the name t.
fn some_ended_as(list: &[ListedParticipant], t: &[u8]) -> bool
    ensures { result ≡ list_any (has_ended_as t.now) list.now }
{
    list.iter().any(|u| has_ended_as(u, t))
}

// Whether nobody was stuck, nobody has ended with the name t, each wildcard of some tasks asks for such as live, and somebody runs, or none is for any task.
fn ends_quietly(state: &MonitorState, was: &StuckTasks, t: &[u8]) -> bool
    ensures { result ≡ ends_quietly state.now.list was.now t.now }
{
    let list = state.participants();
    if !was.is_empty() || some_ended_as(list, t) || some_asks_for_ended(state) {
        return false;
    }
    somebody_runs(list) || !some_for_any(state)
}

// Whether after a line of t surely the same are stuck as before it.
fn leaves_stuck_by(state: &MonitorState, was: &StuckTasks, t: &[u8]) -> bool
    ensures { result ≡ true → LeavesStuckBy state.now.list was.now t.now }
{
    match state.participant_there(t) {
        None => ends_quietly(state, was, t),
        Some(u) => leaves_stuck(state, was, u),
    }
}

// Whether who is there with the name w is a member of nothing.
fn has_no_phase(state: &MonitorState, w: &[u8]) -> bool
    ensures { result ≡ true → HasNoPhase state.now.list w.now }
{
    match state.participant_there(w) {
        None => false,
        Some(u) => u.memberships().len() == 0,
    }
}

/// Whether after this line surely the same are stuck as before it.
pub(crate) fn keeps_stuck(state: &MonitorState, line: &TraceLine, was: &StuckTasks) -> bool
    ensures { result ≡ true → KeepsStuck state.now (line_value line.now) was.now }
{
    match line {
        TraceLine::SaysNothing | TraceLine::AsksReport | TraceLine::AsksList => true,
        TraceLine::AreGone(_) => false,
        TraceLine::Announces(t, _, _) => leaves_stuck_by(state, was, t),
        TraceLine::PlaysAny(w) => has_no_phase(state, w),
        TraceLine::PlaysOneOf(w, _) => has_no_phase(state, w),
    }
}
