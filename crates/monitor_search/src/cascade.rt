// Taking out one after the other who stands in no closed set.
ghost use Rattle.std.specs.Prelude.{◌≡◌, ◌&&◌, ◌||◌, ℕ, true, not, Contains, IfOk, OnOk, nat_eq};
ghost use Rattle.std.specs.HashSet.{contains};
ghost use Rattle.std.specs.List.{list_any};
ghost use Rattle.monitor_laws.specs.States.{Participant as Listed};
ghost use Rattle.monitor_laws.specs.Stuck.{has_phase_below, is_phase_below};
ghost use Rattle.monitor_state.specs.Values.{condition_value};
ghost use Rattle.monitor_search.specs.inside.Leaving.{is_freed};
ghost use Rattle.monitor_search.specs.inside.Cascades.{AreOfList, AreOut, HasLiveOut, HaveMembers, IsFreeWait, IsLeastInside, IsOut, IsPlayedOut, named_group};
ghost use Rattle.monitor_search.specs.inside.Partings.{referred};

use crate::grouping::{PhaserTable, phaser_table};
use crate::leaving::{lives_with_number, somebody_runs};
use crate::noting::{phasers_of, waited_phasers, wildcard_places};
use armus_base::NoMemory;
use monitor_state::{ListedCondition, ListedParticipant, MonitorState};
use std::alloc::Global;
use std::collections::{HashMap, HashSet};

// The lesser of two phases.
fn lesser_phase(one: Option<u32>, other: Option<u32>) -> Option<u32>
    ensures { (n : ℕ) → is_phase_below result n ≡ (is_phase_below one n || is_phase_below other n) }
{
    match (one, other) {
        (Some(m), Some(k)) => Some(m.min(k)),
        (Some(m), None) => Some(m),
        (None, k) => k,
    }
}

// The phase of u on phaser p, where its number is not out.
fn phase_inside(u: &ListedParticipant, p: &[u8], out: &HashSet<u64>) -> Option<u32>
    ensures { (n : ℕ) → is_phase_below result n ≡ (not (contains nat_eq out.now u.now.number) && has_phase_below u.now p.now n) }
{
    if out.contains(&u.number()) {
        return None;
    }
    u.phase_on(p)
}

// The least phase on phaser p of those of these whose numbers are not out.
fn least_inside(these: &[&ListedParticipant], p: &[u8], out: &HashSet<u64>) -> Option<u32>
    ensures { (n : ℕ) → is_phase_below result n ≡ list_any (λ u. not (contains nat_eq out.now u.number) && has_phase_below u p.now n) (referred these.now) }
{
    let mut least = None;
    for u in these {
        least = lesser_phase(least, phase_inside(*u, p, out));
    }
    least
}

// Whether the phase is below n.
fn is_below(phase: Option<u32>, n: u32) -> bool
    ensures { result ≡ is_phase_below phase n }
{
    match phase {
        None => false,
        Some(m) => m < n,
    }
}

// Whether t waits at phaser p for a phase that is not above the least one.
fn is_free_wait(t: &ListedParticipant, p: &[u8], least: Option<u32>) -> bool
    ensures { result ≡ true → IsFreeWait t.now p.now least }
{
    match t.condition() {
        ListedCondition::Waiting(q, n) => q.as_slice() == p && !is_below(least, *n),
        _ => false,
    }
}

// The least phase on phaser p of its members whose numbers are not out.
fn least_on<'a>(
    members: &HashMap<&'a [u8], Vec<&'a ListedParticipant>>,
    p: &[u8],
    out: &HashSet<u64>,
) -> Option<u32>
    ensures { (n : ℕ) → is_phase_below result n ≡ list_any (λ u. not (contains nat_eq out.now u.number) && has_phase_below u p.now n) (named_group members.now p.now) }
{
    match members.get(p) {
        None => None,
        Some(group) => least_inside(group, p, out),
    }
}

// Takes out t, which stands in no closed set; who is taken out first now is fresh.
fn take_out<'a>(
    state: &MonitorState,
    t: &'a ListedParticipant,
    out: &mut HashSet<u64>,
    fresh: &mut Vec<&'a ListedParticipant>,
) -> Result<(), NoMemory>
    requires alone { IsOut state.now t.now }
    requires out { AreOut state.now (contains nat_eq out.old) }
    ensures { OnOk result (AreOut state.now (contains nat_eq out.new)) }
{
    if out.insert(t.number())? {
        fresh.push(t)?;
    }
    Ok(())
}

// Takes out those of these who wait at phaser p for a phase that is not above the least one.
fn free_waiting<'a>(
    state: &MonitorState,
    these: &[&'a ListedParticipant],
    p: &[u8],
    least: Option<u32>,
    out: &mut HashSet<u64>,
    fresh: &mut Vec<&'a ListedParticipant>,
) -> Result<(), NoMemory>
    requires listed { (u : Listed) → Contains (referred these.now) u → Contains state.now.list u }
    requires least { IsLeastInside state.now p.now least }
    requires out { AreOut state.now (contains nat_eq out.old) }
    ensures { OnOk result (AreOut state.now (contains nat_eq out.new)) }
{
    for t in these {
        if is_free_wait(t, p, least) {
            take_out(state, *t, out, fresh)?;
        }
    }
    Ok(())
}

// Takes out whoever waits at phaser p and is kept by nobody who is not out.
fn free_at<'a>(
    state: &MonitorState,
    table: &PhaserTable<'a>,
    p: &[u8],
    out: &mut HashSet<u64>,
    fresh: &mut Vec<&'a ListedParticipant>,
) -> Result<(), NoMemory>
    requires members { HaveMembers state.now.list (named_group table.now.members) }
    requires waiting { AreOfList state.now.list (named_group table.now.waiting) }
    requires out { AreOut state.now (contains nat_eq out.old) }
    ensures { OnOk result (AreOut state.now (contains nat_eq out.new)) }
{
    match table.waiting.get(p) {
        None => Ok(()),
        Some(group) => {
            let least = least_on(&table.members, p, out);
            free_waiting(state, group, p, least, out, fresh)
        }
    }
}

// Takes out whoever waits at one of these phasers and is kept by nobody who is not out; tells whom.
fn free_at_all<'a>(
    alloc: Global,
    state: &MonitorState,
    table: &PhaserTable<'a>,
    phasers: &[&[u8]],
    out: &mut HashSet<u64>,
) -> Result<Vec<&'a ListedParticipant>, NoMemory>
    requires members { HaveMembers state.now.list (named_group table.now.members) }
    requires waiting { AreOfList state.now.list (named_group table.now.waiting) }
    requires out { AreOut state.now (contains nat_eq out.old) }
    ensures { OnOk result (AreOut state.now (contains nat_eq out.new)) }
{
    let mut fresh = Vec::new(alloc);
    for p in phasers {
        free_at(state, table, *p, out, &mut fresh)?;
    }
    Ok(fresh)
}

// Whether who is in this condition runs, or is a wildcard that any task may play where somebody runs.
fn is_freed_at_once(list: &[ListedParticipant], condition: &ListedCondition) -> bool
    ensures { result ≡ true → is_freed list.now (condition_value condition.now) ≡ true }
{
    match condition {
        ListedCondition::Running => true,
        ListedCondition::AnyTask => somebody_runs(list),
        _ => false,
    }
}

// Takes out whoever runs, and the wildcards that any task may play where somebody runs.
fn free_runners(alloc: Global, state: &MonitorState, out: &mut HashSet<u64>) -> Result<(), NoMemory>
    requires out { AreOut state.now (contains nat_eq out.old) }
    ensures { OnOk result (AreOut state.now (contains nat_eq out.new)) }
{
    let list = state.participants();
    let mut fresh = Vec::new(alloc);
    for u in list {
        if is_freed_at_once(list, u.condition()) {
            take_out(state, u, out, &mut fresh)?;
        }
    }
    Ok(())
}

// Whether one of these numbers is out, and is that of a task of the list that has not ended.
fn some_live_out(state: &MonitorState, tasks: &[u64], out: &HashSet<u64>) -> bool
    ensures { result ≡ true → HasLiveOut state.now.list tasks.now (contains nat_eq out.now) }
{
    for k in tasks {
        if out.contains(k) && lives_with_number(state, *k) {
            return true;
        }
    }
    false
}

// Whether who is in this condition is a wildcard of which one is out who may play it.
fn is_played_out(state: &MonitorState, condition: &ListedCondition, out: &HashSet<u64>) -> bool
    ensures { result ≡ true → IsPlayedOut state.now.list (condition_value condition.now) (contains nat_eq out.now) }
{
    match condition {
        ListedCondition::OneOf(_, tasks) => some_live_out(state, tasks, out),
        _ => false,
    }
}

// Takes out u, where it is a wildcard of which one is out who may play it.
fn free_played<'a>(
    state: &MonitorState,
    u: &'a ListedParticipant,
    out: &mut HashSet<u64>,
    fresh: &mut Vec<&'a ListedParticipant>,
) -> Result<(), NoMemory>
    requires listed { Contains state.now.list u.now }
    requires out { AreOut state.now (contains nat_eq out.old) }
    ensures { OnOk result (AreOut state.now (contains nat_eq out.new)) }
{
    if is_played_out(state, u.condition(), out) {
        take_out(state, u, out, fresh)?;
    }
    Ok(())
}

// Takes out the wildcards of which one is out who may play them.
fn free_all_played<'a>(
    alloc: Global,
    state: &'a MonitorState,
    out: &mut HashSet<u64>,
) -> Result<(), NoMemory>
    requires out { AreOut state.now (contains nat_eq out.old) }
    ensures { OnOk result (AreOut state.now (contains nat_eq out.new)) }
{
    let mut fresh = Vec::new(alloc);
    for u in state.participants() {
        free_played(state, u, out, &mut fresh)?;
    }
    Ok(())
}

// Takes out the wildcards at these places of the list of which one is out who may play them.
fn free_played_at<'a>(
    state: &'a MonitorState,
    places: &[usize],
    out: &mut HashSet<u64>,
    fresh: &mut Vec<&'a ListedParticipant>,
) -> Result<(), NoMemory>
    requires out { AreOut state.now (contains nat_eq out.old) }
    ensures { OnOk result (AreOut state.now (contains nat_eq out.new)) }
{
    let list = state.participants();
    for place in places {
        if *place < list.len() {
            free_played(state, &list[*place], out, fresh)?;
        }
    }
    Ok(())
}

// Takes out the wildcards that these may play, where one is out who may play them; tells which.
fn free_played_by<'a>(
    alloc: Global,
    state: &'a MonitorState,
    wildcards: &HashMap<u64, Vec<usize>>,
    these: &[&'a ListedParticipant],
    out: &mut HashSet<u64>,
) -> Result<Vec<&'a ListedParticipant>, NoMemory>
    requires out { AreOut state.now (contains nat_eq out.old) }
    ensures { OnOk result (AreOut state.now (contains nat_eq out.new)) }
{
    let mut fresh = Vec::new(alloc);
    for u in these {
        if let Some(places) = wildcards.get(&u.number()) {
            free_played_at(state, places, out, &mut fresh)?;
        }
    }
    Ok(fresh)
}

/// Numbers of tasks and wildcards that stand in no closed set: of those who run, and of whoever is kept by nobody but such.
pub(crate) fn numbers_out(alloc: Global, state: &MonitorState) -> Result<HashSet<u64>, NoMemory>
    ensures { IfOk result (λ out. AreOut state.now (contains nat_eq out)) }
{
    let list = state.participants();
    let table = phaser_table(alloc, list)?;
    let wildcards = wildcard_places(alloc, list)?;
    let mut out = HashSet::new(alloc);
    free_runners(alloc, state, &mut out)?;
    free_all_played(alloc, state, &mut out)?;
    let mut phasers = waited_phasers(alloc, &table.waiting)?;
    for _ in 0..list.len() {
        let fresh = free_at_all(alloc, state, &table, &phasers, &mut out)?;
        if fresh.is_empty() {
            return Ok(out);
        }
        let played = free_played_by(alloc, state, &wildcards, &fresh, &mut out)?;
        phasers = phasers_of(alloc, &fresh, &played)?;
    }
    Ok(out)
}
