// The list, parted into those who may still stand in a closed set and those who stand in none.
ghost use Rattle.std.specs.Prelude.{◌≡◌, ◌==◌, ◌++◌, nat_eq, IfOk, filter, map, not};
ghost use Rattle.std.specs.HashSet.{contains};
ghost use Rattle.std.specs.List.{list_any};
ghost use Rattle.monitor_laws.specs.Faults.{waits_now};
ghost use Rattle.monitor_laws.specs.Lawful.{AreAscending};
ghost use Rattle.monitor_laws.specs.States.{is_live_task};
ghost use Rattle.monitor_laws.specs.Stuck.{has_phase_below};
ghost use Rattle.monitor_state.specs.Values.{condition_value};
ghost use Rattle.monitor_search.specs.Known.{known_task};
ghost use Rattle.monitor_search.specs.inside.Partings.{AreAllKept, IsParting, is_kept_by, plays_one_of, referred};

use crate::StuckTasks;
use crate::cascade::numbers_out;
use crate::phases::keepers_of;
use armus_base::NoMemory;
use monitor_state::{ListedParticipant, MonitorState};
use std::alloc::Global;
use std::collections::HashSet;

/// Those who may still stand in a closed set, in list order, and those who stand in none.
#[derive(Drop)]
pub(crate) struct Parting<'a> {
    pub(crate) inside: Vec<&'a ListedParticipant>,
    pub(crate) outside: Vec<&'a ListedParticipant>,
}

/// Whether u is a member of phaser p with a phase below n.
pub(crate) fn has_phase_below(u: &ListedParticipant, p: &[u8], n: u32) -> bool
    ensures { result ≡ has_phase_below u.now p.now n }
{
    match u.phase_on(p) {
        None => false,
        Some(m) => m < n,
    }
}

/// Whether the number is one of these.
pub(crate) fn is_among(tasks: &[u64], number: u64) -> bool
    ensures { result ≡ list_any (λ k. k == number) tasks.now }
{
    tasks.iter().any(|k| *k == number)
}

/// Whether one of these is a task that has not ended.
pub(crate) fn some_live(these: &[&ListedParticipant]) -> bool
    ensures { result ≡ list_any (λ u. is_live_task u.now.condition) these.now }
{
    these.iter().any(|u| u.condition().is_live_task())
}

// Parts those inside anew: whoever is kept by them stays.
fn part_anew<'a>(alloc: Global, parting: &Parting<'a>) -> Result<Parting<'a>, NoMemory>
    ensures inside { IfOk result (λ next. referred next.inside.items ≡ filter (λ u. is_kept_by (referred parting.now.inside.items) (referred parting.now.outside.items) u.condition) (referred parting.now.inside.items)) }
    ensures outside { IfOk result (λ next. referred next.outside.items ≡ referred parting.now.outside.items ++ filter (λ u. not (is_kept_by (referred parting.now.inside.items) (referred parting.now.outside.items) u.condition)) (referred parting.now.inside.items)) }
{
    let keepers = keepers_of(alloc, parting)?;
    let mut inside = Vec::new(alloc);
    let mut outside = Vec::from_slice(alloc, &parting.outside)?;
    for u in &parting.inside {
        if keepers.keep(u.condition()) {
            inside.push(*u)?;
        } else {
            outside.push(*u)?;
        }
    }
    Ok(Parting { inside, outside })
}

// Those of the list whose numbers are not among these.
fn those_not_among<'a>(
    alloc: Global,
    list: &'a [ListedParticipant],
    numbers: &HashSet<u64>,
) -> Result<Vec<&'a ListedParticipant>, NoMemory>
    ensures { IfOk result (λ those. referred those.items ≡ filter (λ u. not (contains nat_eq numbers.now u.number)) list.now) }
{
    let mut those = Vec::new(alloc);
    for u in list {
        if !numbers.contains(&u.number()) {
            those.push(u)?;
        }
    }
    Ok(those)
}

// Those of the list whose numbers are among these.
fn those_among<'a>(
    alloc: Global,
    list: &'a [ListedParticipant],
    numbers: &HashSet<u64>,
) -> Result<Vec<&'a ListedParticipant>, NoMemory>
    ensures { IfOk result (λ those. referred those.items ≡ filter (λ u. contains nat_eq numbers.now u.number) list.now) }
{
    let mut those = Vec::new(alloc);
    for u in list {
        if numbers.contains(&u.number()) {
            those.push(u)?;
        }
    }
    Ok(those)
}

// The list of a state, parted by whom it is seen at once that they stand in no closed set.
fn first_parting(alloc: Global, state: &MonitorState) -> Result<Parting<'_>, NoMemory>
    ensures { IfOk result (λ parting. IsParting state.now (referred parting.inside.items) (referred parting.outside.items)) }
{
    let numbers = numbers_out(alloc, state)?;
    let list = state.participants();
    let inside = those_not_among(alloc, list, &numbers)?;
    let outside = those_among(alloc, list, &numbers)?;
    Ok(Parting { inside, outside })
}

/// The list of a state, parted so that those inside keep each of them.
pub(crate) fn closed_parting(alloc: Global, state: &MonitorState) -> Result<Parting<'_>, NoMemory>
    ensures parting { IfOk result (λ parting. IsParting state.now (referred parting.inside.items) (referred parting.outside.items)) }
    ensures closed { IfOk result (λ parting. AreAllKept (referred parting.inside.items) (referred parting.outside.items)) }
{
    let mut parting = first_parting(alloc, state)?;
    loop {
        let next = part_anew(alloc, &parting)?;
        if next.inside.len() == parting.inside.len() {
            return Ok(parting);
        }
        parting = next;
    }
}

/// The waiting tasks of these, who stand in list order.
pub(crate) fn waiting_of(
    alloc: Global,
    these: &[&ListedParticipant],
) -> Result<StuckTasks, NoMemory>
    requires { AreAscending (referred these.now) }
    ensures { IfOk result (λ known. known ≡ map known_task (filter (λ u. waits_now u.condition) (referred these.now))) }
{
    let mut known = StuckTasks::none(alloc);
    for u in these {
        if u.condition().waits() {
            known.push(alloc, u)?;
        }
    }
    Ok(known)
}
