// Who is kept by some tasks and wildcards, looked up by the names of phasers.
ghost use Rattle.std.specs.Prelude.{◌≡◌, ◌&&◌, ◌==◌, ℕ, List, Some, IfOk, OnOk, bytes_eq, nat_eq, if◌then◌else◌};
ghost use Rattle.std.specs.HashSet.{contains};
ghost use Rattle.std.specs.List.{list_any};
ghost use Rattle.monitor_laws.specs.States.{Condition as Stands, is_live_task};
ghost use Rattle.monitor_laws.specs.Stuck.{has_phase_below};
ghost use Rattle.monitor_state.specs.Values.{condition_value};
ghost use Rattle.monitor_search.specs.inside.LeastPhases.{is_least_below, keeps_condition, least_of, noted_phase, noted_phases};
ghost use Rattle.monitor_search.specs.inside.Partings.{is_kept_by, referred};

use crate::parting::{Parting, some_live};
use armus_base::NoMemory;
use monitor_state::{ListedCondition, ListedParticipant};
use std::alloc::Global;
use std::collections::{HashMap, HashSet};

/// The least phase on a phaser, and the place of the last one who was noted.
#[derive(Clone, Copy, Debug)]
pub(crate) struct LeastPhase {
    phase: u32,
    last: usize,
}

/// What tells who is kept: the least phases of those inside, whether a task that has not ended is outside, and the numbers of these.
#[derive(Drop)]
pub(crate) struct Keepers<'a> {
    least: HashMap<&'a [u8], LeastPhase>,
    live_outside: bool,
    numbers: HashSet<u64>,
}

// What is kept of a phaser with phase m of who stands at this place.
fn noted_phase(known: Option<LeastPhase>, m: u32, who: usize) -> LeastPhase
    ensures { Some result ≡ noted_phase known m who }
{
    match known {
        None => LeastPhase {
            phase: m,
            last: who,
        },
        Some(k) => {
            if k.last == who {
                k
            } else {
                LeastPhase {
                    phase: k.phase.min(m),
                    last: who,
                }
            }
        }
    }
}

// Notes the phase m on phaser p of who stands at this place.
fn note_phase<'a>(
    least: &mut HashMap<&'a [u8], LeastPhase>,
    p: &'a [u8],
    m: u32,
    who: usize,
) -> Result<(), NoMemory>
    ensures { OnOk result ((q : List ℕ) → least_of least.new q ≡ (if bytes_eq q p.now then noted_phase (least_of least.old q) m who else least_of least.old q)) }
{
    let known = least.get(p).copied();
    let noted = noted_phase(known, m, who);
    least.insert(p, noted)?;
    Ok(())
}

// Notes all phases of u, who stands at this place.
fn note_phases<'a>(
    least: &mut HashMap<&'a [u8], LeastPhase>,
    u: &'a ListedParticipant,
    who: usize,
) -> Result<(), NoMemory>
    ensures { OnOk result ((q : List ℕ) → least_of least.new q ≡ noted_phases u.now.phases q who (least_of least.old q)) }
{
    for membership in u.memberships().as_slice() {
        note_phase(least, membership.phaser(), membership.phase(), who)?;
    }
    Ok(())
}

// The least phases of these on their phasers.
fn least_phases<'a>(
    alloc: Global,
    these: &[&'a ListedParticipant],
) -> Result<HashMap<&'a [u8], LeastPhase>, NoMemory>
    ensures { IfOk result (λ least. (q : List ℕ) (n : ℕ) → is_least_below (least_of least q) n ≡ list_any (λ u. has_phase_below u q n) (referred these.now)) }
{
    let mut least = HashMap::new(alloc);
    for (who, u) in these.iter().enumerate() {
        note_phases(&mut least, *u, who)?;
    }
    Ok(least)
}

// The numbers of the tasks of these that have not ended.
fn live_numbers(alloc: Global, these: &[&ListedParticipant]) -> Result<HashSet<u64>, NoMemory>
    ensures { IfOk result (λ numbers. (k : ℕ) → contains nat_eq numbers k ≡ list_any (λ u. is_live_task u.condition && k == u.number) (referred these.now)) }
{
    let mut numbers = HashSet::new(alloc);
    for u in these {
        if u.condition().is_live_task() {
            numbers.insert(u.number())?;
        }
    }
    Ok(numbers)
}

impl Keepers<'_> {
    /// Whether those inside keep whoever is in this condition.
    pub(crate) fn keep(&self, condition: &ListedCondition) -> bool
        ensures { result ≡ keeps_condition self.now (condition_value condition.now) }
    {
        match condition {
            ListedCondition::Running => false,
            ListedCondition::Waiting(p, n) => self.has_phase_below(p, *n),
            ListedCondition::Ended => true,
            ListedCondition::AnyTask => !self.live_outside,
            ListedCondition::OneOf(_, tasks) => !self.has_some_outside(tasks),
        }
    }

    // Whether somebody inside is a member of phaser p with a phase below n.
    fn has_phase_below(&self, p: &[u8], n: u32) -> bool
        ensures { result ≡ is_least_below (least_of self.now.least p.now) n }
    {
        match self.least.get(p) {
            None => false,
            Some(k) => k.phase < n,
        }
    }

    // Whether a task that has not ended and has one of these numbers is outside.
    fn has_some_outside(&self, tasks: &[u64]) -> bool
        ensures { result ≡ list_any (contains nat_eq self.now.numbers) tasks.now }
    {
        tasks.iter().any(|k| self.numbers.contains(k))
    }
}

/// What tells who is kept by those inside.
pub(crate) fn keepers_of<'a>(alloc: Global, parting: &Parting<'a>) -> Result<Keepers<'a>, NoMemory>
    ensures { IfOk result (λ keepers. (c : Stands) → keeps_condition keepers c ≡ is_kept_by (referred parting.now.inside.items) (referred parting.now.outside.items) c) }
{
    let least = least_phases(alloc, &parting.inside)?;
    let live_outside = some_live(&parting.outside);
    let numbers = live_numbers(alloc, &parting.outside)?;
    Ok(Keepers {
        least,
        live_outside,
        numbers,
    })
}
