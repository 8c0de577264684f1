// The least phases on the phasers at which tasks wait.
ghost use Rattle.std.specs.Prelude.{◌≡◌, ◌&&◌, ◌||◌, ℕ, Contains, List, Some, IfOk, OnOk, bytes_eq, nat_lt};
ghost use Rattle.std.specs.List.{list_any};
ghost use Rattle.monitor_laws.specs.Faults.{waits_now};
ghost use Rattle.monitor_laws.specs.Stuck.{has_phase_below, is_phase_below};
ghost use Rattle.monitor_words.specs.Messages.{is_kept_waiting};
ghost use Rattle.monitor_rows.specs.inside.LeastPhases.{AreLeastAwaited, is_noted_below};

use armus_base::NoMemory;
use monitor_state::{ListedCondition, ListedParticipant, MonitorState};
use std::alloc::Global;
use std::collections::HashMap;

// The lesser of the phase m and one that may be known.
fn lesser_phase(known: Option<u32>, m: u32) -> u32
    ensures { (n : ℕ) → is_phase_below (Some result) n ≡ (is_phase_below known n || nat_lt m n) }
{
    match known {
        None => m,
        Some(k) => k.min(m),
    }
}

// Notes the phase m on phaser p.
fn note_phase<'a>(least: &mut HashMap<&'a [u8], u32>, p: &'a [u8], m: u32) -> Result<(), NoMemory>
    ensures { OnOk result ((q : List ℕ) (n : ℕ) → is_noted_below least.new q n ≡ (is_noted_below least.old q n || (bytes_eq q p.now && nat_lt m n))) }
{
    let known = least.get(p).copied();
    let lesser = lesser_phase(known, m);
    least.insert(p, lesser)?;
    Ok(())
}

// Notes the phase of u on phaser p, where it is a member of it.
fn note_own_phase<'a>(
    least: &mut HashMap<&'a [u8], u32>,
    u: &'a ListedParticipant,
    p: &'a [u8],
) -> Result<(), NoMemory>
    ensures { OnOk result ((q : List ℕ) (n : ℕ) → is_noted_below least.new q n ≡ (is_noted_below least.old q n || (bytes_eq q p.now && has_phase_below u.now q n))) }
{
    match u.phase_on(p) {
        None => Ok(()),
        Some(m) => {
            note_phase(least, p, m)?;
            Ok(())
        }
    }
}

// Notes all phases of u.
fn note_phases<'a>(
    least: &mut HashMap<&'a [u8], u32>,
    u: &'a ListedParticipant,
) -> Result<(), NoMemory>
    ensures { OnOk result ((q : List ℕ) (n : ℕ) → is_noted_below least.new q n ≡ (is_noted_below least.old q n || has_phase_below u.now q n)) }
{
    for membership in u.memberships().as_slice() {
        note_own_phase(least, u, membership.phaser())?;
    }
    Ok(())
}

// The least phases on all phasers.
fn least_phases(alloc: Global, list: &[ListedParticipant]) -> Result<HashMap<&[u8], u32>, NoMemory>
    ensures { IfOk result (λ least. (q : List ℕ) (n : ℕ) → is_noted_below least q n ≡ list_any (λ u. has_phase_below u q n) list.now) }
{
    let mut least = HashMap::new(alloc);
    for u in list {
        note_phases(&mut least, u)?;
    }
    Ok(least)
}

// Whether somebody of the list waits.
fn somebody_waits(list: &[ListedParticipant]) -> bool
    ensures { result ≡ list_any (λ t. waits_now t.condition) list.now }
{
    list.iter().any(|t| t.condition().waits())
}

// The least phases on the phasers at which somebody of the list waits.
fn least_awaited(alloc: Global, list: &[ListedParticipant]) -> Result<HashMap<&[u8], u32>, NoMemory>
    ensures { IfOk result (λ least. AreLeastAwaited list.now least) }
{
    if !somebody_waits(list) {
        return Ok(HashMap::new(alloc));
    }
    let least = least_phases(alloc, list)?;
    Ok(least)
}

/// The least phases on the phasers at which somebody of the state waits.
pub(crate) fn least_awaited_in(
    alloc: Global,
    state: &MonitorState,
) -> Result<HashMap<&[u8], u32>, NoMemory>
    ensures { IfOk result (λ least. AreLeastAwaited state.now.list least) }
{
    let least = least_awaited(alloc, state.participants())?;
    Ok(least)
}

// Whether the phase is known and below n.
fn is_below(phase: Option<u32>, n: u32) -> bool
    ensures { result ≡ is_phase_below phase n }
{
    match phase {
        None => false,
        Some(m) => m < n,
    }
}

/// Whether somebody of the state keeps t of it waiting, where these are the least phases.
pub(crate) fn is_kept_by_least(
    state: &MonitorState,
    least: &HashMap<&[u8], u32>,
    t: &ListedParticipant,
) -> bool
    requires least { AreLeastAwaited state.now.list least.now }
    requires listed { Contains state.now.list t.now }
    ensures { result ≡ is_kept_waiting state.now t.now }
{
    let _ = state;
    match t.condition() {
        ListedCondition::Waiting(p, n) => is_below(least.get(p.as_slice()).copied(), *n),
        ListedCondition::Running => false,
        ListedCondition::Ended => false,
        ListedCondition::AnyTask => false,
        ListedCondition::OneOf(_, _) => false,
    }
}
