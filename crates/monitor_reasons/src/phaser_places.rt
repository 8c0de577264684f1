// Where those stand in the list who wait at phasers, and the wildcards that one task plays.
ghost use Rattle.std.specs.Prelude.{◌≡◌, ◌==◌, ◌++◌, ◌∷◌, [], ℕ, Contains, List, true, false, IfOk, OnOk, bytes_eq};
ghost use Rattle.std.specs.List.{list_any};
ghost use Rattle.monitor_laws.specs.States.{Waiting};
ghost use Rattle.monitor_state.specs.Values.{condition_value};
ghost use Rattle.monitor_reasons.specs.inside.PhaserPlaces.{ArePhaserPlaces, HaveWaitingPlaces, HaveWildcardPlaces, places_named, places_numbered};

use crate::stopping::lone_task;
use armus_base::NoMemory;
use monitor_state::{ListedCondition, ListedParticipant};
use std::alloc::Global;
use std::collections::HashMap;

/// Places of the list.
#[derive(Drop)]
pub(crate) struct PhaserPlaces<'a> {
    /// Where those stand who wait at each phaser.
    pub(crate) waiting: HashMap<&'a [u8], Vec<usize>>,
    /// Where the wildcards stand that one task alone may play, by its number.
    pub(crate) wildcards: HashMap<u64, Vec<usize>>,
}

// Takes the places under this name out; there may be none.
fn take_named<'a>(
    groups: &mut HashMap<&'a [u8], Vec<usize>>,
    alloc: Global,
    name: &'a [u8],
) -> Vec<usize>
    ensures group { result.items ≡ places_named groups.old name.now }
    ensures others { (q : List ℕ) → bytes_eq name.now q ≡ false → places_named groups.new q ≡ places_named groups.old q }
{
    match groups.remove(name) {
        None => Vec::new(alloc),
        Some(group) => group,
    }
}

// Adds a place under this name.
fn add_named<'a>(
    groups: &mut HashMap<&'a [u8], Vec<usize>>,
    alloc: Global,
    name: &'a [u8],
    place: usize,
) -> Result<(), NoMemory>
    ensures own { OnOk result (places_named groups.new name.now ≡ places_named groups.old name.now ++ place ∷ []) }
    ensures others { OnOk result ((q : List ℕ) → bytes_eq name.now q ≡ false → places_named groups.new q ≡ places_named groups.old q) }
{
    let mut group = take_named(groups, alloc, name);
    group.push(place)?;
    groups.insert(name, group)?;
    Ok(())
}

// Adds the place of who is in this condition under the name of the phaser at which it waits, if it does.
fn add_waiting<'a>(
    groups: &mut HashMap<&'a [u8], Vec<usize>>,
    alloc: Global,
    condition: &'a ListedCondition,
    place: usize,
) -> Result<(), NoMemory>
    ensures own { OnOk result ((q : List ℕ) (n : ℕ) → condition_value condition.now ≡ Waiting q n → Contains (places_named groups.new q) place) }
    ensures others { OnOk result ((q : List ℕ) (i : ℕ) → Contains (places_named groups.old q) i → Contains (places_named groups.new q) i) }
{
    match condition {
        ListedCondition::Waiting(p, _) => {
            add_named(groups, alloc, p, place)?;
            Ok(())
        }
        ListedCondition::Running => Ok(()),
        ListedCondition::Ended => Ok(()),
        ListedCondition::AnyTask => Ok(()),
        ListedCondition::OneOf(_, _) => Ok(()),
    }
}

// Where those stand who wait at all phasers.
fn waiting_places(
    alloc: Global,
    list: &[ListedParticipant],
) -> Result<HashMap<&[u8], Vec<usize>>, NoMemory>
    ensures { IfOk result (λ groups. HaveWaitingPlaces list.now (places_named groups)) }
{
    let mut groups = HashMap::new(alloc);
    for (place, u) in list.iter().enumerate() {
        add_waiting(&mut groups, alloc, u.condition(), place)?;
    }
    Ok(groups)
}

// Takes the places under this number out; there may be none.
fn take_numbered(groups: &mut HashMap<u64, Vec<usize>>, alloc: Global, number: u64) -> Vec<usize>
    ensures group { result.items ≡ places_numbered groups.old number }
    ensures others { (k : ℕ) → (number == k) ≡ false → places_numbered groups.new k ≡ places_numbered groups.old k }
{
    match groups.remove(&number) {
        None => Vec::new(alloc),
        Some(group) => group,
    }
}

// Adds a place under this number.
fn add_numbered(
    groups: &mut HashMap<u64, Vec<usize>>,
    alloc: Global,
    number: u64,
    place: usize,
) -> Result<(), NoMemory>
    ensures own { OnOk result (places_numbered groups.new number ≡ places_numbered groups.old number ++ place ∷ []) }
    ensures others { OnOk result ((k : ℕ) → (number == k) ≡ false → places_numbered groups.new k ≡ places_numbered groups.old k) }
{
    let mut group = take_numbered(groups, alloc, number);
    group.push(place)?;
    groups.insert(number, group)?;
    Ok(())
}

// Adds a place under these numbers.
fn add_for_each(
    groups: &mut HashMap<u64, Vec<usize>>,
    alloc: Global,
    numbers: &[u64],
    place: usize,
) -> Result<(), NoMemory>
    ensures own { OnOk result ((k : ℕ) → list_any (λ j. j == k) numbers.now ≡ true → Contains (places_numbered groups.new k) place) }
    ensures others { OnOk result ((k : ℕ) (i : ℕ) → Contains (places_numbered groups.old k) i → Contains (places_numbered groups.new k) i) }
{
    for number in numbers {
        add_numbered(groups, alloc, *number, place)?;
    }
    Ok(())
}

// Where the wildcards stand that one task alone may play.
fn wildcard_places(
    alloc: Global,
    list: &[ListedParticipant],
) -> Result<HashMap<u64, Vec<usize>>, NoMemory>
    ensures { IfOk result (λ groups. HaveWildcardPlaces list.now (places_numbered groups)) }
{
    let mut groups = HashMap::new(alloc);
    for (place, u) in list.iter().enumerate() {
        add_for_each(&mut groups, alloc, lone_task(u.condition()), place)?;
    }
    Ok(groups)
}

/// The places of a list.
pub(crate) fn phaser_places(
    alloc: Global,
    list: &[ListedParticipant],
) -> Result<PhaserPlaces<'_>, NoMemory>
    ensures { IfOk result (λ places. ArePhaserPlaces list.now places) }
{
    let waiting = waiting_places(alloc, list)?;
    let wildcards = wildcard_places(alloc, list)?;
    Ok(PhaserPlaces { waiting, wildcards })
}
