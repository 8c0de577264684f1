// At which phasers and wildcards somebody may be taken out next. That whoever is taken out stands in no closed set does not rest on these.
use armus_base::NoMemory;
use monitor_state::{ListedCondition, ListedParticipant};
use std::alloc::Global;
use std::collections::{HashMap, HashSet};

// Notes that a wildcard at this place has these tasks.
fn note_wildcard(
    wildcards: &mut HashMap<u64, Vec<usize>>,
    tasks: &[u64],
    place: usize,
) -> Result<(), NoMemory> {
    for k in tasks {
        wildcards.entry(*k)?.or_default().push(place)?;
    }
    Ok(())
}

/// The places of the wildcards that each task may play, by its number.
pub(crate) fn wildcard_places(
    alloc: Global,
    list: &[ListedParticipant],
) -> Result<HashMap<u64, Vec<usize>>, NoMemory> {
    let mut wildcards = HashMap::new(alloc);
    for (place, u) in list.iter().enumerate() {
        if let ListedCondition::OneOf(_, tasks) = u.condition() {
            note_wildcard(&mut wildcards, tasks, place)?;
        }
    }
    Ok(wildcards)
}

// Notes a phaser, once.
fn note_phaser<'a>(
    phasers: &mut Vec<&'a [u8]>,
    noted: &mut HashSet<&'a [u8]>,
    p: &'a [u8],
) -> Result<(), NoMemory> {
    if noted.insert(p)? {
        phasers.push(p)?;
    }
    Ok(())
}

/// The phasers at which somebody waits, each once.
pub(crate) fn waited_phasers<'a>(
    alloc: Global,
    waiting: &HashMap<&'a [u8], Vec<&'a ListedParticipant>>,
) -> Result<Vec<&'a [u8]>, NoMemory> {
    let mut phasers = Vec::new(alloc);
    for p in waiting.keys() {
        phasers.push(*p)?;
    }
    Ok(phasers)
}

// Notes the phasers of which u is a member.
fn note_phasers<'a>(
    phasers: &mut Vec<&'a [u8]>,
    noted: &mut HashSet<&'a [u8]>,
    u: &'a ListedParticipant,
) -> Result<(), NoMemory> {
    for membership in u.memberships().as_slice() {
        note_phaser(phasers, noted, membership.phaser())?;
    }
    Ok(())
}

/// The phasers of which these are members, or the others.
pub(crate) fn phasers_of<'a>(
    alloc: Global,
    these: &[&'a ListedParticipant],
    others: &[&'a ListedParticipant],
) -> Result<Vec<&'a [u8]>, NoMemory> {
    let mut noted = HashSet::new(alloc);
    let mut phasers = Vec::new(alloc);
    for u in these.iter().chain(others) {
        note_phasers(&mut phasers, &mut noted, *u)?;
    }
    Ok(phasers)
}
