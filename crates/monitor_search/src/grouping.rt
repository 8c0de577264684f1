// The members of phasers, and those who wait at them.
ghost use Rattle.std.specs.Prelude.{◌≡◌, ◌++◌, ◌∷◌, [], ℕ, false, true, Contains, List, IfOk, OnOk, bytes_eq, is_some};
ghost use Rattle.monitor_laws.specs.Faults.{phase_on};
ghost use Rattle.monitor_laws.specs.States.{Participant as Listed};
ghost use Rattle.monitor_search.specs.inside.Cascades.{AreOfList, HaveMembers, named_group};
ghost use Rattle.monitor_search.specs.inside.Partings.{referred};

use armus_base::NoMemory;
use monitor_state::{ListedCondition, ListedParticipant};
use std::alloc::Global;
use std::collections::HashMap;

// Takes the group with this name out; it may be empty.
fn take_group<'a>(
    groups: &mut HashMap<&'a [u8], Vec<&'a ListedParticipant>>,
    alloc: Global,
    name: &'a [u8],
) -> Vec<&'a ListedParticipant>
    ensures group { referred result.items ≡ named_group groups.old name.now }
    ensures others { (q : List ℕ) → bytes_eq name.now q ≡ false → named_group groups.new q ≡ named_group groups.old q }
{
    match groups.remove(name) {
        None => Vec::new(alloc),
        Some(group) => group,
    }
}

// Adds u to the group with this name.
fn add_to_group<'a>(
    groups: &mut HashMap<&'a [u8], Vec<&'a ListedParticipant>>,
    alloc: Global,
    name: &'a [u8],
    u: &'a ListedParticipant,
) -> Result<(), NoMemory>
    ensures own { OnOk result (named_group groups.new name.now ≡ named_group groups.old name.now ++ u.now ∷ []) }
    ensures others { OnOk result ((q : List ℕ) → bytes_eq name.now q ≡ false → named_group groups.new q ≡ named_group groups.old q) }
{
    let mut group = take_group(groups, alloc, name);
    group.push(u)?;
    groups.insert(name, group)?;
    Ok(())
}

// Adds u to the groups of all phasers of which it is a member.
fn add_member<'a>(
    groups: &mut HashMap<&'a [u8], Vec<&'a ListedParticipant>>,
    alloc: Global,
    u: &'a ListedParticipant,
) -> Result<(), NoMemory>
    ensures own { OnOk result ((q : List ℕ) → is_some (phase_on u.now q) ≡ true → Contains (named_group groups.new q) u.now) }
    ensures others { OnOk result ((q : List ℕ) (v : Listed) → Contains (named_group groups.old q) v → Contains (named_group groups.new q) v) }
{
    for membership in u.memberships().as_slice() {
        add_to_group(groups, alloc, membership.phaser(), u)?;
    }
    Ok(())
}

// The members of all phasers.
fn member_groups(
    alloc: Global,
    list: &[ListedParticipant],
) -> Result<HashMap<&[u8], Vec<&ListedParticipant>>, NoMemory>
    ensures { IfOk result (λ groups. HaveMembers list.now (named_group groups)) }
{
    let mut groups = HashMap::new(alloc);
    for u in list {
        add_member(&mut groups, alloc, u)?;
    }
    Ok(groups)
}

// Those who wait at all phasers.
fn waiting_groups(
    alloc: Global,
    list: &[ListedParticipant],
) -> Result<HashMap<&[u8], Vec<&ListedParticipant>>, NoMemory>
    ensures { IfOk result (λ groups. AreOfList list.now (named_group groups)) }
{
    let mut groups = HashMap::new(alloc);
    for u in list {
        if let ListedCondition::Waiting(p, _) = u.condition() {
            add_to_group(&mut groups, alloc, p, u)?;
        }
    }
    Ok(groups)
}

/// The members of all phasers, and those who wait at them.
#[derive(Drop)]
pub(crate) struct PhaserTable<'a> {
    pub(crate) members: HashMap<&'a [u8], Vec<&'a ListedParticipant>>,
    pub(crate) waiting: HashMap<&'a [u8], Vec<&'a ListedParticipant>>,
}

/// The table of the phasers of a list.
pub(crate) fn phaser_table(
    alloc: Global,
    list: &[ListedParticipant],
) -> Result<PhaserTable<'_>, NoMemory>
    ensures members { IfOk result (λ table. HaveMembers list.now (named_group table.members)) }
    ensures waiting { IfOk result (λ table. AreOfList list.now (named_group table.waiting)) }
{
    let members = member_groups(alloc, list)?;
    let waiting = waiting_groups(alloc, list)?;
    Ok(PhaserTable { members, waiting })
}
