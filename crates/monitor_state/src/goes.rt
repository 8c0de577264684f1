// The list, where all of a process are gone.
ghost use Rattle.std.specs.Prelude.{◌≡◌, ◌≤◌, IfOk, filter, length, map, sum_by, vec_len};
ghost use Rattle.monitor_laws.specs.Faults.{most_memberships};
ghost use Rattle.monitor_laws.specs.States.{gone_by, is_live_wildcard, stays_listed};
ghost use Rattle.monitor_state.specs.Indexes.{IsIndexOf};
ghost use Rattle.monitor_state.specs.inside.Changes.{memberships_had};

use crate::{ListedParticipant, MemberIndex};
use armus_base::NoMemory;
use std::alloc::Global;

/// All whose names begin so have ended.
pub(crate) fn end_all(list: &mut Vec<ListedParticipant>, beginning: &[u8])
    ensures { list.new.items ≡ map (gone_by beginning.now) list.old.items }
{
    for at in 0..list.len() {
        let participant = &mut list[at];
        participant.go_with(beginning);
    }
}

/// Takes out all that do not stay.
pub(crate) fn keep_listed(list: &mut Vec<ListedParticipant>)
    ensures { list.new.items ≡ filter stays_listed list.old.items }
{
    list.retain(|participant| participant.stays_listed());
}

/// The index of the list where all whose names begin so have ended.
pub(crate) fn index_of_gone(
    alloc: Global,
    list: &[ListedParticipant],
    beginning: &[u8],
) -> Result<MemberIndex, NoMemory>
    ensures { IfOk result (λ index. IsIndexOf (filter stays_listed (map (gone_by beginning.now) list.now)) index) }
{
    let mut index = MemberIndex::new(alloc);
    for participant in list {
        participant.note_gone(alloc, &mut index, beginning)?;
    }
    Ok(index)
}

/// How many of them are wildcards that are not gone.
pub(crate) fn wildcards_of(list: &[ListedParticipant]) -> usize
    ensures { result ≡ length (filter (λ u. is_live_wildcard u.condition) list.now) }
{
    list.iter()
        .filter(|u| u.condition().is_live_wildcard())
        .count()
}

/// How many memberships they have in all.
pub(crate) fn memberships_of(list: &[ListedParticipant]) -> usize
    requires { sum_by memberships_had list.now ≤ most_memberships }
    ensures { result ≡ sum_by memberships_had list.now }
{
    let mut total = 0;
    for participant in list {
        total += participant.memberships_had();
    }
    total
}
