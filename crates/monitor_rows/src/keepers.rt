// Who keeps tasks waiting.
ghost use Rattle.std.specs.Prelude.{◌≡◌, ◌==◌, ◌++◌, ℕ, suc, IfOk, List as Seq, bytes_eq, filter, map, not, take};
ghost use Rattle.std.specs.Option.{option_copied, option_eq};
ghost use Rattle.monitor_laws.specs.States.{Participant as Listed};
ghost use Rattle.monitor_words.specs.Stops.{keeps_waiting};
ghost use Rattle.monitor_words.specs.Words.{count_behind, keep_alike, keeper_groups, keeper_words, waited_event};
ghost use Rattle.monitor_words.specs.calls.Values.{group_shown, names_shown};
ghost use Rattle.monitor_search.specs.Known.{has_stuck_number};
ghost use Rattle.monitor_rows.specs.inside.Lent.{lent_ones};
ghost use Rattle.monitor_rows.specs.inside.Turns.{turn_groups, turns_leave};

use crate::conditions::{keeper_words, shown_condition};
use crate::names::{add_name, count_left, no_names};
use crate::places::{is_same_place, own_place};
use crate::standing::keeps_waiting;
use armus_base::{List, NoMemory};
use monitor_search::StuckTasks;
use monitor_state::{ListedParticipant, MonitorState};
use monitor_words::{KeeperGroup, ShownNames};
use std::alloc::Global;

// Those of the list who keep t waiting.
fn keepers_of<'a>(
    alloc: Global,
    list: &'a [ListedParticipant],
    t: &ListedParticipant,
) -> Result<Vec<&'a ListedParticipant>, NoMemory>
    ensures { IfOk result (λ us. lent_ones us.items ≡ filter (λ u. keeps_waiting u t.now) list.now) }
{
    let mut keepers = Vec::new(alloc);
    for u in list {
        if keeps_waiting(u, t) {
            keepers.push(u)?;
        }
    }
    Ok(keepers)
}

// Whether two have the same phase, or none.
fn is_same_phase(one: Option<u32>, other: Option<u32>) -> bool
    ensures { result ≡ option_eq (λ m k. m == k) one other }
{
    match one {
        None => other.is_none(),
        Some(phase) => match other {
            None => false,
            Some(another) => phase == another,
        },
    }
}

// Whether v stands in one group with first, which has these words, on phaser p.
fn is_alike(
    alloc: Global,
    stuck: &StuckTasks,
    p: &[u8],
    first: &ListedParticipant,
    words: &[u8],
    v: &ListedParticipant,
) -> Result<bool, NoMemory>
    requires { words.now ≡ keeper_words (has_stuck_number stuck.now) first.now }
    ensures { IfOk result (λ alike. alike ≡ keep_alike (has_stuck_number stuck.now) p.now first.now v.now) }
{
    if !is_same_phase(first.phase_on(p), v.phase_on(p)) {
        return Ok(false);
    }
    if !is_same_place(first.place(), v.place()) {
        return Ok(false);
    }
    let own = keeper_words(alloc, stuck, v)?;
    Ok(words == own.as_slice())
}

// Keepers of whom those who stand in one group are told from the others.
struct PartedKeepers<'a> {
    names: ShownNames,
    others: Vec<&'a ListedParticipant>,
}

// The names of those who stand in one group with first, and the others.
fn part_keepers<'a>(
    alloc: Global,
    stuck: &StuckTasks,
    p: &[u8],
    first: &ListedParticipant,
    keepers: &[&'a ListedParticipant],
) -> Result<PartedKeepers<'a>, NoMemory>
    ensures names { IfOk result (λ parted. parted.names ≡ names_shown (filter (keep_alike (has_stuck_number stuck.now) p.now first.now) (lent_ones keepers.now))) }
    ensures others { IfOk result (λ parted. lent_ones parted.others.items ≡ filter (λ v. not (keep_alike (has_stuck_number stuck.now) p.now first.now v)) (lent_ones keepers.now)) }
{
    let words = keeper_words(alloc, stuck, first)?;
    let mut names = no_names(alloc);
    let mut others = Vec::new(alloc);
    for v in keepers {
        if is_alike(alloc, stuck, p, first, &words, v)? {
            add_name(alloc, &mut names, v.name())?;
        } else {
            others.push(*v)?;
        }
    }
    Ok(PartedKeepers { names, others })
}

// The group of first and those with these names, on phaser p.
fn shown_group(
    alloc: Global,
    stuck: &StuckTasks,
    p: &[u8],
    first: &ListedParticipant,
    names: ShownNames,
) -> Result<KeeperGroup, NoMemory>
    ensures { IfOk result (λ group. (us : Seq Listed) → names ≡ names_shown us → group ≡ group_shown (has_stuck_number stuck.now) p.now (first.now, us)) }
{
    Ok(KeeperGroup {
        names,
        phase: first.phase_on(p).unwrap_or(0),
        condition: shown_condition(alloc, stuck, first)?,
        place: own_place(alloc, first.place())?,
    })
}

// Appends the group of the first of those who are left, if there are any, and gives the others.
fn next_group<'a>(
    alloc: Global,
    stuck: &StuckTasks,
    p: &[u8],
    groups: &mut List<KeeperGroup>,
    keepers: &[&'a ListedParticipant],
) -> Result<Vec<&'a ListedParticipant>, NoMemory>
    ensures groups { IfOk result (λ others. (k : ℕ) → groups.new ++ map (group_shown (has_stuck_number stuck.now) p.now) (turn_groups (keep_alike (has_stuck_number stuck.now) p.now) k (lent_ones others.items)) ≡ groups.old ++ map (group_shown (has_stuck_number stuck.now) p.now) (turn_groups (keep_alike (has_stuck_number stuck.now) p.now) (suc k) (lent_ones keepers.now))) }
    ensures left { IfOk result (λ others. (k : ℕ) → turns_leave (keep_alike (has_stuck_number stuck.now) p.now) k (lent_ones others.items) ≡ turns_leave (keep_alike (has_stuck_number stuck.now) p.now) (suc k) (lent_ones keepers.now)) }
{
    match keepers {
        [] => Ok(Vec::new(alloc)),
        [first, ..] => {
            let PartedKeepers { names, others } = part_keepers(alloc, stuck, p, first, keepers)?;
            groups.push(shown_group(alloc, stuck, p, first, names)?)?;
            Ok(others)
        }
    }
}

/// Groups of keepers of which the first three at most are shown.
pub(crate) struct ShownKeepers {
    /// Those that are shown.
    pub(crate) groups: List<KeeperGroup>,
    /// How many keepers stand in no group that is shown.
    pub(crate) left: u32,
}

// The first three groups of these on phaser p, and how many stand in none of them.
fn group_keepers(
    alloc: Global,
    stuck: &StuckTasks,
    p: &[u8],
    keepers: Vec<&ListedParticipant>,
) -> Result<ShownKeepers, NoMemory>
    ensures groups { IfOk result (λ shown. shown.groups ≡ map (group_shown (has_stuck_number stuck.now) p.now) (turn_groups (keep_alike (has_stuck_number stuck.now) p.now) 3 (lent_ones keepers.entry.items))) }
    ensures left { IfOk result (λ shown. shown.left ≡ turns_leave (keep_alike (has_stuck_number stuck.now) p.now) 3 (lent_ones keepers.entry.items)) }
{
    let mut groups = List::new(alloc);
    let mut rest = keepers;
    for _turn in 0..3_usize {
        rest = next_group(alloc, stuck, p, &mut groups, &rest)?;
    }
    let left = count_left(rest.len())?;
    Ok(ShownKeepers { groups, left })
}

/// The first three groups of those who keep t waiting, on the phaser p at which it waits, and how many stand in none of them.
pub(crate) fn shown_keepers(
    alloc: Global,
    state: &MonitorState,
    stuck: &StuckTasks,
    p: &[u8],
    t: &ListedParticipant,
) -> Result<ShownKeepers, NoMemory>
    requires { p.now ≡ (waited_event t.now).0 }
    ensures groups { IfOk result (λ shown. shown.groups ≡ map (group_shown (has_stuck_number stuck.now) (waited_event t.now).0) (take 3 (keeper_groups state.now (has_stuck_number stuck.now) t.now))) }
    ensures left { IfOk result (λ shown. shown.left ≡ count_behind 3 (keeper_groups state.now (has_stuck_number stuck.now) t.now)) }
{
    let keepers = keepers_of(alloc, state.participants(), t)?;
    let shown = group_keepers(alloc, stuck, p, keepers)?;
    Ok(shown)
}
