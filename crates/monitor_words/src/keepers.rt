// Who keeps tasks waiting.
ghost use Rattle.std.specs.Prelude.{◌≡◌, ◌++◌, OnOk, codes, decimal, flat_map, if◌then◌else◌};
ghost use Rattle.std.specs.List.{join_by};
ghost use Rattle.monitor_words.specs.inside.ValueWords.{group_end, group_front, is_one, keeper_condition_words, seen_words, shown_group_words, shown_names_words};

use crate::names::ShownNames;
use crate::words::{put_at, put_counted};
use armus_base::{List, NoMemory, put_words};
use std::alloc::Global;

/// In which condition somebody is who keeps tasks waiting.
#[derive(Drop)]
pub enum KeeperCondition {
    /// A task that is stuck.
    Stuck,
    /// A task that waits and is not stuck.
    Waiting,
    /// A task that runs.
    Running,
    /// A task that has ended, or a wildcard that is gone.
    Ended,
    /// A wildcard that any task may play.
    AnyTask,
    /// A wildcard that one of the tasks with these names may play.
    OneOf(ShownNames),
}

/// Members of a phaser that keep the same tasks waiting, with the same phase, place and condition.
#[derive(Drop)]
pub struct KeeperGroup {
    /// Their names.
    pub names: ShownNames,
    /// Their phase on the phaser.
    pub phase: u32,
    /// In which condition they are.
    pub condition: KeeperCondition,
    /// Their place, if they have one.
    pub place: Option<List<u8>>,
}

// Appends who may play a wildcard.
fn put_players(alloc: Global, out: &mut Vec<u8>, names: &ShownNames) -> Result<(), NoMemory>
    ensures { OnOk result (out.new.items ≡ out.old.items ++ ((if is_one names.now then codes "only " else codes "one of ") ++ shown_names_words names.now)) }
{
    let before: &[u8] = if names.is_one() { b"only " } else { b"one of " };
    put_words(out, before)?;
    names.put(alloc, out)
}

impl KeeperCondition {
    // Appends the words of the condition.
    fn put(&self, alloc: Global, out: &mut Vec<u8>) -> Result<(), NoMemory>
        ensures { OnOk result (out.new.items ≡ out.old.items ++ keeper_condition_words self.now) }
    {
        match self {
            KeeperCondition::Stuck => put_words(out, b"stuck"),
            KeeperCondition::Waiting => put_words(out, b"waiting"),
            KeeperCondition::Running => put_words(out, b"running"),
            KeeperCondition::Ended => put_words(out, b"ended"),
            KeeperCondition::AnyTask => put_words(out, b"any task"),
            KeeperCondition::OneOf(names) => put_players(alloc, out, names),
        }
    }

    // Appends the place of somebody who is in this condition.
    fn put_seen(&self, out: &mut Vec<u8>, place: &Option<List<u8>>) -> Result<(), NoMemory>
        ensures { OnOk result (out.new.items ≡ out.old.items ++ seen_words self.now place.now) }
    {
        match self {
            KeeperCondition::Stuck => put_at(out, b" at ", place),
            KeeperCondition::Waiting => put_at(out, b" at ", place),
            KeeperCondition::Running => put_at(out, b", last seen at ", place),
            KeeperCondition::Ended => put_at(out, b", last seen at ", place),
            KeeperCondition::AnyTask => Ok(()),
            KeeperCondition::OneOf(_) => Ok(()),
        }
    }
}

/// Appends the words of this condition of somebody who keeps tasks waiting and has this place or none: `running, last seen at Job.java:7`.
pub fn put_condition(
    alloc: Global,
    out: &mut Vec<u8>,
    condition: &KeeperCondition,
    place: &Option<List<u8>>,
) -> Result<(), NoMemory>
    ensures { OnOk result (out.new.items ≡ out.old.items ++ (keeper_condition_words condition.now ++ seen_words condition.now place.now)) }
{
    condition.put(alloc, out)?;
    condition.put_seen(out, place)
}

// The verb of keepers.
fn keepers_verb(names: &ShownNames) -> &'static [u8]
    ensures { result.now ≡ (if is_one names.now then codes " has phase " else codes " have phase ") }
{
    if names.is_one() {
        b" has phase "
    } else {
        b" have phase "
    }
}

impl KeeperGroup {
    // Appends the names and the phase.
    fn put_front(&self, alloc: Global, out: &mut Vec<u8>) -> Result<(), NoMemory>
        ensures { OnOk result (out.new.items ≡ out.old.items ++ group_front self.now) }
    {
        self.names.put(alloc, out)?;
        put_counted(alloc, out, keepers_verb(&self.names), self.phase, b" (")
    }

    // Appends the condition and the place.
    fn put_end(&self, alloc: Global, out: &mut Vec<u8>) -> Result<(), NoMemory>
        ensures { OnOk result (out.new.items ≡ out.old.items ++ group_end self.now) }
    {
        put_condition(alloc, out, &self.condition, &self.place)?;
        put_words(out, b")")
    }

    // Appends the group: `w1, w2 have phase 0 (running)`.
    pub(crate) fn put(&self, alloc: Global, out: &mut Vec<u8>) -> Result<(), NoMemory>
        ensures { OnOk result (out.new.items ≡ out.old.items ++ shown_group_words self.now) }
    {
        self.put_front(alloc, out)?;
        self.put_end(alloc, out)
    }
}

// Appends a group behind another.
fn put_next_group(alloc: Global, out: &mut Vec<u8>, group: &KeeperGroup) -> Result<(), NoMemory>
    ensures { OnOk result (out.new.items ≡ out.old.items ++ (codes ", " ++ shown_group_words group.now)) }
{
    put_words(out, b", ")?;
    group.put(alloc, out)
}

// Appends groups behind another.
fn put_other_groups(
    alloc: Global,
    out: &mut Vec<u8>,
    groups: &[KeeperGroup],
) -> Result<(), NoMemory>
    ensures { OnOk result (out.new.items ≡ out.old.items ++ flat_map (λ y. codes ", " ++ shown_group_words y) groups.now) }
{
    for group in groups {
        put_next_group(alloc, out, group)?;
    }
    Ok(())
}

/// Appends groups, a comma and a blank between each two.
pub(crate) fn put_groups(
    alloc: Global,
    out: &mut Vec<u8>,
    groups: &[KeeperGroup],
) -> Result<(), NoMemory>
    ensures { OnOk result (out.new.items ≡ out.old.items ++ join_by shown_group_words (codes ", ") groups.now) }
{
    match groups {
        [first, others @ ..] => {
            first.put(alloc, out)?;
            put_other_groups(alloc, out, others)
        }
        [] => Ok(()),
    }
}
