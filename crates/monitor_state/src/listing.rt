// The list, with the numbers of those who are there by name: where somebody stands, and one who changes.
ghost use Rattle.std.specs.Prelude.{◌≡◌, ℕ, List, Contains, ◌<◌, ◌≤◌, ◌+◌, ◌++◌, ◌∷◌, false, true, [], if◌then◌else◌, IfSome, IfNone, IfOk, OnOk, OnErr, filter, length, map, slice_index_or};
ghost use Rattle.std.specs.List.{list_any};
ghost use Rattle.monitor_laws.specs.Faults.{most_memberships};
ghost use Rattle.monitor_laws.specs.States.{Participant as Listed, gone_by, is_live_wildcard, is_there_as, new_participant, stays_listed};
ghost use Rattle.monitor_state.specs.inside.Changes.{MayChange, changed_value, memberships_had, put_at, put_behind};
ghost use Rattle.monitor_state.specs.inside.FirstPlaces.{IsFirstAt};
ghost use Rattle.monitor_state.specs.Indexes.{IsIndexOf};
ghost use Rattle.monitor_state.specs.inside.Numbers.{HasEachNameOnce};
ghost use Rattle.monitor_state.specs.inside.Reindexing.{IsIndexed, IsReindexed, IsSameIndex};

use crate::change::Change;
use crate::goes::{end_all, index_of_gone, keep_listed, wildcards_of};
use crate::numbers::{number_by_name, put_number, remove_number, remove_numbers};
use crate::{ListedParticipant, MemberIndex};
use armus_base::NoMemory;
use std::alloc::Global;
use std::collections::HashMap;
use std::marker::Model;

/// The list of tasks and wildcards, with the numbers of those who are there, by name, and of those who do not run, by phaser and phase; how many wildcards of it are
/// not gone; and the place of who has changed last.
#[derive(Drop)]
pub(crate) struct Listing {
    list: Vec<ListedParticipant>,
    numbers: HashMap<Vec<u8>, u64>,
    index: MemberIndex,
    wildcards: usize,
    last: usize,
}

impl Model for Listing {
    ghost use Rattle.std.specs.Prelude.{List};
    ghost use Rattle.monitor_laws.specs.States.{Participant as Listed};
    ghost use Rattle.monitor_state.specs.inside.Listings.{IsListing};
    ghost use Rattle.monitor_state.specs.inside.Numbers.{number_by_name};

    ghost Value = { List Listed };

    ghost view = { λ l. l.list.items };

    ghost invariant = { λ l. IsListing l.list.items (number_by_name l.numbers) l.index l.wildcards };
}

/// How many memberships somebody has after a change, whether it is there, and whether it is a wildcard.
#[derive(Clone, Copy)]
struct AfterChange {
    memberships: usize,
    is_there: bool,
    is_wildcard: bool,
}

// Changes who stands at a place, and takes it out where it does not stay.
fn change_listed(
    list: &mut Vec<ListedParticipant>,
    index: &mut MemberIndex,
    at: usize,
    alloc: Global,
    t: &[u8],
    change: Change,
) -> Result<AfterChange, NoMemory>
    requires place { at < length list.old.items }
    requires may { (u : Listed) → u ≡ slice_index_or list.old.items at u → MayChange change u }
    requires few { (u : Listed) → u ≡ slice_index_or list.old.items at u → memberships_had (changed_value change u) ≤ most_memberships }
    requires indexed { (u : Listed) → u ≡ slice_index_or list.old.items at u → IsIndexed index.old u }
    ensures changed { OnOk result ((u : Listed) → u ≡ slice_index_or list.old.items at u → list.new.items ≡ put_at list.old.items at (changed_value change.entry u)) }
    ensures count { IfOk result (λ after. (u : Listed) → u ≡ slice_index_or list.old.items at u → after.memberships ≡ memberships_had (changed_value change.entry u)) }
    ensures there { IfOk result (λ after. (u : Listed) → u ≡ slice_index_or list.old.items at u → after.is_there ≡ is_there_as t.now (changed_value change.entry u)) }
    ensures wildcard { IfOk result (λ after. (u : Listed) → u ≡ slice_index_or list.old.items at u → after.is_wildcard ≡ is_live_wildcard (changed_value change.entry u).condition) }
    ensures indexed { OnOk result ((u : Listed) → u ≡ slice_index_or list.old.items at u → IsReindexed index.old index.new (changed_value change.entry u)) }
    ensures kept { OnErr result (list.new.items ≡ list.old.items) }
    ensures same { OnErr result (IsSameIndex index.old index.new) }
{
    let participant = &mut list[at];
    participant.change(alloc, index, change)?;
    let after = AfterChange {
        memberships: participant.memberships_had(),
        is_there: participant.is_there_as(t),
        is_wildcard: participant.condition().is_live_wildcard(),
    };
    if !participant.stays_listed() {
        list.remove(at);
    }
    Ok(after)
}

// Where who has this number stands, if nobody behind the first one was taken out.
fn likely_place(list: &[ListedParticipant], number: u64) -> usize {
    match list.first() {
        None => 0,
        Some(first) => number.saturating_sub(first.number()) as usize,
    }
}

// How many of so many wildcards are left without one, if it is one.
fn without_one(wildcards: usize, is_wildcard: bool) -> usize
    requires { is_wildcard ≡ true → 0 < wildcards }
    ensures { result + (if is_wildcard then 1 else 0) ≡ wildcards }
{
    if is_wildcard {
        wildcards - 1
    } else {
        wildcards
    }
}

// So many wildcards, or one more, if it is one.
fn one_more_if(is_wildcard: bool, wildcards: usize, one_more: usize) -> usize
    requires { one_more ≡ wildcards + 1 }
    ensures { result ≡ wildcards + (if is_wildcard then 1 else 0) }
{
    if is_wildcard { one_more } else { wildcards }
}

impl Listing {
    /// Nobody.
    pub(crate) fn new(alloc: Global) -> Listing
        ensures { result ≡ [] }
    {
        Listing {
            list: Vec::new(alloc),
            numbers: HashMap::new(alloc),
            index: MemberIndex::new(alloc),
            wildcards: 0,
            last: 0,
        }
    }

    /// All of them.
    pub(crate) fn as_slice(&self) -> &[ListedParticipant]
        ensures { result.now ≡ self.now }
    {
        &self.list
    }

    /// Who stands at this place.
    pub(crate) fn one_at(&self, at: usize) -> &ListedParticipant
        requires { at < length self.now }
        ensures { result.now ≡ slice_index_or self.now at result.now }
    {
        &self.list[at]
    }

    // Whether somebody who is there with the name t stands at this place.
    fn is_there_at(&self, at: usize, t: &[u8]) -> bool
        ensures within { result ≡ true → at < length self.now }
        ensures there { result ≡ true → (d : Listed) → is_there_as t.now (slice_index_or self.now at d) ≡ true }
    {
        at < self.list.len() && self.list[at].is_there_as(t)
    }

    // Whether a wildcard that is not gone stands at this place.
    fn is_wildcard_at(&self, at: usize) -> bool
        requires { at < length self.now }
        ensures { (u : Listed) → u ≡ slice_index_or self.now at u → result ≡ is_live_wildcard u.condition }
    {
        self.one_at(at).condition().is_live_wildcard()
    }

    /// Where who is there with the name t stands.
    pub(crate) fn place_of(&self, t: &[u8]) -> Option<usize>
        requires { HasEachNameOnce self.now }
        ensures at { IfSome result (IsFirstAt (is_there_as t.now) self.now) }
        ensures none { IfNone result (list_any (is_there_as t.now) self.now ≡ false) }
    {
        if self.is_there_at(self.last, t) {
            return Some(self.last);
        }
        match number_by_name(&self.numbers, t) {
            None => None,
            Some(number) => {
                let near = likely_place(&self.list, number);
                if self.is_there_at(near, t) {
                    return Some(near);
                }
                self.list
                    .binary_search_by_key(&number, |participant| participant.number())
                    .ok()
            }
        }
    }

    /// Changes who is there with the name t and stands at this place, and takes it out where it does not stay; tells how many memberships it has then.
    pub(crate) fn change_at(
        &mut self,
        at: usize,
        alloc: Global,
        t: &[u8],
        change: Change,
    ) -> Result<usize, NoMemory>
        requires order { HasEachNameOnce self.old }
        requires first { IsFirstAt (is_there_as t.now) self.old at }
        requires may { (u : Listed) → u ≡ slice_index_or self.old at u → MayChange change u }
        requires few { (u : Listed) → u ≡ slice_index_or self.old at u → memberships_had (changed_value change u) ≤ most_memberships }
        ensures changed { OnOk result ((u : Listed) → u ≡ slice_index_or self.old at u → self.new ≡ put_at self.old at (changed_value change.entry u)) }
        ensures count { IfOk result (λ count. (u : Listed) → u ≡ slice_index_or self.old at u → count ≡ memberships_had (changed_value change.entry u)) }
        ensures kept { OnErr result (self.new ≡ self.old) }
    {
        let others = without_one(self.wildcards, self.is_wildcard_at(at));
        let more = others.checked_add(1).ok_or(NoMemory)?;
        let after = change_listed(&mut self.list, &mut self.index, at, alloc, t, change)?;
        self.wildcards = one_more_if(after.is_wildcard, others, more);
        self.last = at;
        if !after.is_there {
            remove_number(&mut self.numbers, t);
        }
        Ok(after.memberships)
    }

    // Puts somebody new with the name t behind all others.
    fn push(&mut self, number: u64, alloc: Global, t: &[u8]) -> Result<(), NoMemory>
        requires { list_any (is_there_as t.now) self.old ≡ false }
        ensures pushed { OnOk result (self.new ≡ self.old ++ new_participant number t.now ∷ []) }
        ensures kept { OnErr result (self.new ≡ self.old) }
    {
        let participant = ListedParticipant::new(alloc, number, t)?;
        self.list.push(participant)?;
        match put_number(&mut self.numbers, alloc, t, number) {
            Ok(()) => Ok(()),
            Err(wanting) => {
                self.list.pop();
                Err(wanting)
            }
        }
    }

    // Takes out who was put behind all others with the name t, as long as nothing of it has changed.
    fn pop(&mut self, t: &[u8])
        requires { (us : List Listed) × (number : ℕ) × (self.old ≡ us ++ new_participant number t.now ∷ []) × (list_any (is_there_as t.now) us ≡ false) }
        ensures { (us : List Listed) (u : Listed) → self.old ≡ us ++ u ∷ [] → self.new ≡ us }
    {
        self.list.pop();
        remove_number(&mut self.numbers, t);
    }

    /// Puts somebody new with the name t behind all others, changed, where it stays then; tells how many memberships it has.
    pub(crate) fn change_behind(
        &mut self,
        number: u64,
        alloc: Global,
        t: &[u8],
        change: Change,
    ) -> Result<usize, NoMemory>
        requires nobody { list_any (is_there_as t.now) self.old ≡ false }
        requires order { HasEachNameOnce self.old }
        requires above { (u : Listed) → Contains self.old u → u.number < number }
        requires may { MayChange change (new_participant number t.now) }
        requires few { memberships_had (changed_value change (new_participant number t.now)) ≤ most_memberships }
        ensures changed { OnOk result (self.new ≡ put_behind self.old (changed_value change.entry (new_participant number t.now))) }
        ensures count { IfOk result (λ count. count ≡ memberships_had (changed_value change.entry (new_participant number t.now))) }
        ensures kept { OnErr result (self.new ≡ self.old) }
    {
        let at = self.list.len();
        self.push(number, alloc, t)?;
        match self.change_at(at, alloc, t, change) {
            Ok(count) => Ok(count),
            Err(wanting) => {
                self.pop(t);
                Err(wanting)
            }
        }
    }

    /// All whose names begin so have ended, and all that do not stay are taken out. Where memory is wanting, nothing is changed.
    pub(crate) fn go_all(&mut self, alloc: Global, beginning: &[u8]) -> Result<(), NoMemory>
        ensures gone { OnOk result (self.new ≡ filter stays_listed (map (gone_by beginning.now) self.old)) }
        ensures kept { OnErr result (self.new ≡ self.old) }
    {
        let index = index_of_gone(alloc, &self.list, beginning)?;
        end_all(&mut self.list, beginning);
        keep_listed(&mut self.list);
        remove_numbers(&mut self.numbers, beginning);
        self.index = index;
        self.wildcards = wildcards_of(&self.list);
        Ok(())
    }

    /// Whether a wildcard of the list is not gone.
    pub(crate) fn has_wildcards(&self) -> bool
        ensures { result ≡ list_any (λ u. is_live_wildcard u.condition) self.now }
    {
        self.wildcards > 0
    }

    /// The members that do not run, and the tasks that wait.
    pub(crate) fn index(&self) -> &MemberIndex
        ensures { IsIndexOf self.now result.now }
    {
        &self.index
    }
}
