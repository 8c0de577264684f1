// The statuses that remain when each is taken away whose event no remaining task impedes: those are the dead ones.
ghost use Rattle.std.specs.Prelude.{◌≡◌, ℕ, ◌+◌, ◌<◌, true, false, MatchBool, length, slice_index_or, slice_set};
ghost use Rattle.armus_base.specs.declared.status.Status.{Status};
ghost use Rattle.armus_base.specs.calls.Statuses.{IsInOrder};
ghost use Rattle.adaptive.specs.inside.Standings.{IsRemainingImpeder, IsUnimpeded, remains_at};

use crate::columns::{Column, front_of, keep_front};
use crate::front::{front_from, is_impeded_at};
use crate::standings::PhaseStanding;
use armus_base::Status;

/// The standings of a list of statuses, the columns of its awaited phasers, and which statuses remain.
#[derive(Drop)]
pub(crate) struct Remaining {
    pub(crate) standings: Vec<PhaseStanding>,
    pub(crate) columns: Vec<Column>,
    pub(crate) remains: Vec<bool>,
}

// The index of the status of a standing.
fn index_of(standing: PhaseStanding) -> usize {
    standing.status as usize
}

impl Remaining {
    ghost use Rattle.adaptive.specs.inside.Remaining.{AllImpeded, IsRemainingOf, count_remaining};

    /// Whether the event of status `k` is impeded by a task whose status remains.
    pub(crate) fn is_impeded(&mut self, list: &[Status], k: usize) -> bool
        requires kept { IsRemainingOf list.now self.old }
        requires status { k < length list.now }
        ensures kept { IsRemainingOf list.now self.new }
        ensures same { self.new.remains ≡ self.old.remains }
        ensures told { MatchBool result
            ((s : Status) → (j : ℕ) × IsRemainingImpeder list.now self.new.remains.items (slice_index_or list.now k s).event j)
            ((s : Status) → IsUnimpeded list.now self.new.remains.items (slice_index_or list.now k s).event) }
    {
        let event = list[k].event;
        let from = front_of(&self.columns, event.p);
        let front = front_from(&self.standings, &self.remains, event.p, from);
        keep_front(&mut self.columns, event.p, front);
        is_impeded_at(&self.standings, front, event)
    }

    /// Takes status `k` away, whose event no task impedes whose status remains.
    pub(crate) fn take_away(&mut self, list: &[Status], k: usize)
        requires order { IsInOrder list.now }
        requires kept { IsRemainingOf list.now self.old }
        requires status { k < length list.now }
        requires unimpeded { (s : Status) → IsUnimpeded list.now self.old.remains.items (slice_index_or list.now k s).event }
        ensures kept { IsRemainingOf list.now self.new }
        ensures gone { self.new.remains.items ≡ slice_set self.old.remains.items k false }
    {
        // the clauses alone speak of the list
        let _ = list;
        self.remains[k] = false;
    }

    // Takes status `k` away where it remains and its event is not impeded; whether it did.
    fn take_unimpeded(&mut self, list: &[Status], k: usize) -> bool
        requires order { IsInOrder list.now }
        requires kept { IsRemainingOf list.now self.old }
        requires status { k < length list.now }
        ensures kept { IsRemainingOf list.now self.new }
        ensures stays { result ≡ false → (self.new.remains ≡ self.old.remains)
            × (remains_at self.new.remains.items k ≡ true → (s : Status) → (j : ℕ) × IsRemainingImpeder list.now self.new.remains.items (slice_index_or list.now k s).event j) }
        ensures less { result ≡ true → count_remaining self.new.remains.items + 1 ≡ count_remaining self.old.remains.items }
    {
        if !self.remains[k] {
            return false;
        }
        if self.is_impeded(list, k) {
            return false;
        }
        self.take_away(list, k);
        true
    }

    /// Takes each status away whose event is not impeded when its turn comes; whether there was one.
    pub(crate) fn take_round(&mut self, list: &[Status]) -> bool
        requires order { IsInOrder list.now }
        requires kept { IsRemainingOf list.now self.old }
        ensures kept { IsRemainingOf list.now self.new }
        ensures quiet { result ≡ false → AllImpeded list.now self.new.remains.items }
        ensures less { result ≡ true → count_remaining self.new.remains.items < count_remaining self.old.remains.items }
    {
        let mut taken = false;
        for k in 0..list.len() {
            if self.take_unimpeded(list, k) {
                taken = true;
            }
        }
        taken
    }

    // The next waiter of a column that is taken away, by the index of its status.
    pub(crate) fn take_next(
        &mut self,
        list: &[Status],
        waiters: &[PhaseStanding],
        c: usize,
    ) -> Option<usize>
        requires order { IsInOrder list.now }
        requires kept { IsRemainingOf list.now self.old }
        ensures kept { IsRemainingOf list.now self.new }
    {
        if c >= self.columns.len() || self.columns[c].next >= waiters.len() {
            return None;
        }
        let waiter = waiters[self.columns[c].next];
        let k = index_of(waiter);
        if waiter.at.p != self.columns[c].p || k >= list.len() {
            return None;
        }
        if self.take_unimpeded(list, k) || !self.remains[k] {
            self.pass_waiter(list, c);
            return Some(k);
        }
        None
    }

    // The next waiter of the column is behind.
    fn pass_waiter(&mut self, list: &[Status], c: usize)
        requires kept { IsRemainingOf list.now self.old }
        ensures kept { IsRemainingOf list.now self.new }
    {
        // the clauses alone speak of the list
        let _ = list;
        if c < self.columns.len() && self.columns[c].next < usize::MAX {
            self.columns[c].next += 1;
        }
    }
}
