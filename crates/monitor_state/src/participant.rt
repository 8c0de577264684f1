// A task or wildcard.
ghost use Rattle.std.specs.Prelude.{◌≡◌, ℕ, List, ◌||◌, ◌&&◌, ◌==◌, ◌+◌, ◌<◌, ◌≤◌, true, false, None, IfSome, IfOk, OnOk, OnErr, bytes_eq, length};
ghost use Rattle.std.specs.List.{starts_with};
ghost use Rattle.std.specs.Option.{option_copied};
ghost use Rattle.monitor_laws.specs.Lines.{Arrives, Ends, Goes, Joins, Leaves, Waits};
ghost use Rattle.monitor_laws.specs.Faults.{last_phase, most_memberships, phase_on};
ghost use Rattle.monitor_laws.specs.States.{Running, announced_by, gone_by, is_live_wildcard, is_there_as, new_participant, placed_at, stays_listed};
ghost use Rattle.monitor_members.specs.Noted.{is_noted};
ghost use Rattle.trace_lines.specs.Values.{place_value, said_value};
ghost use Rattle.monitor_state.specs.Indexes.{is_phase, is_running, rests_at, awaits_phase};
ghost use Rattle.monitor_state.specs.Values.{condition_value, kept_bytes};
ghost use Rattle.monitor_state.specs.inside.Changes.{MayAnnounce, MayChange, changed_value, memberships_had};
ghost use Rattle.monitor_state.specs.inside.Reindexing.{IsForgotten, IsIndexed, IsNotedAnew, IsNotedWhere, IsReindexed, IsSameIndex, IsSameNoted, RestsEverywhere};
ghost use Rattle.monitor_state.specs.declared.change.Change.TheVariants.{Plays};

use crate::change::Change;
use crate::places::kept_place;
use crate::{ListedCondition, MemberIndex, Memberships};
use armus_base::NoMemory;
use monitor_members::PhaserIndex;
use std::alloc::Global;
use std::marker::Model;
use trace_lines::Announcement;

/// A task or wildcard of the list.
#[derive(Drop)]
pub struct ListedParticipant {
    number: u64,
    parts: Box<ParticipantParts>,
}

// All but its number, in a place of its own, so that the list is short in memory.
#[derive(Drop)]
struct ParticipantParts {
    name: Vec<u8>,
    memberships: Memberships,
    condition: ListedCondition,
    place: Option<Vec<u8>>,
}

impl Model for ListedParticipant {
    ghost use Rattle.monitor_laws.specs.States.{Participant as Listed};
    ghost use Rattle.monitor_state.specs.Values.{condition_value, kept_bytes};

    ghost Value = { Listed };

    ghost view = { λ u. record {
      number = u.number;
      name = u.parts.value.name.items;
      phases = u.parts.value.memberships;
      condition = condition_value u.parts.value.condition;
      place = kept_bytes u.parts.value.place;
    } };
}

impl ListedParticipant {
    /// A task that runs, a member of nothing and without a place.
    pub(crate) fn new(
        alloc: Global,
        number: u64,
        name: &[u8],
    ) -> Result<ListedParticipant, NoMemory>
        ensures { IfOk result (λ u. u ≡ new_participant number name.now) }
    {
        let name = Vec::from_slice(alloc, name)?;
        let parts = ParticipantParts {
            name,
            memberships: Memberships::new(alloc),
            condition: ListedCondition::Running,
            place: None,
        };
        Ok(ListedParticipant {
            number,
            parts: Box::new(alloc, parts)?,
        })
    }

    /// How many were named before it.
    pub fn number(&self) -> u64
        ensures { result ≡ self.now.number }
    {
        self.number
    }

    /// Its name.
    pub fn name(&self) -> &[u8]
        ensures { result.now ≡ self.now.name }
    {
        &self.parts.name
    }

    /// The phasers of which it is a member, in the order in which it joined them.
    pub fn memberships(&self) -> &Memberships
        ensures { result.now ≡ self.now.phases }
    {
        &self.parts.memberships
    }

    /// Its phase on phaser p, where it is a member of it.
    pub fn phase_on(&self, p: &[u8]) -> Option<u32>
        ensures { result ≡ phase_on self.now p.now }
    {
        self.parts.memberships.phase_on(p)
    }

    /// In which condition it is.
    pub fn condition(&self) -> &ListedCondition
        ensures { condition_value result.now ≡ self.now.condition }
    {
        &self.parts.condition
    }

    /// The last place that a line of it had.
    pub fn place(&self) -> Option<&[u8]>
        ensures { option_copied result ≡ self.now.place }
    {
        match &self.parts.place {
            None => None,
            Some(place) => Some(place),
        }
    }

    /// Whether it is there with the name t: as a task that has not ended, or as a wildcard.
    pub fn is_there_as(&self, t: &[u8]) -> bool
        ensures { result ≡ is_there_as t.now self.now }
    {
        (self.parts.condition.is_live_task() || self.parts.condition.is_live_wildcard())
            && t == self.parts.name.as_slice()
    }

    /// Whether it stays in the list: it has not ended, or is a member of something.
    pub(crate) fn stays_listed(&self) -> bool
        ensures { result ≡ stays_listed self.now }
    {
        self.parts.condition.is_live_task()
            || self.parts.condition.is_live_wildcard()
            || self.parts.memberships.len() != 0
    }

    // Notes that it rests wherever it is a member, and waits for nothing. Where memory is wanting, nothing is changed.
    fn note_rest(&self, alloc: Global, index: &mut MemberIndex) -> Result<(), NoMemory>
        requires { IsIndexed index.old self.now }
        ensures rests { OnOk result (RestsEverywhere index.old index.new self.now) }
        ensures same { OnErr result (IsSameIndex index.old index.new) }
    {
        match &self.parts.condition {
            ListedCondition::Running => {
                self.parts
                    .memberships
                    .note_all(alloc, &mut index.resting, self.number)
            }
            ListedCondition::Waiting(p, n) => {
                index.waiting.remove(p, *n, self.number);
                Ok(())
            }
            ListedCondition::Ended | ListedCondition::AnyTask | ListedCondition::OneOf(_, _) => {
                Ok(())
            }
        }
    }

    // Notes that it waits for phase n of phaser p, and rests wherever it is a member. Where memory is wanting, nothing is changed.
    fn note_wait(
        &self,
        alloc: Global,
        index: &mut MemberIndex,
        p: &[u8],
        n: u32,
    ) -> Result<(), NoMemory>
        requires runs { self.now.condition ≡ Running }
        requires indexed { IsIndexed index.old self.now }
        ensures noted { OnOk result (IsReindexed index.old index.new (announced_by (Waits p.now n) self.now)) }
        ensures same { OnErr result (IsSameIndex index.old index.new) }
    {
        self.parts
            .memberships
            .note_all(alloc, &mut index.resting, self.number)?;
        match index.waiting.insert(alloc, p, n, self.number) {
            Ok(()) => Ok(()),
            Err(_) => {
                self.parts
                    .memberships
                    .forget_all(&mut index.resting, self.number);
                Err(NoMemory)
            }
        }
    }

    // Notes that it does not wait any more.
    fn forget_wait(&self, waiting: &mut PhaserIndex)
        requires { IsNotedWhere waiting.old self.now.number (λ q n. awaits_phase q n self.now) }
        ensures { IsNotedAnew waiting.old waiting.new self.now.number (λ q n. false) }
    {
        if let ListedCondition::Waiting(p, n) = &self.parts.condition {
            waiting.remove(p, *n, self.number);
        }
    }

    // Notes that it neither rests nor waits.
    fn forget(&self, index: &mut MemberIndex)
        requires { IsIndexed index.old self.now }
        ensures { IsForgotten index.old index.new self.now.number }
    {
        self.parts
            .memberships
            .forget_all(&mut index.resting, self.number);
        self.forget_wait(&mut index.waiting);
    }

    // Becomes a member of phaser p with phase n, where it rests.
    fn join_at_rest(
        &mut self,
        alloc: Global,
        index: &mut MemberIndex,
        p: &[u8],
        n: u32,
    ) -> Result<(), NoMemory>
        requires new { phase_on self.old p.now ≡ None }
        requires rests { is_running self.old.condition ≡ false }
        requires indexed { IsIndexed index.old self.old }
        ensures said { OnOk result (self.new ≡ announced_by (Joins p.now n) self.old) }
        ensures indexed { OnOk result (IsReindexed index.old index.new (announced_by (Joins p.now n) self.old)) }
        ensures kept { OnErr result (self.new ≡ self.old) }
        ensures same { OnErr result (IsSameIndex index.old index.new) }
    {
        index.resting.insert(alloc, p, n, self.number)?;
        match self.parts.memberships.join(alloc, p, n) {
            Ok(()) => Ok(()),
            Err(wanting) => {
                index.resting.remove(p, n, self.number);
                Err(wanting)
            }
        }
    }

    // It becomes a member of phaser p with phase n.
    fn join(
        &mut self,
        alloc: Global,
        index: &mut MemberIndex,
        p: &[u8],
        n: u32,
    ) -> Result<(), NoMemory>
        requires new { phase_on self.old p.now ≡ None }
        requires indexed { IsIndexed index.old self.old }
        ensures said { OnOk result (self.new ≡ announced_by (Joins p.now n) self.old) }
        ensures indexed { OnOk result (IsReindexed index.old index.new (announced_by (Joins p.now n) self.old)) }
        ensures kept { OnErr result (self.new ≡ self.old) }
        ensures same { OnErr result (IsSameIndex index.old index.new) }
    {
        if !self.parts.condition.is_running() {
            return self.join_at_rest(alloc, index, p, n);
        }
        self.parts.memberships.join(alloc, p, n)?;
        Ok(())
    }

    // Notes that its phase on phaser p, where it rests, rises by one. Where memory is wanting, nothing is changed.
    fn note_rise(&self, alloc: Global, resting: &mut PhaserIndex, p: &[u8]) -> Result<(), NoMemory>
        requires may { IfSome (phase_on self.now p.now) (λ m. m < last_phase) }
        requires noted { IsNotedWhere resting.old self.now.number (λ q n. is_phase (phase_on self.now q) n) }
        ensures noted { OnOk result (IsNotedAnew resting.old resting.new self.now.number (λ q n. is_phase (phase_on (announced_by (Arrives p.now) self.now) q) n)) }
        ensures same { OnErr result (IsSameNoted resting.old resting.new) }
    {
        match self.phase_on(p) {
            None => Ok(()),
            Some(m) => {
                resting.insert(alloc, p, m + 1, self.number)?;
                resting.remove(p, m, self.number);
                Ok(())
            }
        }
    }

    // Its phase on phaser p rises by one.
    fn arrive(&mut self, alloc: Global, index: &mut MemberIndex, p: &[u8]) -> Result<(), NoMemory>
        requires may { IfSome (phase_on self.old p.now) (λ m. m < last_phase) }
        requires indexed { IsIndexed index.old self.old }
        ensures said { OnOk result (self.new ≡ announced_by (Arrives p.now) self.old) }
        ensures indexed { OnOk result (IsReindexed index.old index.new (announced_by (Arrives p.now) self.old)) }
        ensures kept { OnErr result (self.new ≡ self.old) }
        ensures same { OnErr result (IsSameIndex index.old index.new) }
    {
        if !self.parts.condition.is_running() {
            self.note_rise(alloc, &mut index.resting, p)?;
        }
        self.parts.memberships.arrive(p);
        Ok(())
    }

    // Notes that it is no member of phaser p any more, where it rests.
    fn forget_phase(&self, resting: &mut PhaserIndex, p: &[u8])
        requires { IsNotedWhere resting.old self.now.number (λ q n. is_phase (phase_on self.now q) n) }
        ensures { IsNotedAnew resting.old resting.new self.now.number (λ q n. is_phase (phase_on (announced_by (Leaves p.now) self.now) q) n) }
    {
        match self.phase_on(p) {
            None => {}
            Some(m) => resting.remove(p, m, self.number),
        }
    }

    // It is no member of phaser p any more.
    fn leave(&mut self, index: &mut MemberIndex, p: &[u8])
        requires { IsIndexed index.old self.old }
        ensures said { self.new ≡ announced_by (Leaves p.now) self.old }
        ensures indexed { IsReindexed index.old index.new (announced_by (Leaves p.now) self.old) }
    {
        if !self.parts.condition.is_running() {
            self.forget_phase(&mut index.resting, p);
        }
        self.parts.memberships.leave(p);
    }

    // It waits for phase n of phaser p.
    fn wait(
        &mut self,
        alloc: Global,
        index: &mut MemberIndex,
        p: &[u8],
        n: u32,
    ) -> Result<(), NoMemory>
        requires runs { self.old.condition ≡ Running }
        requires indexed { IsIndexed index.old self.old }
        ensures said { OnOk result (self.new ≡ announced_by (Waits p.now n) self.old) }
        ensures indexed { OnOk result (IsReindexed index.old index.new (announced_by (Waits p.now n) self.old)) }
        ensures kept { OnErr result (self.new ≡ self.old) }
        ensures same { OnErr result (IsSameIndex index.old index.new) }
    {
        let phaser = Vec::from_slice(alloc, p)?;
        self.note_wait(alloc, index, p, n)?;
        self.parts.condition = ListedCondition::Waiting(phaser, n);
        Ok(())
    }

    // It does not wait any more.
    fn go(&mut self, index: &mut MemberIndex)
        requires { IsIndexed index.old self.old }
        ensures said { self.new ≡ announced_by Goes self.old }
        ensures indexed { IsReindexed index.old index.new (announced_by Goes self.old) }
    {
        self.forget(index);
        self.parts.condition = ListedCondition::Running;
    }

    // A wildcard has ended: it is a member of nothing any more.
    fn end_wildcard(&mut self, index: &mut MemberIndex)
        requires wildcard { is_live_wildcard self.old.condition ≡ true }
        requires indexed { IsIndexed index.old self.old }
        ensures said { self.new ≡ announced_by Ends self.old }
        ensures indexed { IsReindexed index.old index.new (announced_by Ends self.old) }
    {
        self.forget(index);
        self.parts.memberships.clear();
        self.parts.condition = ListedCondition::Ended;
    }

    // A task has ended.
    fn end_task(&mut self, alloc: Global, index: &mut MemberIndex) -> Result<(), NoMemory>
        requires task { is_live_wildcard self.old.condition ≡ false }
        requires indexed { IsIndexed index.old self.old }
        ensures said { OnOk result (self.new ≡ announced_by Ends self.old) }
        ensures indexed { OnOk result (IsReindexed index.old index.new (announced_by Ends self.old)) }
        ensures kept { OnErr result (self.new ≡ self.old) }
        ensures same { OnErr result (IsSameIndex index.old index.new) }
    {
        self.note_rest(alloc, index)?;
        self.parts.condition = ListedCondition::Ended;
        Ok(())
    }

    // It has ended; a wildcard is a member of nothing then.
    fn end(&mut self, alloc: Global, index: &mut MemberIndex) -> Result<(), NoMemory>
        requires indexed { IsIndexed index.old self.old }
        ensures said { OnOk result (self.new ≡ announced_by Ends self.old) }
        ensures indexed { OnOk result (IsReindexed index.old index.new (announced_by Ends self.old)) }
        ensures kept { OnErr result (self.new ≡ self.old) }
        ensures same { OnErr result (IsSameIndex index.old index.new) }
    {
        if self.parts.condition.is_live_wildcard() {
            self.end_wildcard(index);
            Ok(())
        } else {
            self.end_task(alloc, index)
        }
    }

    // What one more line of its own says.
    fn say(
        &mut self,
        alloc: Global,
        index: &mut MemberIndex,
        what: &Announcement,
    ) -> Result<(), NoMemory>
        requires may { MayAnnounce (said_value what.now) self.old }
        requires indexed { IsIndexed index.old self.old }
        ensures said { OnOk result (self.new ≡ announced_by (said_value what.now) self.old) }
        ensures indexed { OnOk result (IsReindexed index.old index.new (announced_by (said_value what.now) self.old)) }
        ensures kept { OnErr result (self.new ≡ self.old) }
        ensures same { OnErr result (IsSameIndex index.old index.new) }
    {
        match what {
            Announcement::Joins(p, n) => self.join(alloc, index, p, *n),
            Announcement::Arrives(p) => self.arrive(alloc, index, p),
            Announcement::Leaves(p) => {
                self.leave(index, p);
                Ok(())
            }
            Announcement::Waits(p, n) => self.wait(alloc, index, p, *n),
            Announcement::Goes => {
                self.go(index);
                Ok(())
            }
            Announcement::Ends => self.end(alloc, index),
            Announcement::Stands => Ok(()),
        }
    }

    /// One more line of its own, with the place that it has. Where memory is wanting, nothing is changed.
    pub(crate) fn announce(
        &mut self,
        alloc: Global,
        index: &mut MemberIndex,
        what: &Announcement,
        place: Option<&[u8]>,
    ) -> Result<(), NoMemory>
        requires may { MayAnnounce (said_value what.now) self.old }
        requires indexed { IsIndexed index.old self.old }
        ensures announced { OnOk result (self.new ≡ placed_at (place_value place.entry) (announced_by (said_value what.now) self.old)) }
        ensures indexed { OnOk result (IsReindexed index.old index.new (placed_at (place_value place.entry) (announced_by (said_value what.now) self.old))) }
        ensures kept { OnErr result (self.new ≡ self.old) }
        ensures same { OnErr result (IsSameIndex index.old index.new) }
    {
        match place {
            None => self.say(alloc, index, what),
            Some(raw) => {
                let place = kept_place(alloc, raw)?;
                self.say(alloc, index, what)?;
                self.parts.place = Some(place);
                Ok(())
            }
        }
    }

    // It is a wildcard in this condition.
    fn play(
        &mut self,
        alloc: Global,
        index: &mut MemberIndex,
        condition: ListedCondition,
    ) -> Result<(), NoMemory>
        requires wildcard { is_live_wildcard (condition_value condition) ≡ true }
        requires indexed { IsIndexed index.old self.old }
        ensures played { OnOk result (self.new ≡ changed_value (Plays condition) self.old) }
        ensures indexed { OnOk result (IsReindexed index.old index.new (changed_value (Plays condition) self.old)) }
        ensures kept { OnErr result (self.new ≡ self.old) }
        ensures same { OnErr result (IsSameIndex index.old index.new) }
    {
        self.note_rest(alloc, index)?;
        self.parts.condition = condition;
        Ok(())
    }

    /// How many memberships it has; each task that a wildcard has counts as one.
    pub(crate) fn memberships_had(&self) -> usize
        requires { memberships_had self.now ≤ most_memberships }
        ensures { result ≡ memberships_had self.now }
    {
        self.parts.memberships.len() + self.parts.condition.tasks_had()
    }

    /// What a line changes of it. Where memory is wanting, nothing is changed.
    pub(crate) fn change(
        &mut self,
        alloc: Global,
        index: &mut MemberIndex,
        change: Change,
    ) -> Result<(), NoMemory>
        requires may { MayChange change self.old }
        requires indexed { IsIndexed index.old self.old }
        ensures changed { OnOk result (self.new ≡ changed_value change.entry self.old) }
        ensures indexed { OnOk result (IsReindexed index.old index.new (changed_value change.entry self.old)) }
        ensures kept { OnErr result (self.new ≡ self.old) }
        ensures same { OnErr result (IsSameIndex index.old index.new) }
    {
        match change {
            Change::Says(what, place) => self.announce(alloc, index, what, place),
            Change::Plays(condition) => self.play(alloc, index, condition),
        }
    }

    // Notes that it waits too, if it does.
    fn note_wait_too(&self, alloc: Global, waiting: &mut PhaserIndex) -> Result<(), NoMemory>
        ensures { OnOk result ((q : List ℕ) (n j : ℕ) → is_noted waiting.new q n j ≡ (is_noted waiting.old q n j || (self.now.number == j && awaits_phase q n self.now))) }
    {
        match &self.parts.condition {
            ListedCondition::Waiting(p, n) => {
                waiting.insert(alloc, p, *n, self.number)?;
                Ok(())
            }
            _ => Ok(()),
        }
    }

    /// Notes where it rests and waits, where it has ended if its name begins so.
    pub(crate) fn note_gone(
        &self,
        alloc: Global,
        index: &mut MemberIndex,
        beginning: &[u8],
    ) -> Result<(), NoMemory>
        ensures resting { OnOk result ((q : List ℕ) (n j : ℕ) → is_noted index.new.resting q n j ≡ (is_noted index.old.resting q n j || (self.now.number == j && rests_at q n (gone_by beginning.now self.now)))) }
        ensures waiting { OnOk result ((q : List ℕ) (n j : ℕ) → is_noted index.new.waiting q n j ≡ (is_noted index.old.waiting q n j || (self.now.number == j && awaits_phase q n (gone_by beginning.now self.now)))) }
    {
        let begins = self.parts.name.as_slice().starts_with(beginning);
        if begins {
            return self
                .parts
                .memberships
                .note_too(alloc, &mut index.resting, self.number);
        }
        if self.parts.condition.is_running() {
            return Ok(());
        }
        self.note_wait_too(alloc, &mut index.waiting)?;
        self.parts
            .memberships
            .note_too(alloc, &mut index.resting, self.number)
    }

    /// It has ended where its name begins so; a wildcard too stays a member then.
    pub(crate) fn go_with(&mut self, beginning: &[u8])
        ensures { self.new ≡ gone_by beginning.now self.old }
    {
        if self.parts.name.as_slice().starts_with(beginning) {
            self.parts.condition = ListedCondition::Ended;
        }
    }
}
