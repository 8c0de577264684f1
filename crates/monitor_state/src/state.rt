// The state of a monitor.
ghost use Rattle.std.specs.Prelude.{◌≡◌, ◌+◌, ◌<◌, ◌≤◌, ℕ, Contains, IfOk, IfSome, IfNone, OnOk, OnErr, List, [], true, false, Some, Option, ◌||◌, bytes_eq, find, is_some, length, nat_le, nat_lt};
ghost use Rattle.std.specs.List.{list_any};
ghost use Rattle.std.specs.Option.{option_copied, option_map};
ghost use Rattle.monitor_laws.specs.Lines.{Announces, AreGone, PlaysAny, PlaysOneOf};
ghost use Rattle.monitor_laws.specs.Faults.{faults_of, first_fault, has_no_room, is_wildcard_in, memberships_in, most_listed, most_memberships, participant_in};
ghost use Rattle.monitor_laws.specs.States.{after_line, changed_at, is_live_wildcard, is_there_as, nobody_named, task_numbers};
ghost use Rattle.trace_lines.specs.Values.{line_value, place_value, said_value};
ghost use Rattle.monitor_laws.specs.Lawful.{AreAscending, IsLawfulState};
ghost use Rattle.monitor_state.specs.Taking.{taken_state};
ghost use Rattle.trace_lines.specs.inside.Reading.{spaced_words};
ghost use Rattle.monitor_state.specs.Indexes.{IsIndexOf};
ghost use Rattle.monitor_words.specs.calls.FaultValues.{fault_of_line};
ghost use Rattle.monitor_state.specs.inside.FirstFaults.{first_of_two, many_fault};
ghost use Rattle.monitor_state.specs.inside.FirstPlaces.{IsFirstAt};
ghost use Rattle.monitor_state.specs.inside.Numbers.{IsPlaceOfName};
ghost use Rattle.monitor_state.specs.inside.Changes.{IsOfLine, MayChange, changed_value, memberships_had};

use crate::change::Change;
use crate::faults::{announced_fault, any_fault, is_wildcard_there, one_of_fault};
use crate::goes::memberships_of;
use crate::listing::Listing;
use crate::players::task_numbers;
use crate::{ListedCondition, ListedParticipant, MemberIndex};
use armus_base::NoMemory;
use monitor_words::FaultOfLine;
use std::alloc::Global;
use std::marker::Model;
use trace_lines::{Announcement, TraceLine, split_word};

// How many tasks and wildcards, and how many memberships, the list has at most.
const MOST_LISTED: usize = 65536;

const MOST_MEMBERSHIPS: usize = 1048576;

/// The list of tasks and wildcards, in the order in which they were first named, and how many were ever named.
#[derive(Drop)]
pub struct MonitorState {
    listing: Listing,
    named: u64,
    memberships: usize,
}

impl Model for MonitorState {
    ghost use Rattle.monitor_laws.specs.States.{TraceState};
    ghost use Rattle.monitor_state.specs.inside.States.{IsMonitorState};

    ghost Value = { TraceState };

    ghost view = { λ s. record { list = s.listing; named = s.named } };

    ghost invariant = { λ s. IsMonitorState (record { list = s.listing; named = s.named }) s.memberships };
}

impl MonitorState {
    /// Nobody was named.
    pub fn new(alloc: Global) -> MonitorState
        ensures { result ≡ nobody_named }
    {
        MonitorState {
            listing: Listing::new(alloc),
            named: 0,
            memberships: 0,
        }
    }

    /// The tasks and wildcards, in the order in which they were first named.
    pub fn participants(&self) -> &[ListedParticipant]
        ensures list { result.now ≡ self.now.list }
        ensures lawful { IsLawfulState self.now }
        ensures ascending { AreAscending self.now.list }
        ensures few { memberships_in self.now ≤ most_memberships }
        ensures short { length self.now.list ≤ most_listed }
    {
        self.listing.as_slice()
    }

    /// The members of phasers that do not run, and the tasks that wait there, by phase.
    pub fn index(&self) -> &MemberIndex
        ensures members { IsIndexOf self.now.list result.now }
        ensures lawful { IsLawfulState self.now }
    {
        let _ = &self.memberships;
        self.listing.index()
    }

    /// Whether a wildcard of the list is not gone.
    pub fn has_wildcards(&self) -> bool
        ensures { result ≡ list_any (λ u. is_live_wildcard u.condition) self.now.list }
    {
        let _ = &self.memberships;
        self.listing.has_wildcards()
    }

    #[tactic(none)]
    // Who is there with the name t, at its place, is changed, or comes by this line. Where memory is wanting, or 2^64 were named, nothing is changed.
    fn change(
        &mut self,
        alloc: Global,
        t: &[u8],
        at: Option<usize>,
        change: Change,
    ) -> Result<(), NoMemory>
        requires place { IsPlaceOfName self.old.list t.now at }
        requires line { IsOfLine self.old (changed_at t.now (changed_value change) self.old) }
        requires may { MayChange change (participant_in self.old t.now) }
        requires space { has_no_room self.old t.now ≡ false }
        requires few { memberships_in self.old + memberships_had (changed_value change (participant_in self.old t.now)) ≤ most_memberships + memberships_had (participant_in self.old t.now) }
        ensures changed { OnOk result (self.new ≡ changed_at t.now (changed_value change.entry) self.old) }
        ensures kept { OnErr result (self.new ≡ self.old) }
    {
        match at {
            Some(at) => {
                let before = self.listing.one_at(at).memberships_had();
                let after = self.listing.change_at(at, alloc, t, change)?;
                self.memberships = self.memberships - before + after;
                Ok(())
            }
            None => {
                let named = self.named.checked_add(1).ok_or(NoMemory)?;
                let after = self.listing.change_behind(self.named, alloc, t, change)?;
                self.named = named;
                self.memberships += after;
                Ok(())
            }
        }
    }

    // Whether the list has as many as it may.
    fn is_full(&self) -> bool
        ensures { result ≡ nat_le most_listed (length self.now.list) }
    {
        MOST_LISTED <= self.listing.as_slice().len()
    }

    // Whether there are as many memberships as there may be.
    fn has_most(&self) -> bool
        ensures { result ≡ nat_le most_memberships (memberships_in self.now) }
    {
        MOST_MEMBERSHIPS <= self.memberships
    }

    /// Where in the list who is there with the name t stands; none where nobody is there with it.
    pub fn place_of(&self, t: &[u8]) -> Option<usize>
        ensures place { IsPlaceOfName self.now.list t.now result }
        ensures at { IfSome result (IsFirstAt (is_there_as t.now) self.now.list) }
        ensures none { IfNone result (list_any (is_there_as t.now) self.now.list ≡ false) }
    {
        let _ = &self.memberships;
        self.listing.place_of(t)
    }

    /// Who is there with the name t, if somebody is.
    pub fn participant_there(&self, t: &[u8]) -> Option<&ListedParticipant>
        ensures listed { IfSome result (λ u. Contains self.now.list u.now) }
        ensures there { IfSome result (λ u. is_there_as t.now u.now ≡ true) }
        ensures none { IfNone result (list_any (is_there_as t.now) self.now.list ≡ false) }
    {
        match self.place_of(t) {
            None => None,
            Some(at) => Some(self.listing.one_at(at)),
        }
    }

    // Who is there, where a place is given: whoever has the name whose place it is.
    fn found(&self, at: Option<usize>) -> Option<&ListedParticipant>
        requires { IfSome at (λ i. i < length self.now.list) }
        ensures { (t : List ℕ) → IsPlaceOfName self.now.list t at → option_copied result ≡ find (is_there_as t) self.now.list }
    {
        match at {
            None => None,
            Some(at) => Some(self.listing.one_at(at)),
        }
    }

    // The first fault of what t announces.
    fn announced_fault<'a>(
        &self,
        t: &'a [u8],
        at: Option<usize>,
        what: &Announcement<'a>,
        is_placed: bool,
    ) -> Option<FaultOfLine<'a>>
        requires place { IsPlaceOfName self.now.list t.now at }
        ensures { (place : Option (List ℕ)) → is_some place ≡ is_placed → option_map fault_of_line result ≡ first_fault self.now (Some (Announces t.now (said_value what.now) place)) }
    {
        let _ = &self.memberships;
        announced_fault(
            t,
            self.found(at),
            what,
            is_placed,
            self.is_full(),
            self.has_most(),
        )
    }

    // A task or wildcard announces something of itself, with a place or none.
    fn announce(
        &mut self,
        alloc: Global,
        t: &[u8],
        at: Option<usize>,
        what: &Announcement,
        place: Option<&[u8]>,
    ) -> Result<(), NoMemory>
        requires place { IsPlaceOfName self.old.list t.now at }
        requires legal { faults_of self.old (Announces t.now (said_value what.now) (place_value place)) ≡ [] }
        ensures taken { OnOk result (self.new ≡ after_line self.old (Announces t.now (said_value what.now) (place_value place.entry))) }
        ensures kept { OnErr result (self.new ≡ self.old) }
    {
        let _ = &self.memberships;
        self.change(alloc, t, at, Change::Says(what, place))
    }

    // The first fault of a line by which any task may play the wildcard w.
    fn any_fault<'a>(&self, w: &'a [u8]) -> Option<FaultOfLine<'a>>
        ensures { option_map fault_of_line result ≡ first_fault self.now (Some (PlaysAny w.now)) }
    {
        let _ = &self.memberships;
        any_fault(w, self.found(self.place_of(w)), self.is_full())
    }

    // Any task may play the wildcard w.
    fn play_any(&mut self, alloc: Global, w: &[u8]) -> Result<(), NoMemory>
        requires legal { faults_of self.old (PlaysAny w.now) ≡ [] }
        ensures taken { OnOk result (self.new ≡ after_line self.old (PlaysAny w.now)) }
        ensures kept { OnErr result (self.new ≡ self.old) }
    {
        let _ = &self.memberships;
        let at = self.place_of(w);
        self.change(alloc, w, at, Change::Plays(ListedCondition::AnyTask))
    }

    // All whose names begin so have ended.
    fn go_all(&mut self, alloc: Global, beginning: &[u8]) -> Result<(), NoMemory>
        ensures gone { OnOk result (self.new ≡ after_line self.old (AreGone beginning.now)) }
        ensures kept { OnErr result (self.new ≡ self.old) }
    {
        self.listing.go_all(alloc, beginning)?;
        self.memberships = memberships_of(self.listing.as_slice());
        Ok(())
    }

    // Whether a wildcard is there with the name t.
    fn is_wildcard(&self, t: &[u8]) -> bool
        ensures { result ≡ is_wildcard_in self.now t.now }
    {
        let _ = &self.memberships;
        is_wildcard_there(self.found(self.place_of(t)))
    }

    // Whether the name t may not be one of those who may play w: it is w, or a wildcard is there with it.
    fn is_misnamed(&self, w: &[u8], t: &[u8]) -> bool
        ensures { result ≡ (bytes_eq w.now t.now || is_wildcard_in self.now t.now) }
    {
        w == t || self.is_wildcard(t)
    }

    // The first of the names that is w or one of a wildcard that is there.
    fn first_misnamed<'a>(&self, w: &[u8], names: &'a [u8]) -> Option<&'a [u8]>
        ensures { option_copied result ≡ find (λ t. bytes_eq w.now t || is_wildcard_in self.now t) (spaced_words names.now) }
    {
        let mut rest = Some(names);
        while let Some(bytes) = rest {
            let (word, behind) = split_word(bytes);
            if self.is_misnamed(w, word) {
                return Some(word);
            }
            rest = behind;
        }
        None
    }

    // The first fault of a line by which one of these tasks may play the wildcard w, apart from its memberships.
    fn one_of_fault<'a>(&self, w: &'a [u8], names: &'a [u8]) -> Option<FaultOfLine<'a>>
        ensures first { first_fault self.now (Some (PlaysOneOf w.now (spaced_words names.now))) ≡ first_of_two (option_map fault_of_line result) (many_fault (nat_lt most_memberships (memberships_in (after_line self.now (PlaysOneOf w.now (spaced_words names.now)))))) }
        ensures space { IfNone result (has_no_room self.now w.now ≡ false) }
    {
        let _ = &self.memberships;
        one_of_fault(
            w,
            self.found(self.place_of(w)),
            self.first_misnamed(w, names),
            self.is_full(),
        )
    }

    // Whether there are more memberships than there may be where w is a wildcard that has so many tasks.
    fn has_too_many(&self, w: &[u8], count: usize) -> bool
        ensures { (names : List (List ℕ)) → count ≡ length (task_numbers self.now names) → result ≡ nat_lt most_memberships (memberships_in (after_line self.now (PlaysOneOf w.now names))) }
    {
        let _ = &self.memberships;
        if MOST_MEMBERSHIPS < count {
            return true;
        }
        match self.listing.place_of(w) {
            None => MOST_MEMBERSHIPS < self.memberships + count,
            Some(at) => {
                let u = self.listing.one_at(at);
                let others = self.memberships - u.memberships_had();
                MOST_MEMBERSHIPS < others + u.memberships().len() + count
            }
        }
    }

    // One of these tasks may play the wildcard w.
    fn play(
        &mut self,
        alloc: Global,
        w: &[u8],
        names: &[u8],
        numbers: Vec<u64>,
    ) -> Result<(), NoMemory>
        requires numbers { numbers.items ≡ task_numbers self.old (spaced_words names.now) }
        requires few { memberships_in (after_line self.old (PlaysOneOf w.now (spaced_words names.now))) ≤ most_memberships }
        requires space { has_no_room self.old w.now ≡ false }
        ensures taken { OnOk result (self.new ≡ after_line self.old (PlaysOneOf w.now (spaced_words names.now))) }
        ensures kept { OnErr result (self.new ≡ self.old) }
    {
        let _ = &self.memberships;
        let names = Vec::from_slice(alloc, names)?;
        let at = self.place_of(w);
        self.change(
            alloc,
            w,
            at,
            Change::Plays(ListedCondition::OneOf(names, numbers)),
        )?;
        Ok(())
    }

    // Takes an announcement, or tells its first fault.
    fn take_announcement<'a>(
        &mut self,
        alloc: Global,
        t: &'a [u8],
        what: &Announcement<'a>,
        place: Option<&[u8]>,
    ) -> Result<Option<FaultOfLine<'a>>, NoMemory>
        ensures fault { IfOk result (λ fault. option_map fault_of_line fault ≡ first_fault self.old (Some (Announces t.now (said_value what.now) (place_value place.entry)))) }
        ensures taken { IfOk result (λ fault. self.new ≡ taken_state self.old (Announces t.now (said_value what.now) (place_value place.entry)) (option_map fault_of_line fault)) }
        ensures kept { OnErr result (self.new ≡ self.old) }
    {
        let at = self.place_of(t);
        match self.announced_fault(t, at, what, place.is_some()) {
            Some(fault) => Ok(Some(fault)),
            None => {
                self.announce(alloc, t, at, what, place)?;
                Ok(None)
            }
        }
    }

    // Takes a line by which any task may play the wildcard w, or tells its first fault.
    fn take_any<'a>(
        &mut self,
        alloc: Global,
        w: &'a [u8],
    ) -> Result<Option<FaultOfLine<'a>>, NoMemory>
        ensures fault { IfOk result (λ fault. option_map fault_of_line fault ≡ first_fault self.old (Some (PlaysAny w.now))) }
        ensures taken { IfOk result (λ fault. self.new ≡ taken_state self.old (PlaysAny w.now) (option_map fault_of_line fault)) }
        ensures kept { OnErr result (self.new ≡ self.old) }
    {
        match self.any_fault(w) {
            Some(fault) => Ok(Some(fault)),
            None => {
                self.play_any(alloc, w)?;
                Ok(None)
            }
        }
    }

    // Takes a line by which one of these tasks may play the wildcard w, where only its memberships may be at fault, or tells that fault.
    fn take_players<'a>(
        &mut self,
        alloc: Global,
        w: &[u8],
        names: &[u8],
    ) -> Result<Option<FaultOfLine<'a>>, NoMemory>
        requires space { has_no_room self.old w.now ≡ false }
        ensures fault { IfOk result (λ fault. option_map fault_of_line fault ≡ many_fault (nat_lt most_memberships (memberships_in (after_line self.old (PlaysOneOf w.now (spaced_words names.now)))))) }
        ensures taken { IfOk result (λ fault. self.new ≡ taken_state self.old (PlaysOneOf w.now (spaced_words names.now)) (option_map fault_of_line fault)) }
        ensures kept { OnErr result (self.new ≡ self.old) }
    {
        let numbers = task_numbers(&self.listing, alloc, names)?;
        if self.has_too_many(w, numbers.len()) {
            return Ok(Some(FaultOfLine::TooManyMemberships));
        }
        self.play(alloc, w, names, numbers)?;
        Ok(None)
    }

    // Takes a line by which one of these tasks may play the wildcard w, or tells its first fault.
    fn take_one_of<'a>(
        &mut self,
        alloc: Global,
        w: &'a [u8],
        names: &'a [u8],
    ) -> Result<Option<FaultOfLine<'a>>, NoMemory>
        ensures fault { IfOk result (λ fault. option_map fault_of_line fault ≡ first_fault self.old (Some (PlaysOneOf w.now (spaced_words names.now)))) }
        ensures taken { IfOk result (λ fault. self.new ≡ taken_state self.old (PlaysOneOf w.now (spaced_words names.now)) (option_map fault_of_line fault)) }
        ensures kept { OnErr result (self.new ≡ self.old) }
    {
        match self.one_of_fault(w, names) {
            Some(fault) => Ok(Some(fault)),
            None => self.take_players(alloc, w, names),
        }
    }

    /// Takes a line, or tells its first fault; by a fault, and where memory is wanting or 2^64 - 1 were named, nothing is changed.
    pub fn take_line<'a>(
        &mut self,
        alloc: Global,
        line: &TraceLine<'a>,
    ) -> Result<Option<FaultOfLine<'a>>, NoMemory>
        ensures fault { IfOk result (λ fault. option_map fault_of_line fault ≡ first_fault self.old (Some (line_value line.now))) }
        ensures taken { IfOk result (λ fault. self.new ≡ taken_state self.old (line_value line.now) (option_map fault_of_line fault)) }
        ensures kept { OnErr result (self.new ≡ self.old) }
    {
        match line {
            TraceLine::SaysNothing | TraceLine::AsksReport | TraceLine::AsksList => Ok(None),
            TraceLine::AreGone(beginning) => {
                self.go_all(alloc, beginning)?;
                Ok(None)
            }
            TraceLine::Announces(t, what, place) => {
                self.take_announcement(alloc, t, what, *place)
            }
            TraceLine::PlaysAny(w) => self.take_any(alloc, w),
            TraceLine::PlaysOneOf(w, names) => self.take_one_of(alloc, w, names),
        }
    }
}
