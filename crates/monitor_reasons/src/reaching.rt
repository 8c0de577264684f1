// One level more of the tasks that are stopped by others.
ghost use Rattle.std.specs.Prelude.{◌≡◌, ◌<◌, ◌&&◌, ◌++◌, ◌∷◌, [], ◌==◌, ℕ, All, Contains, List, None, Some, true, false, OnOk, bytes_eq, if◌then◌else◌, length};
ghost use Rattle.std.specs.List.{list_any};
ghost use Rattle.monitor_laws.specs.States.{Waiting};
ghost use Rattle.monitor_laws.specs.Stuck.{has_phase_below, is_phase_below};
ghost use Rattle.monitor_state.specs.NumberedLists.{AreAscending};
ghost use Rattle.monitor_words.specs.Stops.{keeps_waiting, lone_task, stands_for};
ghost use Rattle.monitor_search.specs.Known.{has_stuck_number};
ghost use Rattle.monitor_reasons.specs.Found.{participant_at};
ghost use Rattle.monitor_reasons.specs.inside.Distances.{distance_at, stops_at};
ghost use Rattle.monitor_reasons.specs.inside.Listings.{listing};
ghost use Rattle.monitor_reasons.specs.inside.PhaserPlaces.{ArePhaserPlaces, HaveWaitingPlaces, places_named};
ghost use Rattle.monitor_reasons.specs.inside.Reaching.{HavePassedDistances, IsFilling, HasDistance, passed_on};

use crate::phaser_places::PhaserPlaces;
use crate::stopping::{keeps_waiting, stands_for};
use armus_base::NoMemory;
use monitor_search::StuckTasks;
use monitor_state::{ListedParticipant, PhaserMembership};
use std::collections::HashMap;

/// How far tasks are, as far as that is known.
#[derive(Drop)]
pub(crate) struct DistanceSearch<'a> {
    /// The distance of each place of the list, where it is known.
    pub(crate) distances: Vec<Option<usize>>,
    /// The places that have got a distance at this level.
    pub(crate) fresh: Vec<usize>,
    /// For a phaser the phase above which all who wait there have a distance.
    pub(crate) passed: HashMap<&'a [u8], u32>,
}

// Whether w keeps whoever stands at this place waiting, and it has no distance.
fn may_reach(
    search: &DistanceSearch,
    list: &[ListedParticipant],
    w: &ListedParticipant,
    place: usize,
) -> bool
    requires long { length search.now.distances.items ≡ length list.now }
    ensures on { result ≡ true → (place < length list.now) × (distance_at search.now.distances.items place ≡ None) × (keeps_waiting w.now (participant_at list.now place) ≡ true) }
    ensures off { result ≡ false → place < length list.now → keeps_waiting w.now (participant_at list.now place) ≡ true → HasDistance search.now place }
{
    if place >= list.len() {
        return false;
    }
    if search.distances[place].is_some() {
        return false;
    }
    keeps_waiting(w, &list[place])
}

// Whoever stands at this place gets the distance d, where w keeps it waiting and it has none.
fn reach(
    search: &mut DistanceSearch,
    list: &[ListedParticipant],
    w: &ListedParticipant,
    place: usize,
    d: usize,
) -> Result<(), NoMemory>
    requires long { length search.old.distances.items ≡ length list.now }
    ensures fills { OnOk result (IsFilling search.old search.new d (λ t. keeps_waiting w.now (participant_at list.now t))) }
    ensures reached { OnOk result (place < length list.now → keeps_waiting w.now (participant_at list.now place) ≡ true → HasDistance search.new place) }
    ensures passed { OnOk result (search.new.passed ≡ search.old.passed) }
{
    if !may_reach(search, list, w, place) {
        return Ok(());
    }
    search.fresh.push(place)?;
    search.distances[place] = Some(d);
    Ok(())
}

// Those at these places get the distance d whom w keeps waiting.
fn reach_all(
    search: &mut DistanceSearch,
    list: &[ListedParticipant],
    w: &ListedParticipant,
    places: &[usize],
    d: usize,
) -> Result<(), NoMemory>
    requires long { length search.old.distances.items ≡ length list.now }
    ensures fills { OnOk result (IsFilling search.old search.new d (λ t. keeps_waiting w.now (participant_at list.now t))) }
    ensures reached { OnOk result ((t : ℕ) → Contains places.now t → t < length list.now → keeps_waiting w.now (participant_at list.now t) ≡ true → HasDistance search.new t) }
    ensures passed { OnOk result (search.new.passed ≡ search.old.passed) }
{
    for place in places {
        reach(search, list, w, *place, d)?;
    }
    Ok(())
}

// Whether all have a distance who wait at phaser p for a phase above m.
fn is_passed(search: &DistanceSearch, p: &[u8], m: u32) -> bool
    ensures { result ≡ true → (n : ℕ) → m < n → is_phase_below (passed_on search.now p.now) n ≡ true }
{
    match search.passed.get(p) {
        None => false,
        Some(k) => *k <= m,
    }
}

// Notes that all have a distance who wait at phaser p for a phase above m.
fn pass<'a>(search: &mut DistanceSearch<'a>, p: &'a [u8], m: u32) -> Result<(), NoMemory>
    ensures passed { OnOk result ((q : List ℕ) → passed_on search.new q ≡ (if bytes_eq p.now q then Some m else passed_on search.old q)) }
    ensures distances { OnOk result (search.new.distances ≡ search.old.distances) }
    ensures fresh { OnOk result (search.new.fresh ≡ search.old.fresh) }
{
    search.passed.insert(p, m)?;
    Ok(())
}

// Those who wait at phaser p get the distance d whom w keeps waiting, which has the phase m there.
fn reach_above<'a>(
    search: &mut DistanceSearch<'a>,
    places: &PhaserPlaces,
    list: &[ListedParticipant],
    w: &ListedParticipant,
    p: &'a [u8],
    d: usize,
) -> Result<(), NoMemory>
    requires long { length search.old.distances.items ≡ length list.now }
    requires waiting { HaveWaitingPlaces list.now (places_named places.now.waiting) }
    ensures fills { OnOk result (IsFilling search.old search.new d (λ t. keeps_waiting w.now (participant_at list.now t))) }
    ensures reached { OnOk result ((t : ℕ) (n : ℕ) → t < length list.now → (participant_at list.now t).condition ≡ Waiting p.now n → has_phase_below w.now p.now n ≡ true → HasDistance search.new t) }
    ensures passed { OnOk result (search.new.passed ≡ search.old.passed) }
{
    match places.waiting.get(p) {
        None => Ok(()),
        Some(group) => {
            reach_all(search, list, w, group, d)?;
            Ok(())
        }
    }
}

// Those who wait at phaser p get the distance d whom w keeps waiting.
fn reach_at<'a>(
    search: &mut DistanceSearch<'a>,
    places: &PhaserPlaces,
    list: &[ListedParticipant],
    w: &ListedParticipant,
    p: &'a [u8],
    d: usize,
) -> Result<(), NoMemory>
    requires long { length search.old.distances.items ≡ length list.now }
    requires waiting { HaveWaitingPlaces list.now (places_named places.now.waiting) }
    requires passed { HavePassedDistances list.now search.old }
    ensures fills { OnOk result (IsFilling search.old search.new d (λ t. keeps_waiting w.now (participant_at list.now t))) }
    ensures reached { OnOk result ((t : ℕ) (n : ℕ) → t < length list.now → (participant_at list.now t).condition ≡ Waiting p.now n → has_phase_below w.now p.now n ≡ true → HasDistance search.new t) }
    ensures passed { OnOk result (HavePassedDistances list.now search.new) }
{
    match w.phase_on(p) {
        None => Ok(()),
        Some(m) => {
            if is_passed(search, p, m) {
                return Ok(());
            }
            reach_above(search, places, list, w, p, d)?;
            pass(search, p, m)?;
            Ok(())
        }
    }
}

// Those who wait at the phaser of a membership get the distance d whom w keeps waiting, where its phase there is not above that of the membership.
fn reach_on<'a>(
    search: &mut DistanceSearch<'a>,
    places: &PhaserPlaces,
    list: &[ListedParticipant],
    w: &ListedParticipant,
    membership: &'a PhaserMembership,
    d: usize,
) -> Result<(), NoMemory>
    requires long { length search.old.distances.items ≡ length list.now }
    requires waiting { HaveWaitingPlaces list.now (places_named places.now.waiting) }
    requires passed { HavePassedDistances list.now search.old }
    ensures fills { OnOk result (IsFilling search.old search.new d (λ t. keeps_waiting w.now (participant_at list.now t))) }
    ensures reached { OnOk result ((t : ℕ) (n : ℕ) → t < length list.now → (participant_at list.now t).condition ≡ Waiting membership.now.0 n → has_phase_below w.now membership.now.0 n ≡ true → membership.now.1 < n → HasDistance search.new t) }
    ensures passed { OnOk result (HavePassedDistances list.now search.new) }
{
    if is_passed(search, membership.phaser(), membership.phase()) {
        return Ok(());
    }
    reach_at(search, places, list, w, membership.phaser(), d)?;
    Ok(())
}

// All get the distance d whom w keeps waiting.
fn reach_by<'a>(
    search: &mut DistanceSearch<'a>,
    places: &PhaserPlaces,
    list: &[ListedParticipant],
    w: &'a ListedParticipant,
    d: usize,
) -> Result<(), NoMemory>
    requires long { length search.old.distances.items ≡ length list.now }
    requires waiting { HaveWaitingPlaces list.now (places_named places.now.waiting) }
    requires passed { HavePassedDistances list.now search.old }
    ensures fills { OnOk result (IsFilling search.old search.new d (λ t. keeps_waiting w.now (participant_at list.now t))) }
    ensures reached { OnOk result ((t : ℕ) → t < length list.now → keeps_waiting w.now (participant_at list.now t) ≡ true → HasDistance search.new t) }
    ensures passed { OnOk result (HavePassedDistances list.now search.new) }
{
    for membership in w.memberships().as_slice() {
        reach_on(search, places, list, w, membership, d)?;
    }
    Ok(())
}

// All get the distance d whom whoever stands at this place keeps waiting, where it stands for u.
fn reach_for<'a>(
    search: &mut DistanceSearch<'a>,
    places: &PhaserPlaces,
    list: &'a [ListedParticipant],
    u: &ListedParticipant,
    place: usize,
    d: usize,
) -> Result<(), NoMemory>
    requires long { length search.old.distances.items ≡ length list.now }
    requires waiting { HaveWaitingPlaces list.now (places_named places.now.waiting) }
    requires passed { HavePassedDistances list.now search.old }
    ensures fills { OnOk result (IsFilling search.old search.new d (λ t. list_any (λ w. stands_for w u.now && keeps_waiting w (participant_at list.now t)) list.now)) }
    ensures reached { OnOk result ((t : ℕ) → t < length list.now → place < length list.now → stands_for (participant_at list.now place) u.now ≡ true → keeps_waiting (participant_at list.now place) (participant_at list.now t) ≡ true → HasDistance search.new t) }
    ensures passed { OnOk result (HavePassedDistances list.now search.new) }
{
    if place >= list.len() {
        return Ok(());
    }
    if !stands_for(&list[place], u) {
        return Ok(());
    }
    reach_by(search, places, list, &list[place], d)?;
    Ok(())
}

// All get the distance d whom those at these places keep waiting who stand for u.
fn reach_by_all<'a>(
    search: &mut DistanceSearch<'a>,
    places: &PhaserPlaces,
    list: &'a [ListedParticipant],
    u: &ListedParticipant,
    these: &[usize],
    d: usize,
) -> Result<(), NoMemory>
    requires long { length search.old.distances.items ≡ length list.now }
    requires waiting { HaveWaitingPlaces list.now (places_named places.now.waiting) }
    requires passed { HavePassedDistances list.now search.old }
    ensures fills { OnOk result (IsFilling search.old search.new d (λ t. list_any (λ w. stands_for w u.now && keeps_waiting w (participant_at list.now t)) list.now)) }
    ensures reached { OnOk result ((t i : ℕ) → t < length list.now → Contains these.now i → i < length list.now → stands_for (participant_at list.now i) u.now ≡ true → keeps_waiting (participant_at list.now i) (participant_at list.now t) ≡ true → HasDistance search.new t) }
    ensures passed { OnOk result (HavePassedDistances list.now search.new) }
{
    for place in these {
        reach_for(search, places, list, u, *place, d)?;
    }
    Ok(())
}

// All get the distance d whom the wildcards keep waiting that u alone may play.
fn reach_by_played<'a>(
    search: &mut DistanceSearch<'a>,
    places: &PhaserPlaces,
    list: &'a [ListedParticipant],
    u: &ListedParticipant,
    d: usize,
) -> Result<(), NoMemory>
    requires long { length search.old.distances.items ≡ length list.now }
    requires places { ArePhaserPlaces list.now places.now }
    requires passed { HavePassedDistances list.now search.old }
    ensures fills { OnOk result (IsFilling search.old search.new d (λ t. list_any (λ w. stands_for w u.now && keeps_waiting w (participant_at list.now t)) list.now)) }
    ensures reached { OnOk result ((t i : ℕ) → t < length list.now → i < length list.now → list_any (λ k. k == u.now.number) (lone_task (participant_at list.now i).condition) ≡ true → keeps_waiting (participant_at list.now i) (participant_at list.now t) ≡ true → HasDistance search.new t) }
    ensures passed { OnOk result (HavePassedDistances list.now search.new) }
{
    match places.wildcards.get(&u.number()) {
        None => Ok(()),
        Some(group) => {
            reach_by_all(search, places, list, u, group, d)?;
            Ok(())
        }
    }
}

// All get the distance d whom somebody who stands for the task at a place keeps waiting.
fn reach_from<'a>(
    search: &mut DistanceSearch<'a>,
    places: &PhaserPlaces,
    list: &'a [ListedParticipant],
    place: usize,
    d: usize,
) -> Result<(), NoMemory>
    requires long { length search.old.distances.items ≡ length list.now }
    requires place { place < length list.now }
    requires ascending { AreAscending list.now }
    requires places { ArePhaserPlaces list.now places.now }
    requires passed { HavePassedDistances list.now search.old }
    ensures fills { OnOk result (IsFilling search.old search.new d (λ t. list_any (λ w. stands_for w (participant_at list.now place) && keeps_waiting w (participant_at list.now t)) list.now)) }
    ensures reached { OnOk result ((t : ℕ) → t < length list.now → list_any (λ w. stands_for w (participant_at list.now place) && keeps_waiting w (participant_at list.now t)) list.now ≡ true → HasDistance search.new t) }
    ensures passed { OnOk result (HavePassedDistances list.now search.new) }
{
    let u = &list[place];
    reach_by(search, places, list, u, d)?;
    reach_by_played(search, places, list, u, d)?;
    Ok(())
}

// All get the distance d whom the task at this place stops.
fn reach_stopped<'a>(
    search: &mut DistanceSearch<'a>,
    places: &PhaserPlaces,
    list: &'a [ListedParticipant],
    stuck: &StuckTasks,
    u: usize,
    d: usize,
) -> Result<(), NoMemory>
    requires long { length search.old.distances.items ≡ length list.now }
    requires place { u < length list.now }
    requires ascending { AreAscending list.now }
    requires places { ArePhaserPlaces list.now places.now }
    requires passed { HavePassedDistances list.now search.old }
    ensures fills { OnOk result (IsFilling search.old search.new d (stops_at (listing list.now) (has_stuck_number stuck.now) u)) }
    ensures reached { OnOk result ((t : ℕ) → t < length list.now → stops_at (listing list.now) (has_stuck_number stuck.now) u t ≡ true → HasDistance search.new t) }
    ensures passed { OnOk result (HavePassedDistances list.now search.new) }
{
    if !stuck.has_number(list[u].number()) {
        return Ok(());
    }
    reach_from(search, places, list, u, d)?;
    Ok(())
}

/// All get the distance d whom the tasks at these places stop.
pub(crate) fn reach_level<'a>(
    search: &mut DistanceSearch<'a>,
    places: &PhaserPlaces,
    list: &'a [ListedParticipant],
    stuck: &StuckTasks,
    behind: &[usize],
    d: usize,
) -> Result<(), NoMemory>
    requires long { length search.old.distances.items ≡ length list.now }
    requires behind { All (λ u. u < length list.now) behind.now }
    requires ascending { AreAscending list.now }
    requires places { ArePhaserPlaces list.now places.now }
    requires passed { HavePassedDistances list.now search.old }
    ensures fills { OnOk result (IsFilling search.old search.new d (λ t. list_any (λ u. stops_at (listing list.now) (has_stuck_number stuck.now) u t) behind.now)) }
    ensures reached { OnOk result ((t u : ℕ) → t < length list.now → Contains behind.now u → stops_at (listing list.now) (has_stuck_number stuck.now) u t ≡ true → HasDistance search.new t) }
    ensures passed { OnOk result (HavePassedDistances list.now search.new) }
{
    for u in behind {
        reach_stopped(search, places, list, stuck, *u, d)?;
    }
    Ok(())
}
