// The circle of a task.
ghost use Rattle.std.specs.Prelude.{◌≡◌, ℕ, ◌<◌, All, Contains, None, Some, IfOk, IfSome, IfNone, MatchOption, false, length, map};
ghost use Rattle.monitor_words.specs.Reasons.{HasNoCircle};
ghost use Rattle.monitor_words.specs.Stops.{IsFirstCircle};
ghost use Rattle.monitor_search.specs.Known.{has_stuck_number};
ghost use Rattle.monitor_reasons.specs.Found.{participant_at};
ghost use Rattle.monitor_reasons.specs.inside.Listings.{listing};
ghost use Rattle.monitor_state.specs.NumberedLists.{AreAscending};
ghost use Rattle.monitor_reasons.specs.inside.Distances.{AreLevels, AreSearched, IsFoundCircle, IsFirstNext, IsCircleWalk, distance_at, is_distance, is_next, level_at};
ghost use Rattle.monitor_reasons.specs.inside.PhaserPlaces.{HaveWildcardPlaces, places_numbered};

use crate::distances::{FoundDistances, distances_to};
use crate::phaser_places::phaser_places;
use crate::stopping::stops;
use armus_base::NoMemory;
use monitor_search::StuckTasks;
use monitor_state::{ListedParticipant, MonitorState};
use std::alloc::Global;

// Whether it is the distance n.
fn is_distance(distance: Option<usize>, n: usize) -> bool
    ensures { result ≡ is_distance distance n }
{
    match distance {
        None => false,
        Some(m) => m == n,
    }
}

// The places of the wildcards that the task with this number alone may play.
fn played_by<'p>(found: &FoundDistances<'p>, number: u64) -> &'p [usize]
    ensures { result.now ≡ places_numbered found.now.wildcards.now number }
{
    match found.wildcards.get(&number) {
        None => &[],
        Some(group) => group,
    }
}

// Whether the task at u has the distance n and stops the one at t.
fn is_next(
    list: &[ListedParticipant],
    stuck: &StuckTasks,
    found: &FoundDistances,
    n: usize,
    t: usize,
    u: usize,
) -> bool
    requires long { length found.now.distances.items ≡ length list.now }
    requires ascending { AreAscending list.now }
    requires wildcards { HaveWildcardPlaces list.now (places_numbered found.now.wildcards.now) }
    requires from { t < length list.now }
    requires to { u < length list.now }
    ensures { result ≡ is_next (listing list.now) (has_stuck_number stuck.now) found.now.distances.items n t u }
{
    if !is_distance(found.distances[u], n) {
        return false;
    }
    let played = played_by(found, list[u].number());
    stops(list, stuck, played, u, t)
}

// The places of a level, where there is one.
fn level_at(levels: &[Vec<usize>], n: usize) -> &[usize]
    ensures { result.now ≡ level_at levels.now n }
{
    match levels.get(n) {
        None => &[],
        Some(level) => level,
    }
}

// The first place that has the distance n and stops the task at t, where all that have this distance are among these.
fn next_place(
    list: &[ListedParticipant],
    stuck: &StuckTasks,
    found: &FoundDistances,
    n: usize,
    t: usize,
    level: &[usize],
) -> Option<usize>
    requires long { length found.now.distances.items ≡ length list.now }
    requires ascending { AreAscending list.now }
    requires wildcards { HaveWildcardPlaces list.now (places_numbered found.now.wildcards.now) }
    requires from { t < length list.now }
    requires all { (u : ℕ) → u < length list.now → distance_at found.now.distances.items u ≡ Some n → Contains level.now u }
    ensures at { IfSome result (IsFirstNext (listing list.now) (has_stuck_number stuck.now) found.now.distances.items n t) }
    ensures none { IfNone result ((u : ℕ) → u < length list.now → is_next (listing list.now) (has_stuck_number stuck.now) found.now.distances.items n t u ≡ false) }
{
    let mut first = list.len();
    for u in level {
        if *u < first && is_next(list, stuck, found, n, t, *u) {
            first = *u;
        }
    }
    if first < list.len() {
        return Some(first);
    }
    None
}

// The places of the first circle of the task, which has this distance.
fn walk(
    alloc: Global,
    state: &MonitorState,
    stuck: &StuckTasks,
    found: &FoundDistances,
    task: usize,
    distance: usize,
) -> Result<Vec<usize>, NoMemory>
    requires place { task < length state.now.list }
    requires searched { AreSearched state.now (has_stuck_number stuck.now) task found.now.distances.items }
    requires levels { AreLevels task found.now.distances.items found.now.levels.items }
    requires wildcards { HaveWildcardPlaces state.now.list (places_numbered found.now.wildcards.now) }
    requires distance { distance_at found.now.distances.items task ≡ Some distance }
    ensures circle { IfOk result (λ places. IsFirstCircle state.now (has_stuck_number stuck.now) (participant_at state.now.list task) (map (participant_at state.now.list) places.items)) }
    ensures places { IfOk result (λ places. All (λ i. i < length state.now.list) places.items) }
{
    let list = state.participants();
    let mut places = Vec::new(alloc);
    let mut last = task;
    let mut left = distance;
    while left > 0 {
        let level = level_at(&found.levels, left);
        left -= 1;
        match next_place(list, stuck, found, left, last, level) {
            None => unreachable!(),
            Some(next) => {
                places.push(next)?;
                last = next;
            }
        }
    }
    Ok(places)
}

/// The places of the circle of the task at a place, or that it has none.
pub(crate) fn circle_of(
    alloc: Global,
    state: &MonitorState,
    stuck: &StuckTasks,
    task: usize,
) -> Result<Option<Vec<usize>>, NoMemory>
    requires { task < length state.now.list }
    ensures { IfOk result (IsFoundCircle state.now (has_stuck_number stuck.now) task) }
{
    let places = phaser_places(alloc, state.participants())?;
    let found = distances_to(alloc, state, &places, stuck, task)?;
    match found.distances[task] {
        None => Ok(None),
        Some(distance) => {
            let places = walk(alloc, state, stuck, &found, task, distance)?;
            Ok(Some(places))
        }
    }
}
