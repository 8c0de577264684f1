// How far tasks are from a task that stops them.
ghost use Rattle.std.specs.Prelude.{◌≡◌, ◌<◌, [], ℕ, List, None, IfOk, is_some, length, replicate};
ghost use Rattle.monitor_search.specs.Known.{has_stuck_number};
ghost use Rattle.monitor_reasons.specs.inside.Distances.{AreLevels, AreSearched, distance_at};
ghost use Rattle.monitor_reasons.specs.inside.PhaserPlaces.{ArePhaserPlaces, HaveWildcardPlaces, places_numbered};
ghost use Rattle.monitor_reasons.specs.inside.Reaching.{passed_on};

use crate::phaser_places::PhaserPlaces;
use crate::reaching::{DistanceSearch, reach_level};
use armus_base::NoMemory;
use monitor_search::StuckTasks;
use monitor_state::MonitorState;
use std::alloc::Global;
use std::collections::HashMap;
use std::mem;

// No distance is known.
fn none_known(alloc: Global, count: usize) -> Result<Vec<Option<usize>>, NoMemory>
    ensures { IfOk result (λ v. v.items ≡ replicate count None) }
{
    let mut distances = Vec::new(alloc);
    for _turn in 0..count {
        distances.push(None)?;
    }
    Ok(distances)
}

// Nothing is reached.
fn search_begun<'a>(alloc: Global, count: usize) -> Result<DistanceSearch<'a>, NoMemory>
    ensures distances { IfOk result (λ search. search.distances.items ≡ replicate count None) }
    ensures fresh { IfOk result (λ search. search.fresh.items ≡ []) }
    ensures passed { IfOk result (λ search. (q : List ℕ) → passed_on search q ≡ None) }
{
    let distances = none_known(alloc, count)?;
    Ok(DistanceSearch {
        distances,
        fresh: Vec::new(alloc),
        passed: HashMap::new(alloc),
    })
}

// Takes out the places that are fresh.
fn take_fresh(search: &mut DistanceSearch, alloc: Global) -> Vec<usize>
    ensures fresh { result ≡ search.old.fresh }
    ensures left { search.new.fresh.items ≡ [] }
    ensures distances { search.new.distances ≡ search.old.distances }
    ensures passed { search.new.passed ≡ search.old.passed }
{
    mem::replace(&mut search.fresh, Vec::new(alloc))
}

// Whether the task at a place has a distance.
fn has_distance(search: &DistanceSearch, task: usize) -> bool
    requires { task < length search.now.distances.items }
    ensures { result ≡ is_some (distance_at search.now.distances.items task) }
{
    search.distances[task].is_some()
}

/// How far tasks are from a task.
#[derive(Drop)]
pub(crate) struct FoundDistances<'p> {
    /// The distance of each place of the list, where it is known.
    pub(crate) distances: Vec<Option<usize>>,
    /// The place of the task itself, and behind it for each distance, from 0 on, the places that have it.
    pub(crate) levels: Vec<Vec<usize>>,
    /// Where the wildcards stand that one task alone may play, by its number.
    pub(crate) wildcards: &'p HashMap<u64, Vec<usize>>,
}

// The distances that were found, with these levels and wildcards.
fn found_distances<'p>(
    search: DistanceSearch,
    levels: Vec<Vec<usize>>,
    wildcards: &'p HashMap<u64, Vec<usize>>,
) -> FoundDistances<'p>
    ensures distances { result.distances ≡ search.entry.distances }
    ensures levels { result.levels ≡ levels }
    ensures wildcards { result.wildcards.now ≡ wildcards.now }
{
    let DistanceSearch {
        distances,
        fresh: _,
        passed: _,
    } = search;
    FoundDistances {
        distances,
        levels,
        wildcards,
    }
}

/// How far each task is from the task at a place, as far as a circle of it needs that.
pub(crate) fn distances_to<'p>(
    alloc: Global,
    state: &MonitorState,
    places: &'p PhaserPlaces<'_>,
    stuck: &StuckTasks,
    task: usize,
) -> Result<FoundDistances<'p>, NoMemory>
    requires place { task < length state.now.list }
    requires places { ArePhaserPlaces state.now.list places.now }
    ensures searched { IfOk result (λ found. AreSearched state.now (has_stuck_number stuck.now) task found.distances.items) }
    ensures levels { IfOk result (λ found. AreLevels task found.distances.items found.levels.items) }
    ensures wildcards { IfOk result (λ found. HaveWildcardPlaces state.now.list (places_numbered found.wildcards.now)) }
{
    let list = state.participants();
    let mut search = search_begun(alloc, list.len())?;
    let mut levels = Vec::new(alloc);
    let mut behind = Vec::new(alloc);
    behind.push(task)?;
    for d in 0..list.len() {
        if behind.as_slice().is_empty() {
            return Ok(found_distances(search, levels, &places.wildcards));
        }
        reach_level(&mut search, places, list, stuck, &behind, d)?;
        levels.push(behind)?;
        if has_distance(&search, task) {
            return Ok(found_distances(search, levels, &places.wildcards));
        }
        behind = take_fresh(&mut search, alloc);
    }
    Ok(found_distances(search, levels, &places.wildcards))
}
