// The first circle through a task, along those for whom tasks wait: a search in breadth.
ghost use Rattle.std.specs.Prelude.{◌≡◌, ◌<◌, ◌+◌, ◌++◌, ◌∷◌, [], List, All, AllPairs, Contains, IfOk, MatchBool, OnOk, length, option_to_list, slice_index_or};
ghost use Rattle.armus_base.specs.declared.ids.TaskId.{TaskId};
ghost use Rattle.explain_deadlock.specs.Circles.{IsFirstThrough};
ghost use Rattle.explain_deadlock.specs.Verdicts.{HasFollower, deadlocked_in, followers_of};
ghost use Rattle.explain_deadlock.specs.inside.Searches.{AreWays, HasCircle, HasWays, IsFollower, IsLooking, IsSearched};
ghost use Rattle.explain_tasks.specs.Nexts.{next_of};
ghost use Rattle.explain_tasks.specs.calls.Fitting.{FactsFitPlan};
ghost use Rattle.pl_core.specs.calls.Worlds.{state_of};

use armus_base::{NoMemory, TaskId};
use explain_tasks::{Facts, Impeder, is_deadlocked};
use pl_core::World;
use std::alloc::Global;

// The tasks to which a search has come, in this order, and for each at which place of the queue the task stands from which the search has come to it.
#[derive(Drop)]
struct Search {
    queue: Vec<TaskId>,
    parents: Vec<usize>,
    // for each task whether the search has come to it
    seen: Vec<bool>,
}

// The deadlocked tasks of these impeders.
fn deadlocked_in(facts: &Facts, impeders: &[Impeder]) -> Result<Vec<TaskId>, NoMemory>
    ensures { IfOk result (λ v. v.items ≡ deadlocked_in facts.now impeders.now) }
{
    let mut all = Vec::new(facts.alloc());
    for impeder in impeders {
        if is_deadlocked(facts.situation(impeder.t)) {
            all.push(impeder.t)?;
        }
    }
    Ok(all)
}

// The next of a task, if it has one.
fn next_alone(facts: &Facts, world: &World, t: TaskId) -> Result<Vec<TaskId>, NoMemory>
    requires fits { FactsFitPlan facts.now world.now.plan }
    ensures { IfOk result (λ v. v.items ≡ option_to_list (next_of facts.now (state_of world.now).phases t.0)) }
{
    let mut all = Vec::new(facts.alloc());
    match facts.next(world, t)? {
        Some(next) => all.push(next)?,
        None => {}
    }
    Ok(all)
}

// For whom a task waits, in order of number.
fn followers_of(facts: &Facts, world: &World, t: TaskId) -> Result<Vec<TaskId>, NoMemory>
    requires fits { FactsFitPlan facts.now world.now.plan }
    ensures { IfOk result (λ v. v.items ≡ followers_of facts.now (state_of world.now).phases t.0) }
{
    if !is_deadlocked(facts.situation(t)) {
        return next_alone(facts, world, t);
    }
    let impeders = facts.impeders(world, t)?;
    deadlocked_in(facts, &impeders)
}

// Whether a task stands in a list.
fn is_in(tasks: &[TaskId], t: TaskId) -> bool
    ensures { MatchBool result (Contains tasks.now t) (¬ Contains tasks.now t) }
{
    for u in tasks {
        if u.0 == t.0 {
            return true;
        }
    }
    false
}

// A search that has come to a task alone, of so many tasks.
fn search_at(alloc: Global, tasks: u32, t: TaskId) -> Result<Search, NoMemory>
    requires inside { t.0 < tasks }
    ensures sized { IfOk result (λ s. length s.seen.items ≡ tasks) }
    ensures searched { (next : TaskId → List TaskId) → IfOk result (λ s. IsSearched next t 0 [] s.queue.items s.parents.items s.seen.items) }
{
    let mut queue = Vec::new(alloc);
    let mut parents = Vec::new(alloc);
    let mut seen = vec![in alloc; false; tasks as usize]?;
    queue.push(t)?;
    parents.push(0)?;
    seen[t.0 as usize] = true;
    Ok(Search {
        queue,
        parents,
        seen,
    })
}

// The search looks at a follower of the task at this place: it comes to it, unless it has come to it before.
fn look_at(search: &mut Search, at: usize, u: TaskId) -> Result<(), NoMemory>
    requires inside { u.0 < length search.old.seen.items }
    ensures sized { OnOk result (length search.new.seen.items ≡ length search.old.seen.items) }
    ensures looked { (next : TaskId → List TaskId) (t : TaskId) (followers looked : List TaskId) → IsLooking next t at followers looked search.old →
        IsFollower followers looked u → OnOk result (IsLooking next t at followers (looked ++ u ∷ []) search.new) }
{
    if search.seen[u.0 as usize] {
        return Ok(());
    }
    search.queue.push(u)?;
    search.parents.push(at)?;
    search.seen[u.0 as usize] = true;
    Ok(())
}

// The search looks at each of these tasks, which are the followers of the one at this place.
fn look_at_all(search: &mut Search, at: usize, followers: &[TaskId]) -> Result<(), NoMemory>
    requires inside { All (λ u. u.0 < length search.old.seen.items) followers.now }
    requires ascend { AllPairs (λ u v. u.0 < v.0) followers.now }
    ensures sized { OnOk result (length search.new.seen.items ≡ length search.old.seen.items) }
    ensures looked { (next : TaskId → List TaskId) (t : TaskId) → IsLooking next t at followers.now [] search.old →
        OnOk result (IsLooking next t at followers.now followers.now search.new) }
{
    for u in followers {
        look_at(search, at, *u)?;
    }
    Ok(())
}

// The tasks by way of which the search has come to the one at this place, from the first one on.
fn way_to(alloc: Global, search: &Search, place: usize) -> Result<Vec<TaskId>, NoMemory>
    requires ways { HasWays search.now }
    requires inside { place < length search.now.queue.items }
    ensures { (t : TaskId) (ways : List (List TaskId)) → AreWays t search.now.queue.items search.now.parents.items ways →
        IfOk result (λ v. v.items ≡ t ∷ slice_index_or ways place []) }
{
    let mut way = Vec::new(alloc);
    let mut at = place;
    'back: while at != 0 {
        way.push(search.queue[at])?;
        at = search.parents[at];
    }
    way.push(search.queue[0])?;
    way.reverse();
    Ok(way)
}

/// The first circle through a task that stands in one.
pub(crate) fn first_circle(facts: &Facts, world: &World, t: TaskId) -> Result<Vec<TaskId>, NoMemory>
    requires fits { FactsFitPlan facts.now world.now.plan }
    requires inside { t.0 < length world.now.plan.parents }
    requires circle { HasCircle (HasFollower facts.now (state_of world.now).phases) t }
    ensures { IfOk result (λ v. IsFirstThrough (HasFollower facts.now (state_of world.now).phases) t v.items) }
{
    let mut search = search_at(facts.alloc(), world.plan().tasks(), t)?;
    let mut at = 0;
    'search: while at < search.queue.len() {
        let followers = followers_of(facts, world, search.queue[at])?;
        if is_in(&followers, t) {
            return way_to(facts.alloc(), &search, at);
        }
        look_at_all(&mut search, at, &followers)?;
        at += 1;
    }
    unreachable!()
}
