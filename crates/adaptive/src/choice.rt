// Which graph is used, and what it says.
ghost use Rattle.std.specs.Prelude.{◌≡◌, ℕ, ◌<◌, List, IfOk, IsTrue};
ghost use Rattle.armus_base.specs.Graphs.{StaysSmall};
ghost use Rattle.state_graph.specs.calls.BoundedEnds.{IsFirstLarge};
ghost use Rattle.adaptive.specs.declared.analysis.Wanted.TheVariants.{Auto};
ghost use Rattle.armus_base.specs.DeadLists.{IsDeadList};
ghost use Rattle.armus_base.specs.calls.Statuses.{IsInOrder};
ghost use Rattle.armus_base.specs.declared.status.Status.{Status};
ghost use Rattle.dep_state.specs.calls.Deps.{IsDepsOf};
ghost use Rattle.state_graph.specs.calls.StateEdges.{IsStateGraphOf};
ghost use Rattle.adaptive.specs.inside.ByGraph.{IsAnalysisBy};
ghost use Rattle.adaptive.specs.calls.Choice.{IsAnalysis};
ghost use Rattle.adaptive.specs.declared.analysis.Used.TheVariants.{Wfg, Sg, Grg};

use crate::analysis::{Analysis, Used, Wanted};
use crate::dead::dead_of;
use crate::waits::count_waits;
use armus_base::{List, NoMemory, Status, TaskId};
use dep_state::DepState;
use resource_graph::ResourceGraph;
use state_graph::{SgEnd, StateGraph};
use std::alloc::Global;

// How many statuses are looked at first, where the state graph may be left.
const FIRST_STATUSES: usize = 64;

// The analysis by the wait-for graph, which is not built: its pairs are counted.
fn by_waits(alloc: Global, list: &[Status]) -> Result<Analysis, NoMemory>
    requires order { IsInOrder list.now }
    ensures { IfOk result (IsAnalysisBy list.now Wfg) }
{
    let dead = dead_of(alloc, list)?;
    let edges = count_waits(alloc, list)?;
    Ok(Analysis {
        dead,
        used: Used::Wfg,
        edges,
    })
}

// The analysis by the state graph.
fn by_states(alloc: Global, deps: &DepState, graph: &StateGraph) -> Result<Analysis, NoMemory>
    requires { IsStateGraphOf deps.now graph.now }
    ensures { (ss : List Status) → IsInOrder ss → IsDepsOf ss deps.now → IfOk result (IsAnalysisBy ss Sg) }
{
    let dead = graph.dead(alloc)?;
    let edges = graph.edges();
    Ok(Analysis {
        dead,
        used: Used::Sg,
        edges,
    })
}

// The analysis by the general resource graph.
fn by_resources(alloc: Global, deps: &DepState) -> Result<Analysis, NoMemory>
    ensures { (ss : List Status) → IsInOrder ss → IsDepsOf ss deps.now → IfOk result (IsAnalysisBy ss Grg) }
{
    let graph = ResourceGraph::build(alloc, deps)?;
    let dead = graph.dead(alloc)?;
    let edges = graph.edges();
    Ok(Analysis {
        dead,
        used: Used::Grg,
        edges,
    })
}

// Whether over some first k of these statuses the state graph has more than 2 k edges.
fn is_left(alloc: Global, first: &[Status]) -> Result<bool, NoMemory>
    requires order { IsInOrder first.now }
    ensures { IfOk result (λ left. IsTrue left → (k : ℕ) × (n : ℕ) × IsFirstLarge first.now k n) }
{
    let deps = DepState::of(alloc, first)?;
    match StateGraph::build_bounded(alloc, &deps) {
        Ok(_) => Ok(false),
        Err(SgEnd::Left { .. }) => Ok(true),
        Err(SgEnd::NoMemory) => Err(NoMemory),
    }
}

// Whether the state graph is left over a beginning of the list that is shorter than it. The beginnings are tried by length, each eight times as long as
// the one before, so together they cost less than the whole list.
fn is_left_early(alloc: Global, list: &[Status]) -> Result<bool, NoMemory>
    requires order { IsInOrder list.now }
    ensures { IfOk result (λ left. IsTrue left → StaysSmall list.now → ⊥) }
{
    let mut count = FIRST_STATUSES;
    'longer: while count < list.len() {
        if is_left(alloc, &list[..count])? {
            return Ok(true);
        }
        count *= 8;
    }
    Ok(false)
}

// The analysis by the graph of the adaptive choice.
fn by_choice(alloc: Global, list: &[Status]) -> Result<Analysis, NoMemory>
    requires order { IsInOrder list.now }
    ensures { IfOk result (IsAnalysis list.now Auto) }
{
    if is_left_early(alloc, list)? {
        return by_waits(alloc, list);
    }
    let deps = DepState::of(alloc, list)?;
    match StateGraph::build_bounded(alloc, &deps) {
        Ok(graph) => by_states(alloc, &deps, &graph),
        Err(SgEnd::Left { .. }) => by_waits(alloc, list),
        Err(SgEnd::NoMemory) => Err(NoMemory),
    }
}

/// The dead tasks of the statuses, the graph that is used, and that whole graph's number of distinct edges. `Auto` takes the state graph
/// exactly where over the first k statuses it has at most 2 k edges for every k, and the wait-for graph otherwise (the adaptive idea is of
/// PPoPP 2015, this rule is the project's own). The wait-for graph is not built: its edges are counted, in time near linear in the statuses and
/// their phases.
pub fn analyse(alloc: Global, list: &[Status], wanted: Wanted) -> Result<Analysis, NoMemory>
    requires { IsInOrder list.now }
    ensures { IfOk result (IsAnalysis list.now wanted) }
{
    match wanted {
        Wanted::Wfg => by_waits(alloc, list),
        Wanted::Sg => {
            let deps = DepState::of(alloc, list)?;
            let graph = StateGraph::build(alloc, &deps)?;
            by_states(alloc, &deps, &graph)
        }
        Wanted::Grg => {
            let deps = DepState::of(alloc, list)?;
            by_resources(alloc, &deps)
        }
        Wanted::Auto => by_choice(alloc, list),
    }
}

/// The dead tasks of the statuses, in order of number, where nothing else is asked: by the state graph or the resource
/// graph where that is wanted by name, and else without a graph.
pub fn dead_by(alloc: Global, list: &[Status], wanted: Wanted) -> Result<List<TaskId>, NoMemory>
    requires { IsInOrder list.now }
    ensures { IfOk result (IsDeadList list.now) }
{
    match wanted {
        Wanted::Auto | Wanted::Wfg => dead_of(alloc, list),
        _ => {
            let analysis = analyse(alloc, list, wanted)?;
            Ok(analysis.dead)
        }
    }
}
