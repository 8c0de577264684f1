// What the crates answer to statuses, as text.
use adaptive::{Analysis, Used, Wanted, analyse, dead_by, dead_of};
use armus_base::{List, NoMemory, Status, TaskId};
use dep_state::{DepState, is_in_order, picked};
use resource_graph::ResourceGraph;
use state_graph::{SgEnd, StateGraph};
use std::alloc::Global;
use tests_rows::{add_event, add_tasks, task_and_event};
use verdict::{Cycle, check_cycle};
use wait_graph::WaitGraph;

// The tasks, the events, whose event is which, who waits for whom, and whom impedes each event.
pub(crate) fn relations(alloc: Global, list: &[Status]) -> Result<String, NoMemory> {
    let mut text = String::new(alloc);
    if !is_in_order(list) {
        text.push_str("no order")?;
        return Ok(text);
    }
    let deps = DepState::of(alloc, list)?;
    add_relations(&mut text, &deps)?;
    Ok(text)
}

fn add_relations(text: &mut String, deps: &DepState) -> Result<(), NoMemory> {
    for t in 0..4 {
        if let Some(event) = deps.awaits(TaskId(t)) {
            add_event(text, event)?;
        }
        add_tasks(text, deps.waits_for(TaskId(t)))?;
        text.push_str("; ")?;
    }
    for event in deps.events() {
        add_event(text, *event)?;
        add_tasks(text, deps.impeders(*event))?;
        text.push_str("; ")?;
    }
    Ok(())
}

// The dead, by no graph and by the general resource graph.
pub(crate) fn dead(alloc: Global, list: &[Status]) -> Result<String, NoMemory> {
    let mut text = String::new(alloc);
    if is_in_order(list) {
        add_tasks(&mut text, dead_of(alloc, list)?.as_slice())?;
        text.push_str("; ")?;
        add_tasks(&mut text, dead_by(alloc, list, Wanted::Grg)?.as_slice())?;
    }
    Ok(text)
}

// The edges and the dead of each graph.
pub(crate) fn graphs(alloc: Global, list: &[Status]) -> Result<String, NoMemory> {
    let mut text = String::new(alloc);
    if is_in_order(list) {
        let deps = DepState::of(alloc, list)?;
        add_wait(alloc, &mut text, &deps)?;
        add_state(alloc, &mut text, &deps)?;
        add_resource(alloc, &mut text, &deps)?;
        add_bounded(alloc, &mut text, &deps)?;
    }
    Ok(text)
}

fn add_wait(alloc: Global, text: &mut String, deps: &DepState) -> Result<(), NoMemory> {
    let graph = WaitGraph::build(alloc, deps)?;
    write!(text, "wfg {} ", graph.edges())?;
    add_tasks(text, graph.dead(alloc)?.as_slice())?;
    Ok(())
}

fn add_state(alloc: Global, text: &mut String, deps: &DepState) -> Result<(), NoMemory> {
    let graph = StateGraph::build(alloc, deps)?;
    write!(text, "sg {} ", graph.edges())?;
    add_tasks(text, graph.dead(alloc)?.as_slice())?;
    Ok(())
}

fn add_resource(alloc: Global, text: &mut String, deps: &DepState) -> Result<(), NoMemory> {
    let graph = ResourceGraph::build(alloc, deps)?;
    write!(text, "grg {} ", graph.edges())?;
    add_tasks(text, graph.dead(alloc)?.as_slice())?;
    Ok(())
}

fn add_bounded(alloc: Global, text: &mut String, deps: &DepState) -> Result<(), NoMemory> {
    match StateGraph::build_bounded(alloc, deps) {
        Ok(graph) => write!(text, "{} ", graph.edges())?,
        Err(SgEnd::Left { k, edges }) => write!(text, "left {k} {edges} ")?,
        Err(SgEnd::NoMemory) => return Err(NoMemory),
    }
    Ok(())
}

// The graph that is used, its edges and the dead, under each choice.
pub(crate) fn choices(alloc: Global, list: &[Status]) -> Result<String, NoMemory> {
    let mut text = String::new(alloc);
    if is_in_order(list) {
        for wanted in [Wanted::Auto, Wanted::Wfg, Wanted::Sg, Wanted::Grg] {
            add_analysis(&mut text, &analyse(alloc, list, wanted)?)?;
        }
    }
    Ok(text)
}

fn add_analysis(text: &mut String, analysis: &Analysis) -> Result<(), NoMemory> {
    let graph = match analysis.used {
        Used::Wfg => "wfg",
        Used::Sg => "sg",
        Used::Grg => "grg",
    };
    write!(text, "{graph} {} ", analysis.edges)?;
    add_tasks(text, analysis.dead.as_slice())?;
    text.push_str("; ")?;
    Ok(())
}

// The cycle that the text tells: tasks with events.
fn links(alloc: Global, text: &str) -> Result<Cycle, NoMemory> {
    let mut tasks = List::new(alloc);
    let mut events = List::new(alloc);
    for part in text.split(",") {
        if !part.trim().is_empty() {
            let (t, event) = task_and_event(part);
            tasks.push(t)?;
            events.push(event)?;
        }
    }
    Ok(Cycle { tasks, events })
}

// Whether the text tells a cycle of the statuses.
pub(crate) fn cycle(alloc: Global, list: &[Status], text: &str) -> Result<String, NoMemory> {
    let cycle = links(alloc, text)?;
    let told = if check_cycle(&cycle, list) {
        "yes"
    } else {
        "no"
    };
    Ok(String::from_str(alloc, told)?)
}

// The tasks that are picked.
pub(crate) fn picks(alloc: Global) -> Result<String, NoMemory> {
    let mut text = String::new(alloc);
    let tasks = [TaskId(0), TaskId(1), TaskId(2)];
    let list = picked(alloc, tasks.as_slice(), [false, true, true].as_slice())?;
    add_tasks(&mut text, list.as_slice())?;
    Ok(text)
}
