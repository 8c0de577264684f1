// Graphs small enough to draw. A row has the number of nodes, edges that are added one after another, and the answer: which edges are new, how many there
// are, which nodes reach a cycle, and the cycle of the walk from node 0. `0 all 1` adds an edge to each of a list of one.
ghost use Rattle.std.specs.Prelude.{◌<◌, length, IfOk, IsTrue};

use armus_base::NoMemory;
use digraph::{Digraph, least_marked, walk_cycle};
use std::alloc::Global;
use std::test::Fail;
use tests_rows::{add_numbers, columns, cut, number};

const ROWS: &str = "\
3 | 0 1, 1 2, 2 1, 0 1 | new new new old 3 yes yes yes 1 2\n\
2 | 0 all 1 | 1 no no none\n\
";

fn has_node(alloc: Global, graph: &Digraph, v: u32) -> Result<bool, NoMemory>
    ensures { IfOk result (λ has. IsTrue has → v < length graph.now) }
{
    let answers = graph.reaching(alloc)?;
    Ok((v as usize) < answers.as_slice().len())
}

// Whether the edge is new.
fn added(alloc: Global, graph: &mut Digraph, a: u32, b: u32) -> Result<&'static str, NoMemory> {
    if !has_node(alloc, graph, a)? || !has_node(alloc, graph, b)? {
        return Ok("no nodes ");
    }
    Ok(if graph.add(a, b)? { "new " } else { "old " })
}

fn added_all(alloc: Global, graph: &mut Digraph, a: u32, b: u32) -> Result<&'static str, NoMemory> {
    if !has_node(alloc, graph, a)? || !has_node(alloc, graph, b)? {
        return Ok("no nodes ");
    }
    graph.add_all(a, [b].as_slice())?;
    Ok("")
}

fn add_edge(alloc: Global, graph: &mut Digraph, edge: &str) -> Result<&'static str, NoMemory> {
    if let Some((a, b)) = edge.split_once(" all ") {
        return added_all(alloc, graph, number(a), number(b));
    }
    let (a, b) = cut(edge, " ");
    added(alloc, graph, number(a), number(b))
}

fn add_answers(alloc: Global, text: &mut String, graph: &Digraph) -> Result<(), NoMemory> {
    write!(text, "{} ", graph.edges())?;
    let answers = graph.reaching(alloc)?;
    for answer in answers.as_slice() {
        text.push_str(if *answer { "yes " } else { "no " })?;
    }
    Ok(())
}

fn add_cycle(alloc: Global, text: &mut String, graph: &Digraph) -> Result<(), NoMemory> {
    if !has_node(alloc, graph, 0)? {
        return Ok(());
    }
    match graph.cycle_from(alloc, 0)? {
        Some(cycle) => add_numbers(text, cycle.as_slice())?,
        None => text.push_str("none")?,
    }
    Ok(())
}

fn answer(alloc: Global, nodes: &str, edges: &str) -> Result<String, NoMemory> {
    let mut text = String::new(alloc);
    let mut graph = Digraph::new(alloc, number(nodes))?;
    for edge in edges.split(",") {
        text.push_str(add_edge(alloc, &mut graph, edge.trim())?)?;
    }
    add_answers(alloc, &mut text, &graph)?;
    add_cycle(alloc, &mut text, &graph)?;
    Ok(text)
}

#[test]
fn rows_of_graphs(rt: HostRuntime) -> Result<(), Fail> {
    for row in ROWS.lines() {
        let (nodes, edges, wanted) = columns(row, "|");
        let found = answer(rt.alloc(), nodes.trim(), edges)?;
        assert!(rt; found.as_str().trim() == wanted.trim(), "{row}");
    }
    Ok(())
}

#[test]
fn walks_by_a_table(rt: HostRuntime) -> Result<(), Fail> {
    let next = [1, 2, 1];
    let cycle = walk_cycle(rt.alloc(), next.as_slice(), 0)?;
    assert!(rt; cycle.as_slice() == [1, 2].as_slice());
    let marks = [false, true, true];
    assert!(rt; least_marked([0, 2].as_slice(), marks.as_slice()) == Some(2));
    Ok(())
}
