// The lines of a report, each appended to a text.
ghost use Rattle.std.specs.Prelude.{◌≡◌, ◌++◌, OnOk, codes, decimal};
ghost use Rattle.pl_syntax.specs.Printed.{line};
ghost use Rattle.report.specs.Words.{task_word, event_word};
ghost use Rattle.report.specs.Lines.{counts_line, task_line, task_lines, cycle_line, graph_name, graph_line};

use crate::counts::StandingCounts;
use crate::standing::Standing;
use adaptive::Used;
use armus_base::{Event, TaskId};
use std::alloc::{AllocError, Global};

// A word, and a number.
fn put_count(alloc: Global, out: &mut Vec<u8>, word: &str, count: usize) -> Result<(), AllocError>
    ensures { OnOk result (out.new.items ≡ out.old.items ++ (word.now ++ decimal count)) }
{
    let text = format!(in alloc; "{word}{count}")?;
    out.extend_from_slice(text.as_bytes())
}

// The line that counts how the tasks stand.
pub(crate) fn put_counts(
    alloc: Global,
    out: &mut Vec<u8>,
    counts: &StandingCounts,
) -> Result<(), AllocError>
    ensures { OnOk result (out.new.items ≡ out.old.items ++ counts_line counts.now) }
{
    put_count(alloc, out, "tasks ", counts.tasks)?;
    put_count(alloc, out, " done ", counts.done)?;
    put_count(alloc, out, " dead ", counts.dead)?;
    put_count(alloc, out, " held ", counts.held)?;
    put_count(alloc, out, " refused ", counts.refused)?;
    put_count(alloc, out, " unforked ", counts.unforked)?;
    out.extend_from_slice(b"\n")
}

// The line of a task that waits or was refused.
fn put_event(
    alloc: Global,
    out: &mut Vec<u8>,
    t: usize,
    word: &str,
    event: Event,
) -> Result<(), AllocError>
    ensures { OnOk result
        (out.new.items ≡ out.old.items ++ line (task_word t ++ codes " " ++ word.now ++ codes " " ++ event_word event)) }
{
    let p = event.p.0;
    let n = event.n;
    let text = format!(in alloc; "t{t} {word} p{p}@{n}\n")?;
    out.extend_from_slice(text.as_bytes())
}

// The line of a task that no task has forked.
fn put_unforked(alloc: Global, out: &mut Vec<u8>, t: usize) -> Result<(), AllocError>
    ensures { OnOk result (out.new.items ≡ out.old.items ++ line (task_word t ++ codes " unforked")) }
{
    let text = format!(in alloc; "t{t} unforked\n")?;
    out.extend_from_slice(text.as_bytes())
}

// The line of a task, if it is not done.
fn put_task(
    alloc: Global,
    out: &mut Vec<u8>,
    t: usize,
    standing: &Standing,
) -> Result<(), AllocError>
    ensures { OnOk result (out.new.items ≡ out.old.items ++ task_line t standing.now) }
{
    match *standing {
        Standing::Done => Ok(()),
        Standing::Dead(event) => put_event(alloc, out, t, "dead", event),
        Standing::Held(event) => put_event(alloc, out, t, "held", event),
        Standing::Refused(event) => put_event(alloc, out, t, "refused", event),
        Standing::Unforked => put_unforked(alloc, out, t),
    }
}

// The lines of the tasks that are not done.
pub(crate) fn put_tasks(
    alloc: Global,
    out: &mut Vec<u8>,
    standings: &[Standing],
) -> Result<(), AllocError>
    ensures { OnOk result (out.new.items ≡ out.old.items ++ task_lines standings.now) }
{
    for (t, standing) in standings.iter().enumerate() {
        put_task(alloc, out, t, standing)?;
    }
    Ok(())
}

// A space, and a task.
fn put_member(alloc: Global, out: &mut Vec<u8>, task: TaskId) -> Result<(), AllocError>
    ensures { OnOk result (out.new.items ≡ out.old.items ++ codes " " ++ task_word task.0) }
{
    let t = task.0;
    let text = format!(in alloc; " t{t}")?;
    out.extend_from_slice(text.as_bytes())
}

// The line of a cycle.
pub(crate) fn put_cycle(
    alloc: Global,
    out: &mut Vec<u8>,
    cycle: &[TaskId],
) -> Result<(), AllocError>
    ensures { OnOk result (out.new.items ≡ out.old.items ++ cycle_line cycle.now) }
{
    out.extend_from_slice(b"cycle")?;
    for task in cycle {
        put_member(alloc, out, *task)?;
    }
    out.extend_from_slice(b"\n")
}

// The short name of a graph.
fn graph_name(used: Used) -> &'static str
    ensures { result.now ≡ graph_name used }
{
    match used {
        Used::Wfg => "wfg",
        Used::Sg => "sg",
        Used::Grg => "grg",
    }
}

// The line of the graph.
pub(crate) fn put_graph(
    alloc: Global,
    out: &mut Vec<u8>,
    used: Used,
    edges: u64,
) -> Result<(), AllocError>
    ensures { OnOk result (out.new.items ≡ out.old.items ++ graph_line used edges) }
{
    let name = graph_name(used);
    let text = format!(in alloc; "graph {name} {edges}\n")?;
    out.extend_from_slice(text.as_bytes())
}
