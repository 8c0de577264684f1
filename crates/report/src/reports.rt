// The report of a final state.
ghost use Rattle.std.specs.Prelude.{◌≡◌, ◌++◌, ◌↔◌, List, ℕ, IfOk, OnOk, IsTrue};
ghost use Rattle.armus_base.specs.DeadLists.{IsDeadList};
ghost use Rattle.armus_base.specs.calls.Statuses.{IsInOrder};
ghost use Rattle.report.specs.Reports.{IsReport, IsSomeDead};
ghost use Rattle.report.specs.inside.Appending.{AppendsCycle};

use crate::counts::counts_of;
use crate::lines::{put_counts, put_cycle, put_graph, put_tasks};
use crate::standing::standings;
use adaptive::{Wanted, analyse, dead_of};
use armus_base::{Final, List, NoMemory, Status, TaskId};
use std::alloc::Global;
use verdict::cycle;

// The line of the cycle, where a task is dead.
pub(crate) fn put_found_cycle(
    alloc: Global,
    out: &mut Vec<u8>,
    blocked: &[Status],
    dead: &[TaskId],
) -> Result<(), NoMemory>
    requires in_order { IsInOrder blocked.now }
    requires dead { IsDeadList blocked.now dead.now }
    ensures { OnOk result (AppendsCycle blocked.now out.old.items out.new.items) }
{
    match cycle(alloc, blocked, dead)? {
        None => Ok(()),
        Some(found) => {
            put_cycle(alloc, out, found.tasks.as_slice())?;
            Ok(())
        }
    }
}

/// The report of a final state, and whether a task is dead in it.
#[derive(Drop)]
pub struct FinalReport {
    /// The lines of the report.
    pub text: List<u8>,
    /// Whether a task is dead.
    pub has_dead: bool,
}

/// The report of a final state, and whether a task is dead in it, by one analysis. The graph is the wanted one, or for `Auto` the one that is chosen.
pub fn report_of(alloc: Global, end: &Final, wanted: Wanted) -> Result<FinalReport, NoMemory>
    requires { IsInOrder end.now.blocked }
    ensures text { IfOk result (λ r. IsReport end.now wanted r.text) }
    ensures dead { IfOk result (λ r. IsTrue r.has_dead ↔ IsSomeDead end.now.blocked) }
{
    let blocked = end.blocked.as_slice();
    let analysis = analyse(alloc, blocked, wanted)?;
    let dead = analysis.dead.as_slice();
    let standings = standings(alloc, end.ends.as_slice(), dead)?;
    let mut out = Vec::new(alloc);
    put_counts(alloc, &mut out, &counts_of(&standings))?;
    put_tasks(alloc, &mut out, &standings)?;
    put_found_cycle(alloc, &mut out, blocked, dead)?;
    put_graph(alloc, &mut out, analysis.used, analysis.edges)?;
    Ok(FinalReport {
        text: List::from_vec(out),
        has_dead: !dead.is_empty(),
    })
}

/// The report of a final state.
pub fn report(alloc: Global, end: &Final, wanted: Wanted) -> Result<List<u8>, NoMemory>
    requires { IsInOrder end.now.blocked }
    ensures { IfOk result (IsReport end.now wanted) }
{
    let FinalReport { text, .. } = report_of(alloc, end, wanted)?;
    Ok(text)
}

/// Whether some task of a final state is dead.
pub fn any_dead(alloc: Global, end: &Final) -> Result<bool, NoMemory>
    requires { IsInOrder end.now.blocked }
    ensures { IfOk result (λ some. IsTrue some ↔ IsSomeDead end.now.blocked) }
{
    let dead = dead_of(alloc, end.blocked.as_slice())?;
    Ok(!dead.as_slice().is_empty())
}
