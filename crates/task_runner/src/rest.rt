// The dead tasks of a final state that no pass has named.
ghost use Rattle.std.specs.Prelude.{◌≡◌, ◌↔◌, ◌++◌, ◌⊎◌, true, false, Any, Contains, IfOk, IsTrue};
ghost use Rattle.armus_base.specs.calls.Statuses.{IsInOrder};
ghost use Rattle.report.specs.NamedDead.{AreSomeDead, AreTheDead};
ghost use Rattle.task_runner.specs.calls.DetectRuns.{told, IsNoWrite};
ghost use Rattle.task_runner.specs.inside.Rests.{TellsRest, IsNamedIn};

use crate::{RunEnd, RunOptions};
use adaptive::{Wanted, analyse};
use armus_base::{Dead, List, NoMemory, Sink, Status, TaskId, write_text};
use report::live_lines;
use std::alloc::Global;

/// With `live`, writes a line for each dead task of the statuses that was not told, in order.
pub(crate) fn tell_rest<K: Sink>(
    alloc: Global,
    blocked: &[Status],
    dead: &[Dead],
    options: &RunOptions,
    out: &mut K,
) -> Result<(), RunEnd>
    requires in_order { IsInOrder blocked.now }
    requires some { AreSomeDead blocked.now dead.now }
    ensures told { options.now.live ≡ true → TellsRest blocked.now dead.now (told K.taken K.faults out.old) (told K.taken K.faults out.new) result }
    ensures silent { options.now.live ≡ false → (out.new ≡ out.old) × IsNoWrite result }
{
    if !options.live {
        return Ok(());
    }
    let rest = rest_of(alloc, blocked, dead, options.wanted)?;
    let lines = live_lines(alloc, rest.as_slice())?;
    write_text(out, lines.as_slice())?;
    Ok(())
}

// The dead tasks of the statuses that were not told, in order, each with its event.
fn rest_of(
    alloc: Global,
    blocked: &[Status],
    told: &[Dead],
    wanted: Wanted,
) -> Result<List<Dead>, NoMemory>
    requires in_order { IsInOrder blocked.now }
    requires some { AreSomeDead blocked.now told.now }
    ensures rest { IfOk result (λ rest. AreTheDead blocked.now (told.now ++ rest)) }
{
    let dead = analyse(alloc, blocked, wanted)?.dead;
    let mut rest = Vec::new(alloc);
    for status in blocked {
        if is_new(dead.as_slice(), told, rest.as_slice(), status.t) {
            rest.push(Dead {
                t: status.t,
                event: status.event,
            })?;
        }
    }
    Ok(List::from_vec(rest))
}

// Whether a task is dead and neither told nor among the rest.
fn is_new(dead: &[TaskId], told: &[Dead], rest: &[Dead], t: TaskId) -> bool
    ensures new { result ≡ true → Contains dead.now t × (IsNamedIn (told.now ++ rest.now) t → ⊥) }
    ensures old { result ≡ false → (Contains dead.now t → ⊥) ⊎ IsNamedIn (told.now ++ rest.now) t }
{
    if !is_among(dead, t) {
        return false;
    }
    if is_named(told, t) {
        return false;
    }
    !is_named(rest, t)
}

// Whether the list has this task.
fn is_among(dead: &[TaskId], t: TaskId) -> bool
    ensures { IsTrue result ↔ Any (λ u. u ≡ t) dead.now }
{
    dead.iter().any(|u| *u == t)
}

// Whether one of these is this task.
fn is_named(dead: &[Dead], t: TaskId) -> bool
    ensures { IsTrue result ↔ Any (λ d. d.t ≡ t) dead.now }
{
    dead.iter().any(|d| d.t == t)
}
