// Where a task waits.
ghost use Rattle.std.specs.Prelude.{◌≡◌, ◌<◌, IfOk, length, option_map, Ok};
ghost use Rattle.armus_base.specs.declared.ending.TaskEnd.TheVariants.{Blocked};
ghost use Rattle.armus_base.specs.CheckedPlans.{IsCheckedPlan};
ghost use Rattle.armus_base.specs.Finals.{end_of};
ghost use Rattle.armus_base.specs.Places.{done_by};
ghost use Rattle.armus_base.specs.Runs.{IsReachable};
ghost use Rattle.source_map.specs.Origins.{op_origin, statement_in, written_statements};
ghost use Rattle.source_map.specs.Turns.{op_turns};
ghost use Rattle.source_map.specs.inside.Tables.{coming_of};
ghost use Rattle.pl_core.specs.calls.Worlds.{places_of, state_of};
ghost use Rattle.pl_plan.specs.Unfolding.{plan_of};
ghost use Rattle.explain_facts.specs.Accounts.{IsWaiting, placed_turns, words_of};
ghost use Rattle.explain_facts.specs.AwaitWords.{await_text};
ghost use Rattle.explain_facts.specs.calls.Known.{AreKnownFacts, kept_layout};

use crate::account::{Turn, Waiting};
use crate::facts::TextFacts;
use crate::words::put_await;
use armus_base::{Event, List, NoMemory, Offset, TaskId};
use pl_core::World;
use pl_syntax::{Name, Stmt};
use std::alloc::Global;

// The words of an await.
fn await_text(alloc: Global, x: &Name, off: Offset) -> Result<List<u8>, NoMemory>
    ensures { IfOk result (λ words. words ≡ await_text x.now off) }
{
    let mut out = Vec::new(alloc);
    put_await(alloc, &mut out, x, off)?;
    Ok(List::from_vec(out))
}

/// The words of a statement, if it is an await.
pub(crate) fn words_of(alloc: Global, stmt: Option<&Stmt>) -> Result<List<u8>, NoMemory>
    ensures { IfOk result (λ words. words ≡ words_of (option_map (λ s. coming_of s.now) stmt.entry)) }
{
    match stmt {
        Some(Stmt::Await { x, off }) => await_text(alloc, x, *off),
        _ => Ok(List::new(alloc)),
    }
}

// The turns of op i of a task, with the places of their loops.
fn turns_of(facts: &TextFacts<'_>, t: TaskId, i: u32) -> Result<List<Turn>, NoMemory>
    requires { AreKnownFacts facts.now }
    ensures { IfOk result (λ turns. turns ≡ placed_turns (kept_layout facts.now) (op_turns facts.now.program.now t.0 i)) }
{
    let found = facts.origins.turns(facts.alloc, facts.program, t, i)?;
    let mut turns = Vec::with_capacity(facts.alloc, found.as_slice().len())?;
    for turn in found.as_slice() {
        turns.push(Turn {
            turn: turn.turn,
            at: facts.statement(turn.statement),
        })?;
    }
    Ok(List::from_vec(turns))
}

// Where a task waits for this event in a world.
pub(crate) fn waiting_of(
    facts: &TextFacts<'_>,
    world: &World<'_>,
    t: TaskId,
    event: Event,
) -> Result<Waiting, NoMemory>
    requires known { AreKnownFacts facts.now }
    requires unfolds { plan_of facts.now.program.now ≡ Ok world.now.plan }
    requires checked { IsCheckedPlan world.now.plan }
    requires reachable { IsReachable world.now.plan (places_of world.now) }
    requires task { t.0 < length world.now.plan.parents }
    requires waits { end_of (state_of world.now) t.0 ≡ Blocked event }
    ensures { IfOk result (IsWaiting (kept_layout facts.now) facts.now.program.now world.now.plan (state_of world.now) (done_by (places_of world.now)) t.0 event) }
{
    let op = world.op(t);
    let Some(n) = facts.origins.op(facts.program, t, op) else {
        unreachable!()
    };
    let Some(phase) = world.phase(event.p, t) else {
        unreachable!()
    };
    Ok(Waiting {
        at: facts.statement(n),
        words: words_of(facts.alloc, facts.origins.statement(n))?,
        event,
        phase,
        turns: turns_of(facts, t, op)?,
    })
}
