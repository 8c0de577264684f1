// The account of a text whose run has ended.
ghost use Rattle.std.specs.Prelude.{◌≡◌, ℕ, ◌<◌, IfOk, Ok, OnOk, length, map, slice_index_or};
ghost use Rattle.armus_base.specs.CheckedPlans.{IsCheckedPlan};
ghost use Rattle.armus_base.specs.Finals.{end_of, list_below};
ghost use Rattle.armus_base.specs.Places.{done_by};
ghost use Rattle.armus_base.specs.Runs.{IsReachable};
ghost use Rattle.pl_core.specs.calls.Worlds.{places_of, state_of};
ghost use Rattle.pl_plan.specs.Unfolding.{plan_of};
ghost use Rattle.source_map.specs.Origins.{phaser_origins};
ghost use Rattle.explain_facts.specs.Accounts.{IsAccount, IsTaskAccount, HasWait, statement_place};
ghost use Rattle.explain_facts.specs.calls.Known.{AreKnownFacts, kept_layout};
ghost use Rattle.explain_facts.specs.inside.Facts.{AreTold};

use crate::account::{Account, TaskAccount, Waiting};
use crate::facts::TextFacts;
use crate::immediate::immediate_awaits;
use crate::nexts::nexts_of;
use crate::waiting::waiting_of;
use armus_base::{List, NoMemory, TaskEnd, TaskId};
use pl_core::World;
use source_map::TextPlace;

// Where a task waits that has ended so, if it waits.
fn wait_of(
    facts: &TextFacts<'_>,
    world: &World<'_>,
    t: TaskId,
    end: &TaskEnd,
) -> Result<Option<Waiting>, NoMemory>
    requires known { AreKnownFacts facts.now }
    requires unfolds { plan_of facts.now.program.now ≡ Ok world.now.plan }
    requires checked { IsCheckedPlan world.now.plan }
    requires reachable { IsReachable world.now.plan (places_of world.now) }
    requires task { t.0 < length world.now.plan.parents }
    requires end { end_of (state_of world.now) t.0 ≡ end.now }
    ensures { IfOk result (HasWait (kept_layout facts.now) facts.now.program.now world.now.plan (state_of world.now) (done_by (places_of world.now)) t.0 end.now) }
{
    match end {
        TaskEnd::Blocked(event) => Ok(Some(waiting_of(facts, world, t, *event)?)),
        TaskEnd::Done | TaskEnd::Refused(_) | TaskEnd::Unforked => Ok(None),
    }
}

// What is known of a task that has ended so.
fn task_account(
    facts: &TextFacts<'_>,
    world: &World<'_>,
    t: TaskId,
    end: &TaskEnd,
) -> Result<TaskAccount, NoMemory>
    requires known { AreKnownFacts facts.now }
    requires unfolds { plan_of facts.now.program.now ≡ Ok world.now.plan }
    requires checked { IsCheckedPlan world.now.plan }
    requires reachable { IsReachable world.now.plan (places_of world.now) }
    requires task { t.0 < length world.now.plan.parents }
    requires end { end_of (state_of world.now) t.0 ≡ end.now }
    ensures { IfOk result (IsTaskAccount (kept_layout facts.now) facts.now.program.now world.now.plan (state_of world.now) (done_by (places_of world.now)) t.0) }
{
    let drawn = facts.drawn(t)?;
    let wait = wait_of(facts, world, t, end)?;
    let nexts = nexts_of(facts, world, t)?;
    Ok(TaskAccount {
        drawn,
        fork: facts.forked(world.plan(), t),
        ended: facts.ended(t),
        wait,
        nexts,
    })
}

// What is known of the tasks, which have ended so.
fn task_accounts(
    facts: &TextFacts<'_>,
    world: &World<'_>,
    ends: &[TaskEnd],
) -> Result<List<TaskAccount>, NoMemory>
    requires known { AreKnownFacts facts.now }
    requires unfolds { plan_of facts.now.program.now ≡ Ok world.now.plan }
    requires ends { ends.now ≡ list_below (end_of (state_of world.now)) (length world.now.plan.parents) }
    ensures { IfOk result (AreTold (kept_layout facts.now) facts.now.program.now world.now.plan (state_of world.now) (done_by (places_of world.now)) (length world.now.plan.parents)) }
{
    let plan = world.plan();
    let mut all = Vec::with_capacity(facts.alloc, ends.len())?;
    for t in 0..plan.tasks() {
        all.push(task_account(facts, world, TaskId(t), &ends[t as usize])?)?;
    }
    Ok(List::from_vec(all))
}

// Where the phasers are made.
fn phaser_places(facts: &TextFacts<'_>) -> Result<List<TextPlace>, NoMemory>
    requires { AreKnownFacts facts.now }
    ensures { IfOk result (λ made. made ≡ map (statement_place (kept_layout facts.now)) (phaser_origins facts.now.program.now)) }
{
    let phasers = facts.origins.phasers();
    let mut made = Vec::with_capacity(facts.alloc, phasers.len())?;
    for n in phasers {
        made.push(facts.statement(*n))?;
    }
    Ok(List::from_vec(made))
}

/// The account of the text of which this is known, whose tasks have ended so in this world, which is one of the plan of its program. The only error is want of
/// memory. The time is linear in the visits of the unfolding, and in the tasks.
pub fn account_of(
    facts: TextFacts<'_>,
    world: &World<'_>,
    ends: &[TaskEnd],
) -> Result<Account, NoMemory>
    requires known { AreKnownFacts facts }
    requires unfolds { plan_of facts.program.now ≡ Ok world.now.plan }
    requires ends { ends.now ≡ list_below (end_of (state_of world.now)) (length world.now.plan.parents) }
    ensures account { IfOk result (IsAccount facts.entry.places.now facts.entry.program.now world.now.plan (state_of world.now) (done_by (places_of world.now))) }
{
    let tasks = task_accounts(&facts, world, ends)?;
    let phasers = phaser_places(&facts)?;
    let immediate = immediate_awaits(&facts, world.plan())?;
    Ok(Account {
        tasks,
        phasers,
        names: facts.names,
        immediate,
    })
}
