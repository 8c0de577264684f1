// The next step of a task in a world.
ghost use Rattle.std.specs.Prelude.{◌<◌, ℕ, true, length, OnOk};
ghost use Rattle.armus_base.specs.CheckedPlans.{IsCheckedPlan};
ghost use Rattle.armus_base.specs.Runs.{IsReachable};
ghost use Rattle.pl_core.specs.calls.Stands.{IsEnabled};
ghost use Rattle.pl_core.specs.calls.Worlds.{places_of};
ghost use Rattle.run_queue.specs.calls.StepKinds.{HasMoved};
ghost use Rattle.world_runs.specs.inside.WorldRounds.{LeavesLess};

use armus_base::{NoMemory, TaskId};
use avoider::{Judge, go_on};
use pl_core::World;
use std::alloc::Global;

/// Who makes the next step of a task that may go on.
pub(crate) trait NextStep {
    ghost use Rattle.pl_core.specs.calls.Worlds.{WorldValue};

    // What one step of a task makes of the old world is the new one.
    ghost makes: { WorldValue → WorldValue → ℕ → Type 0 };

    // What holds of a world between steps.
    ghost keeps: { WorldValue → Type 0 };

    /// Whether an await is judged by an order that is kept.
    fn keeps_order(&self) -> bool;

    /// Makes the next step of task `t`, which may go on.
    fn make(&mut self, alloc: Global, world: &mut World, t: TaskId) -> Result<(), NoMemory>
        requires task { t.0 < length world.old.plan.parents }
        requires enabled { IsEnabled world.old t.0 }
        requires checked { IsCheckedPlan world.old.plan }
        requires reachable { IsReachable world.old.plan (places_of world.old) }
        requires keeps { keeps world.old }
        ensures made { OnOk result (makes world.old world.new t.0) }
        ensures moved { OnOk result (HasMoved world.old world.new t.0) }
        ensures left { OnOk result (LeavesLess keeps world.old world.new true) };
}

/// An await is decided on, and every other step is that of the task's code.
impl NextStep for Judge {
    ghost use Rattle.armus_base.specs.Deadlocks.{NobodyDead};
    ghost use Rattle.pl_core.specs.calls.Worlds.{state_of};
    ghost use Rattle.avoider.specs.calls.Decisions.{HasGoneOn};

    ghost makes = { HasGoneOn };

    ghost keeps = { λ w. NobodyDead (state_of w) };

    fn keeps_order(&self) -> bool {
        self.keeps_order()
    }

    fn make(&mut self, alloc: Global, world: &mut World, t: TaskId) -> Result<(), NoMemory> {
        go_on(alloc, world, t, self)?;
        Ok(())
    }
}

/// Each step is that of the task's code, and nobody is refused.
#[derive(Drop)]
pub(crate) struct PlainStep;

impl NextStep for PlainStep {
    ghost use Rattle.pl_core.specs.calls.Moves.{IsWorldStep};
    ghost use Rattle.world_runs.specs.inside.Turns.{NobodyRefused};

    ghost makes = { IsWorldStep };

    ghost keeps = { NobodyRefused };

    fn keeps_order(&self) -> bool {
        false
    }

    fn make(&mut self, _alloc: Global, world: &mut World, t: TaskId) -> Result<(), NoMemory> {
        world.step(t);
        Ok(())
    }
}
