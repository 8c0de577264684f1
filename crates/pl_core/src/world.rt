// A state of the plain machine.
ghost use Rattle.std.specs.Prelude.{◌≡◌, ◌<◌, IfOk, length};
ghost use Rattle.armus_base.specs.CheckedPlans.{IsCheckedPlan};
ghost use Rattle.armus_base.specs.Runs.{IsReachable};
ghost use Rattle.pl_core.specs.calls.GivenPlaces.{IsAtPlaces};
ghost use Rattle.pl_core.specs.calls.Worlds.{places_at, places_of, IsOpeningWorld};

mod finishing;
mod impeding;
mod statuses;
mod stepping;
mod task_stands;

use crate::Place;
use crate::cursors::first_cursors;
use crate::highest::highest_of;
use crate::phase_table::MemberTable;
use crate::task::{TaskRecord, first_tasks};
use crate::walk::CodeWalk;
use armus_base::{Cursor, NoMemory, Plan};
use std::alloc::Global;
use std::marker::Model;

/// A state of a plan: contracts see it as the plan and the place of each task, which fix the state.
#[derive(Drop)]
pub struct World<'p> {
    plan: &'p Plan,
    tasks: Vec<TaskRecord>,
    // one for each task, at its next op, or at the await that it has begun
    cursors: Vec<Cursor<'p>>,
    phases: MemberTable,
    highest: Vec<u32>,
}

impl<'p> Model for World<'p> {
    ghost use Rattle.pl_core.specs.calls.Worlds.{WorldValue};

    ghost Value = { WorldValue };

    ghost use Rattle.pl_core.specs.calls.Views.{world_of};
    ghost use Rattle.pl_core.specs.inside.Invariants.{IsWorld};

    ghost view = { world_of };

    ghost invariant = { IsWorld };
}

impl<'p> World<'p> {
    /// The opening state: only task 0 is forked, and no task has made an action.
    pub fn start(alloc: Global, plan: &'p Plan) -> Result<World<'p>, NoMemory>
        ensures opening { IfOk result (λ world. IsOpeningWorld plan.now world) }
    {
        let count = plan.tasks() as usize;
        let phases = MemberTable::of(alloc, plan)?;
        let tasks = first_tasks(alloc, count)?;
        let cursors = first_cursors(alloc, plan)?;
        let highest = highest_of(alloc, &tasks, plan.phasers() as usize)?;
        Ok(World {
            plan,
            tasks,
            cursors,
            phases,
            highest,
        })
    }

    /// The state in which each task stands at its place of `places`: one place for each task, and a legal run has to lead to them.
    pub fn at(alloc: Global, plan: &'p Plan, places: &[Place]) -> Result<World<'p>, NoMemory>
        requires one_each { length places.now ≡ length plan.now.parents }
        requires reachable { IsReachable plan.now (places_at plan.now places.now) }
        ensures at { IfOk result (λ world. IsAtPlaces plan.now places.now world) }
    {
        let (walk, cursors) = CodeWalk::to_places(alloc, plan, places)?;
        let highest = highest_of(alloc, &walk.tasks, plan.phasers() as usize)?;
        Ok(World {
            plan,
            tasks: walk.tasks,
            cursors,
            phases: walk.phases,
            highest,
        })
    }

    /// Its plan.
    pub fn plan(&self) -> &'p Plan
        ensures plan { result.now ≡ self.now.plan }
        ensures checked { IsCheckedPlan self.now.plan }
        ensures reachable { IsReachable self.now.plan (places_of self.now) }
    {
        self.plan
    }
}
