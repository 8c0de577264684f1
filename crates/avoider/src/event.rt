// The next event of a task in a run that avoids deadlock.
ghost use Rattle.std.specs.Prelude.{◌≡◌, ◌<◌, length, OnErr, OnOk};
ghost use Rattle.armus_base.specs.Deadlocks.{NobodyDead};
ghost use Rattle.pl_core.specs.calls.Stands.{IsEnabled};
ghost use Rattle.pl_core.specs.calls.Worlds.{state_of};
ghost use Rattle.avoider.specs.calls.Decisions.{HasGoneOn};

use crate::Judge;
use armus_base::{NoMemory, TaskId};
use pl_core::{Stand, World};
use std::alloc::Global;

/// Makes the next event of task `t`, which may go on, in a world where nobody is dead: at an await a decision of the judge, and else that of its code.
/// Nobody is dead after. After `NoMemory` the world is as before.
pub fn go_on(alloc: Global, world: &mut World, t: TaskId, judge: &mut Judge) -> Result<(), NoMemory>
    requires task { t.0 < length world.old.plan.parents }
    requires enabled { IsEnabled world.old t.0 }
    requires nobody { NobodyDead (state_of world.old) }
    ensures goes_on { OnOk result (HasGoneOn world.old world.new t.0) }
    ensures nobody { NobodyDead (state_of world.new) }
    ensures same { OnErr result (world.new ≡ world.old) }
{
    match world.stand(t) {
        Stand::Await(_) => {
            let _ = judge.step(alloc, world, t)?;
        }
        _ => world.step(t),
    }
    Ok(())
}
