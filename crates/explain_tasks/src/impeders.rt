// Who keeps a task waiting.
ghost use Rattle.std.specs.Prelude.{◌≡◌, ◌<◌, IfOk, length};
ghost use Rattle.explain_tasks.specs.Impeders.{impeder_by, impeders_in};
ghost use Rattle.pl_core.specs.calls.Worlds.{state_of};

use crate::facts::Facts;
use armus_base::{Event, NoMemory, Phase, PhaserId, TaskId};
use pl_core::World;
use std::alloc::Global;

/// A task that impedes an event: a member of its phaser, with a phase below the event's.
#[derive(Clone, Copy, Debug, PartialEq, Eq)]
pub struct Impeder {
    /// The task.
    pub t: TaskId,
    /// The event's phaser.
    pub p: PhaserId,
    /// Its phase there.
    pub phase: Phase,
}

// The task, if it impedes the event by this phase.
fn impeder_by(event: Event, u: TaskId, phase: Option<Phase>) -> Option<Impeder>
    ensures { result ≡ impeder_by event u.0 phase }
{
    match phase {
        Some(n) if n < event.n => Some(Impeder {
            t: u,
            p: event.p,
            phase: n,
        }),
        _ => None,
    }
}

// The tasks that impede the event, in order of number.
fn impeders_in(alloc: Global, world: &World, event: Event) -> Result<Vec<Impeder>, NoMemory>
    requires phaser { event.p.0 < length world.now.plan.makers }
    ensures { IfOk result (λ all. all.items ≡ impeders_in (length world.now.plan.parents) (state_of world.now).phases event) }
{
    let mut all = Vec::new(alloc);
    for u in 0..world.plan().tasks() {
        match impeder_by(event, TaskId(u), world.phase(event.p, TaskId(u))) {
            Some(impeder) => all.push(impeder)?,
            None => {}
        }
    }
    Ok(all)
}

impl<'a> Facts<'a> {
    ghost use Rattle.explain_tasks.specs.Impeders.{impeders_by_facts};
    ghost use Rattle.explain_tasks.specs.calls.Fitting.{FactsFitPlan};

    /// The tasks that impede the event that a task awaits, in order of number.
    pub fn impeders(&self, world: &World, t: TaskId) -> Result<Vec<Impeder>, NoMemory>
        requires fits { FactsFitPlan self.now world.now.plan }
        ensures { IfOk result (λ all. all.items ≡ impeders_by_facts self.now (state_of world.now).phases t.0) }
    {
        match self.wait(t) {
            Some(wait) => impeders_in(self.alloc, world, wait.event),
            None => Ok(Vec::new(self.alloc)),
        }
    }
}
