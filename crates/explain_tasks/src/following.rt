// The next of a task.
ghost use Rattle.std.specs.Prelude.{◌≡◌, IfOk, option_copied, option_map};
ghost use Rattle.explain_tasks.specs.declared.impeders.Impeder.{Impeder};
ghost use Rattle.explain_tasks.specs.Facts.{is_deadlocked, stands_held, stands_unforked, is_waiting};
ghost use Rattle.explain_tasks.specs.Nexts.{first_or};
ghost use Rattle.pl_core.specs.calls.Worlds.{state_of};

use crate::facts::Facts;
use crate::impeders::Impeder;
use crate::situation::Situation;
use armus_base::{NoMemory, TaskId};
use explain_facts::Forked;
use pl_core::World;

/// Whether a task that stands so is deadlocked.
pub fn is_deadlocked(situation: Situation) -> bool
    ensures { result ≡ is_deadlocked situation }
{
    match situation {
        Situation::Deadlocked => true,
        _ => false,
    }
}

// Whether a task that stands so is held.
fn is_held(situation: Situation) -> bool
    ensures { result ≡ stands_held situation }
{
    match situation {
        Situation::Held => true,
        _ => false,
    }
}

/// Whether a task that stands so waits.
pub fn is_waiting(situation: Situation) -> bool
    ensures { result ≡ is_waiting situation }
{
    match situation {
        Situation::Deadlocked => true,
        Situation::Held => true,
        _ => false,
    }
}

/// Whether a task that stands so was not forked.
pub fn never_forked(situation: Situation) -> bool
    ensures { result ≡ stands_unforked situation }
{
    match situation {
        Situation::NotForkedYet => true,
        Situation::NeverForked => true,
        _ => false,
    }
}

/// The first, or else the second.
pub fn first_or(first: Option<TaskId>, other: Option<TaskId>) -> Option<TaskId>
    ensures { result ≡ first_or first other }
{
    match first {
        Some(t) => Some(t),
        None => other,
    }
}

// The task of an impeder, if there is one.
fn task_in(impeder: Option<&Impeder>) -> Option<TaskId>
    ensures { result ≡ option_map (λ (i : Impeder). i.t) (option_copied impeder.entry) }
{
    match impeder {
        Some(impeder) => Some(impeder.t),
        None => None,
    }
}

impl<'a> Facts<'a> {
    ghost use Rattle.explain_tasks.specs.Facts.{forking_of, situation_of};
    ghost use Rattle.explain_tasks.specs.Nexts.{least_that, next_by, next_of};
    ghost use Rattle.explain_tasks.specs.calls.Fitting.{FactsFitPlan};

    // The least deadlocked one of these impeders.
    fn least_deadlocked(&self, impeders: &[Impeder]) -> Option<TaskId>
        ensures { result ≡ least_that is_deadlocked self.now impeders.now }
    {
        impeders
            .iter()
            .find(|impeder| is_deadlocked(self.situation(impeder.t)))
            .map(|impeder| impeder.t)
    }

    // The least held one of these impeders.
    fn least_held(&self, impeders: &[Impeder]) -> Option<TaskId>
        ensures { result ≡ least_that stands_held self.now impeders.now }
    {
        impeders
            .iter()
            .find(|impeder| is_held(self.situation(impeder.t)))
            .map(|impeder| impeder.t)
    }

    /// The next of a task that stands so and has these impeders.
    fn next_by(
        &self,
        impeders: &[Impeder],
        fork: Option<Forked>,
        situation: Situation,
    ) -> Option<TaskId>
        ensures { result ≡ next_by self.now impeders.now fork situation }
    {
        match situation {
            Situation::Deadlocked => self.least_deadlocked(impeders),
            Situation::Held => first_or(self.least_held(impeders), task_in(impeders.first())),
            Situation::NotForkedYet => match fork {
                Some(fork) => Some(fork.by),
                None => None,
            },
            Situation::HasEnded => None,
            Situation::NeverForked => None,
        }
    }

    /// The next of a task that has these impeders.
    pub fn next_among(&self, impeders: &[Impeder], t: TaskId) -> Option<TaskId>
        ensures { result ≡ next_by self.now impeders.now (forking_of self.now t.0) (situation_of self.now t.0) }
    {
        self.next_by(impeders, self.fork(t), self.situation(t))
    }

    /// The next of a task.
    pub fn next(&self, world: &World, t: TaskId) -> Result<Option<TaskId>, NoMemory>
        requires fits { FactsFitPlan self.now world.now.plan }
        ensures { IfOk result (λ next. next ≡ next_of self.now (state_of world.now).phases t.0) }
    {
        let impeders = self.impeders(world, t)?;
        Ok(self.next_among(&impeders, t))
    }
}
