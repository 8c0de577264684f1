// A world beside the journal of its steps.
ghost use Rattle.std.specs.Prelude.{◌≡◌, ◌<◌, ◌↔◌, [], IfOk, IsTrue, MatchBool, OnErr, length};
ghost use Rattle.locked_world.specs.calls.Journals.{IsReplayOfJournal, LogsStep};
ghost use Rattle.pl_core.specs.calls.Stands.{IsEnabled};
ghost use Rattle.pl_core.specs.calls.Worlds.{IsOpeningWorld};

use crate::PlanName;
use armus_base::{List, NoMemory, Plan, TaskId};
use pl_core::World;
use std::alloc::Global;
use std::marker::{Model, PhantomData};

/// A world of N's plan and the journal of its steps: contracts see it as these two, and it keeps that the world is the replay of the journal from the opening
/// state.
#[derive(Drop)]
pub struct Logged<'p, N: PlanName> {
    world: World<'p>,
    journal: List<TaskId>,
    name: PhantomData<N>,
}

impl<'p, N: PlanName> Model for Logged<'p, N> {
    ghost use Rattle.locked_world.specs.calls.Journals.{LoggedValue, IsReplayOfJournal};

    ghost Value = { LoggedValue };

    ghost view = { λ l. record { world = l.world; journal = l.journal } };

    ghost invariant = { λ l. IsReplayOfJournal N.plan (record { world = l.world; journal = l.journal }) };
}

impl<'p, N: PlanName> Logged<'p, N> {
    /// The opening world, with an empty journal.
    pub fn start(alloc: Global, plan: &'p Plan) -> Result<Logged<'p, N>, NoMemory>
        requires plan { plan.now ≡ N.plan }
        ensures opening { IfOk result (λ logged. IsOpeningWorld plan.now logged.world) }
        ensures empty { IfOk result (λ logged. logged.journal ≡ []) }
    {
        // so that the proof knows of the plan that it is checked
        let _tasks = plan.tasks();
        Ok(Logged {
            world: World::start(alloc, plan)?,
            journal: List::new(alloc),
            name: PhantomData,
        })
    }

    /// Makes one step of task `t` and appends `t` to the journal; false exactly where `t` is not enabled. After false and after `NoMemory` nothing has changed.
    pub fn step(&mut self, t: TaskId) -> Result<bool, NoMemory>
        requires task { t.0 < length N.plan.parents }
        ensures enabled { IfOk result (λ made. IsTrue made ↔ IsEnabled self.old.world t.0) }
        ensures made { IfOk result (λ made. MatchBool made (LogsStep self.old self.new t) (self.new ≡ self.old)) }
        ensures err { OnErr result (self.new ≡ self.old) }
    {
        if !self.world.enabled(t) {
            return Ok(false);
        }
        self.journal.push(t)?;
        self.world.step(t);
        Ok(true)
    }

    /// Its world.
    pub fn world(&self) -> &World<'p>
        ensures world { result.now ≡ self.now.world }
        ensures replayed { IsReplayOfJournal N.plan self.now }
    {
        &self.world
    }

    /// Its journal: the tasks in the order of their steps.
    pub fn journal(&self) -> &[TaskId]
        ensures journal { result.now ≡ self.now.journal }
        ensures replayed { IsReplayOfJournal N.plan self.now }
    {
        self.journal.as_slice()
    }

    /// The journal alone; the world ends.
    pub fn into_journal(self) -> List<TaskId>
        ensures journal { result ≡ self.entry.journal }
        ensures replayed { IsReplayOfJournal N.plan self.entry }
    {
        self.journal
    }
}
