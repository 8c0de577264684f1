// The statuses of a world.
ghost use Rattle.std.specs.Prelude.{◌≡◌, ℕ, ◌<◌, Some, IfOk, IfSome, length};
ghost use Rattle.armus_base.specs.declared.event.Event.{Event};
ghost use Rattle.armus_base.specs.States.{if_published};
ghost use Rattle.pl_core.specs.calls.Worlds.{state_of};
ghost use Rattle.armus_base.specs.Finals.{is_awaited, statuses_on};
ghost use Rattle.armus_base.specs.calls.Finals.{statuses_of};
ghost use Rattle.armus_base.specs.calls.StatusLists.{is_marked};
ghost use Rattle.pl_core.specs.calls.Awaiting.{awaited_statuses};
ghost use Rattle.pl_core.specs.inside.Supposed.{with_also};

use super::World;
use crate::task::task_at;
use armus_base::{
    Event, List, NoMemory, Phase, PhaserId, ShowsTasks, Status, TaskId, list_statuses,
};
use std::alloc::Global;

impl<'p> World<'p> {
    /// The status of each published task, in order of number: its event, and its phase on each phaser of which it is a member.
    pub fn statuses(&self, alloc: Global) -> Result<List<Status>, NoMemory>
        ensures statuses { IfOk result (λ list. list ≡ statuses_of self.now.plan (state_of self.now)) }
    {
        let asked = vec![in alloc; true; self.plan.phasers() as usize]?;
        self.statuses_on(alloc, &asked, None)
    }

    /// The statuses as they would be if task `t` were published on the event, in order of number, each with its phases on the phasers that would be
    /// awaited then.
    pub fn statuses_if(
        &self,
        alloc: Global,
        t: TaskId,
        event: Event,
    ) -> Result<List<Status>, NoMemory>
        requires phaser { event.p.0 < length self.now.plan.makers }
        ensures statuses { IfOk result (λ list. list ≡ awaited_statuses self.now.plan (if_published (state_of self.now) t.0 event)) }
    {
        self.awaited_statuses(alloc, Some((t, event)))
    }

    // The statuses with the phases on the awaited phasers, where the pair counts as published too.
    pub(crate) fn awaited_statuses(
        &self,
        alloc: Global,
        also: Option<(TaskId, Event)>,
    ) -> Result<List<Status>, NoMemory>
        requires phaser { IfSome also (λ a. a.1.p.0 < length self.now.plan.makers) }
        ensures { IfOk result (λ list. list ≡ awaited_statuses self.now.plan (with_also (state_of self.now) also)) }
    {
        let asked = self.awaited_phasers(alloc, also)?;
        self.statuses_on(alloc, &asked, also)
    }

    /// The event on which task `t` is published, if it is published.
    pub fn published(&self, t: TaskId) -> Option<Event>
        requires task { t.0 < length self.now.plan.parents }
        ensures event { result ≡ (state_of self.now).published t.0 }
        ensures phaser { IfSome result (λ event. event.p.0 < length self.now.plan.makers) }
    {
        let task = task_at(&self.tasks, t.0 as usize);
        if task.place.refused { None } else { task.event }
    }

    // The event on which a task is published, where the pair counts too.
    pub(crate) fn published_or(&self, u: TaskId, also: Option<(TaskId, Event)>) -> Option<Event>
        requires task { u.0 < length self.now.plan.parents }
        ensures event { result ≡ (with_also (state_of self.now) also).published u.0 }
        ensures phaser { IfSome also (λ a. a.1.p.0 < length self.now.plan.makers) → IfSome result (λ event. event.p.0 < length self.now.plan.makers) }
    {
        match also {
            Some((t, event)) => {
                if u.0 == t.0 {
                    Some(event)
                } else {
                    self.published(u)
                }
            }
            None => self.published(u),
        }
    }

    // Which phasers some published task awaits, where the pair counts as published too.
    fn awaited_phasers(
        &self,
        alloc: Global,
        also: Option<(TaskId, Event)>,
    ) -> Result<Vec<bool>, NoMemory>
        requires phaser { IfSome also (λ a. a.1.p.0 < length self.now.plan.makers) }
        ensures len { IfOk result (λ asked. length asked.items ≡ length self.now.plan.makers) }
        ensures asked { IfOk result (λ asked. (p : ℕ) → p < length self.now.plan.makers → is_marked asked.items p ≡ is_awaited self.now.plan (with_also (state_of self.now) also) p) }
    {
        let mut asked = vec![in alloc; false; self.plan.phasers() as usize]?;
        for t in 0..self.plan.tasks() {
            match self.published_or(TaskId(t), also) {
                Some(event) => asked[event.p.0 as usize] = true,
                None => {}
            }
        }
        Ok(asked)
    }

    // The statuses with the phases on the asked phasers, where the pair counts as published too.
    fn statuses_on(
        &self,
        alloc: Global,
        asked: &[bool],
        also: Option<(TaskId, Event)>,
    ) -> Result<List<Status>, NoMemory>
        requires len { length asked.now ≡ length self.now.plan.makers }
        ensures { IfOk result (λ list. list ≡ statuses_on self.now.plan (with_also (state_of self.now) also) (is_marked asked.now)) }
    {
        let supposed = SupposedWorld { world: self, also };
        list_statuses(alloc, &supposed, asked)
    }
}

// A world, as it would be if a task were published on an event, if such a pair is given.
#[derive(Drop)]
struct SupposedWorld<'w, 'p> {
    world: &'w World<'p>,
    also: Option<(TaskId, Event)>,
}

impl<'w, 'p> ShowsTasks for SupposedWorld<'w, 'p> {
    ghost tasks = { λ s. length s.world.now.plan.parents };

    ghost phasers = { λ s. length s.world.now.plan.makers };

    ghost state = { λ s. with_also (state_of s.world.now) s.also };

    fn tasks(&self) -> u32 {
        self.world.plan().tasks()
    }

    fn phasers(&self) -> u32 {
        self.world.plan().phasers()
    }

    fn published(&self, t: TaskId) -> Option<Event> {
        self.world.published_or(t, self.also)
    }

    fn phase(&self, t: TaskId, p: PhaserId) -> Option<Phase> {
        self.world.phase(p, t)
    }
}
