// Whom a task impedes, and who impedes an event.
ghost use Rattle.std.specs.Prelude.{◌≡◌, ℕ, ◌+◌, ◌<◌, ◌≤◌, ◌^◌, IfSome, IsTrue, MatchOption, length};
ghost use Rattle.pl_core.specs.calls.HighestPhases.{ImpedesNobody, IsNextImpeder, IsPublishedImpeder};
ghost use Rattle.pl_core.specs.inside.Behind.{IsNextBelow};
ghost use Rattle.pl_core.specs.inside.Highest.{highest_at};
ghost use Rattle.armus_base.specs.States.{if_published};
ghost use Rattle.pl_core.specs.calls.Worlds.{state_of};

use super::World;
use armus_base::{Event, Phase, PhaserId, TaskId};

// The kept highest phase of a phaser, with the event counted.
fn highest_with(highest: &[u32], p: PhaserId, event: Event) -> Phase
    requires phaser { p.0 < length highest.now }
    ensures kept { highest_at highest.now p.0 ≤ result }
    ensures event { event.p.0 ≡ p.0 → event.n ≤ result }
{
    let kept = highest[p.0 as usize];
    if event.p.0 == p.0 && kept < event.n {
        event.n
    } else {
        kept
    }
}

impl<'p> World<'p> {
    /// Whether task `t`, were it published on the event, would impede no event on which a task is published, its own among them: one look at each of
    /// its phases. True says so; false says nothing of itself, though it comes only where the task is below a phase on which a task was published.
    pub fn impedes_nobody(&self, t: TaskId, event: Event) -> bool
        requires task { t.0 < length self.now.plan.parents }
        ensures { IsTrue result → ImpedesNobody (if_published (state_of self.now) t.0 event) t.0 }
    {
        for p in 0..self.plan.phasers() {
            if let Some(n) = self.phase(PhaserId(p), t) {
                if n < highest_with(&self.highest, PhaserId(p), event) {
                    return false;
                }
            }
        }
        true
    }

    /// The first published task that impedes the event, with task `t` counted as published on it; None exactly where there is none.
    pub fn published_impeder(&self, t: TaskId, event: Event) -> Option<TaskId>
        requires task { t.0 < length self.now.plan.parents }
        requires phaser { event.p.0 < length self.now.plan.makers }
        ensures { MatchOption result
            ((u : ℕ) → IsPublishedImpeder (if_published (state_of self.now) t.0 event) event u → ⊥)
            (λ u. IsPublishedImpeder (if_published (state_of self.now) t.0 event) event u.0) }
    {
        self.next_impeder(event, TaskId(0), t, event)
    }

    /// The first published task from `from` on that impedes an awaited event, with task `t` counted as published on `event`; None exactly where
    /// there is none. It looks at the members of the phaser alone, and at none where the awaited event is reached.
    pub fn next_impeder(
        &self,
        awaited: Event,
        from: TaskId,
        t: TaskId,
        event: Event,
    ) -> Option<TaskId>
        requires phaser { awaited.p.0 < length self.now.plan.makers }
        ensures next { IsNextImpeder (if_published (state_of self.now) t.0 event) awaited from.0 result }
        ensures inside { IfSome result (λ u. u.0 < length self.now.plan.parents) }
    {
        if self.is_reached(awaited) {
            return None;
        }
        let mut next = from.0;
        'members: while let Some(u) = self.next_behind(awaited, next) {
            if self.published_or(TaskId(u), Some((t, event))).is_some() {
                return Some(TaskId(u));
            }
            next = u + 1;
        }
        None
    }

    // The first task from `from` on that impedes the event, published or not.
    fn next_behind(&self, event: Event, from: u32) -> Option<u32>
        requires phaser { event.p.0 < length self.now.plan.makers }
        ensures next { IsNextBelow (λ u. (state_of self.now).phases u event.p.0) event.n from result }
        ensures inside { IfSome result (λ u. (u < length self.now.plan.parents) × (u + 1 < 2 ^ 32)) }
    {
        self.phases.next_behind(event.p.0 as usize, from, event.n)
    }
}
