// How a task stands, and whether an event is reached.
ghost use Rattle.std.specs.Prelude.{◌≡◌, ℕ, ◌<◌, ◌≤◌, ◌↔◌, Some, IsTrue, length, option_map};
ghost use Rattle.armus_base.specs.declared.event.Event.{Event};
ghost use Rattle.armus_base.specs.Limits.{max_ops};
ghost use Rattle.armus_base.specs.Offsets.{target};
ghost use Rattle.armus_base.specs.Plans.{code_of};
ghost use Rattle.armus_base.specs.CheckedPlans.{IsCheckedPlan};
ghost use Rattle.armus_base.specs.Runs.{IsReachable};
ghost use Rattle.armus_base.specs.States.{event_on, IsActive, IsMember, IsReached};
ghost use Rattle.pl_core.specs.calls.Worlds.{state_of, places_of, action_by_code};
ghost use Rattle.pl_core.specs.calls.Stands.{GoesOnWith, IsBeforeOp, StandsSo, IsEnabled, MayGoOn};
ghost use Rattle.pl_core.specs.inside.Ops.{action_of};
ghost use Rattle.pl_core.specs.Tasks.{IsAtOp};

use super::World;
use crate::Stand;
use crate::cursors::op_at_cursor;
use crate::task::task_at;
use armus_base::{Event, Offset, Op, Phase, PhaserId, TaskId};

impl<'p> World<'p> {
    /// How task `t` stands.
    pub fn stand(&self, t: TaskId) -> Stand
        requires task { t.0 < length self.now.plan.parents }
        ensures stand { StandsSo self.now t.0 result }
        ensures goes_on { IsEnabled self.now t.0 ↔ MayGoOn (state_of self.now) result }
        ensures checked { IsCheckedPlan self.now.plan }
        ensures reachable { IsReachable self.now.plan (places_of self.now) }
    {
        self.stand_kept(t)
    }

    // How a task stands by what is kept of it.
    fn stand_kept(&self, t: TaskId) -> Stand
        requires task { t.0 < length self.now.plan.parents }
        ensures stand { StandsSo self.now t.0 result }
        ensures checked { IsCheckedPlan self.now.plan }
        ensures reachable { IsReachable self.now.plan (places_of self.now) }
    {
        let task = task_at(&self.tasks, t.0 as usize);
        if !task.forked {
            return Stand::Unforked;
        }
        match task.event {
            Some(event) => {
                if task.place.refused {
                    Stand::Refused(event)
                } else {
                    Stand::Waits(event)
                }
            }
            None => self.stand_before_op(t),
        }
    }

    // How an active task stands.
    fn stand_before_op(&self, t: TaskId) -> Stand
        requires task { t.0 < length self.now.plan.parents }
        requires active { IsActive (state_of self.now) t.0 }
        ensures { StandsSo self.now t.0 result }
    {
        match self.next_op(t) {
            None => Stand::Done,
            Some(Op::Await { p, off }) => Stand::Await(self.own_event(p, off, t)),
            Some(_) => Stand::Ready,
        }
    }

    // The op with which the code of a task goes on.
    pub(crate) fn next_op(&self, t: TaskId) -> Option<Op>
        requires task { t.0 < length self.now.plan.parents }
        requires active { IsActive (state_of self.now) t.0 }
        ensures next { action_by_code self.now t.0 ≡ option_map action_of result }
        ensures checked { IsCheckedPlan self.now.plan }
        ensures reachable { IsReachable self.now.plan (places_of self.now) }
    {
        op_at_cursor(&self.cursors, t.0 as usize)
    }

    /// The op with which the code of task `t` goes on, which stands before one that is no await. It is one look.
    pub fn op_before(&self, t: TaskId) -> Op
        requires task { t.0 < length self.now.plan.parents }
        requires ready { IsBeforeOp self.now t.0 }
        ensures op { GoesOnWith self.now t.0 result }
    {
        match self.next_op(t) {
            Some(op) => op,
            None => unreachable!(),
        }
    }

    // The event of a phaser at the target of its member's phase.
    fn own_event(&self, p: PhaserId, off: Offset, t: TaskId) -> Event
        requires task { t.0 < length self.now.plan.parents }
        requires phaser { p.0 < length self.now.plan.makers }
        requires member { IsMember (state_of self.now) t.0 p.0 }
        requires near { (n : ℕ) → (state_of self.now).phases t.0 p.0 ≡ Some n → n ≤ max_ops }
        ensures { event_on p.0 (option_map (target off) ((state_of self.now).phases t.0 p.0)) ≡ Some result }
    {
        match self.phase(p, t) {
            Some(n) => Event {
                p,
                n: off.target(n),
            },
            None => unreachable!(),
        }
    }

    /// The index in the code of task `t` of its next op, or of the await that it has begun; where its code is done, the length of that.
    pub fn op(&self, t: TaskId) -> u32
        requires task { t.0 < length self.now.plan.parents }
        ensures op { IsAtOp (code_of self.now.plan t.0) (places_of self.now t.0).done result }
    {
        task_at(&self.tasks, t.0 as usize).op
    }

    /// The phase of task `t` on phaser `p`; None exactly where it is no member.
    pub fn phase(&self, p: PhaserId, t: TaskId) -> Option<Phase>
        requires task { t.0 < length self.now.plan.parents }
        requires phaser { p.0 < length self.now.plan.makers }
        ensures phase { result ≡ (state_of self.now).phases t.0 p.0 }
    {
        self.phases.get(t.0 as usize, p.0 as usize)
    }

    /// Whether the event is reached: each member of its phaser has its phase at least. It is one comparison.
    pub fn is_reached(&self, event: Event) -> bool
        requires phaser { event.p.0 < length self.now.plan.makers }
        ensures { IsTrue result ↔ IsReached (state_of self.now) event }
    {
        self.phases.is_reached(event.p.0 as usize, event.n)
    }

    /// Whether task `t` may go on: it stands before an op, or at an await, or waits on an event that is reached.
    pub fn enabled(&self, t: TaskId) -> bool
        requires task { t.0 < length self.now.plan.parents }
        ensures enabled { IsTrue result ↔ IsEnabled self.now t.0 }
    {
        match self.stand(t) {
            Stand::Ready | Stand::Await(_) => true,
            Stand::Waits(event) => self.is_reached(event),
            Stand::Unforked | Stand::Done | Stand::Refused(_) => false,
        }
    }
}
