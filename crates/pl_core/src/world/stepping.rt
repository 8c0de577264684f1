// What a step and a refusal make of a world.
ghost use Rattle.std.specs.Prelude.{◌≡◌, ◌<◌, Some, length};
ghost use Rattle.armus_base.specs.declared.event.Event.{Event};
ghost use Rattle.armus_base.specs.Plans.{Forks};
ghost use Rattle.armus_base.specs.States.{IsActive, IsReached};
ghost use Rattle.pl_core.specs.calls.Worlds.{state_of, action_by_code};
ghost use Rattle.pl_core.specs.calls.Stands.{IsAtAwaitOf, IsBeforeOp, IsEnabled};
ghost use Rattle.pl_core.specs.calls.Moves.{MakesRefusal, IsWorldStep};
ghost use Rattle.pl_core.specs.inside.Ops.{action_of, ChangesPhases};

use super::World;
use crate::Stand;
use crate::cursors::go_on;
use crate::effect::move_phases;
use crate::highest::raise;
use crate::task::task_at;
use armus_base::{Event, Op, TaskId};

impl<'p> World<'p> {
    /// Makes the next action of task `t`: Block where it stands at an await, Pass where it waits, and the op's own action otherwise. It takes no memory.
    pub fn step(&mut self, t: TaskId)
        requires task { t.0 < length self.old.plan.parents }
        requires enabled { IsEnabled self.old t.0 }
        ensures { IsWorldStep self.old self.new t.0 }
    {
        match self.stand(t) {
            Stand::Waits(event) => self.pass(t, event),
            Stand::Await(event) => self.block(t, event),
            _ => self.act(t),
        }
    }

    /// Refuses the await before which task `t` stands: makes Refuse, and then a Drop for each phaser of `t` in order of number. It takes no memory.
    pub fn refuse(&mut self, t: TaskId)
        requires task { t.0 < length self.old.plan.parents }
        requires before { (e : Event) × IsAtAwaitOf self.old t.0 e }
        ensures { MakesRefusal self.old self.new t.0 }
    {
        if let Stand::Await(event) = self.stand(t) {
            self.drop_all(t, event);
        } else {
            unreachable!();
        }
    }

    // Marks the task as refused at the event, and takes it off all phasers.
    fn drop_all(&mut self, t: TaskId, event: Event)
        requires task { t.0 < length self.old.plan.parents }
        requires before { IsAtAwaitOf self.old t.0 event }
        ensures { MakesRefusal self.old self.new t.0 }
    {
        let task = task_at(&self.tasks, t.0 as usize);
        self.phases.clear(t.0 as usize);
        self.tasks[t.0 as usize] = task.after_refusal(event);
    }

    // Publishes the event at which the task stands.
    fn block(&mut self, t: TaskId, event: Event)
        requires task { t.0 < length self.old.plan.parents }
        requires before { IsAtAwaitOf self.old t.0 event }
        ensures { IsWorldStep self.old self.new t.0 }
    {
        let at = t.0 as usize;
        self.tasks[at] = task_at(&self.tasks, at).after_block(event);
        raise(&mut self.highest, event);
    }

    // Withdraws the event, which is reached.
    fn pass(&mut self, t: TaskId, event: Event)
        requires task { t.0 < length self.old.plan.parents }
        requires waits { (state_of self.old).published t.0 ≡ Some event }
        requires reached { IsReached (state_of self.old) event }
        ensures { IsWorldStep self.old self.new t.0 }
    {
        let at = t.0 as usize;
        self.tasks[at] = task_at(&self.tasks, at).after_op();
        go_on(&mut self.cursors, at);
    }

    // Makes the op's own action.
    fn act(&mut self, t: TaskId)
        requires task { t.0 < length self.old.plan.parents }
        requires ready { IsBeforeOp self.old t.0 }
        ensures { IsWorldStep self.old self.new t.0 }
    {
        match self.next_op(t) {
            Some(Op::Fork { c }) => self.fork(t, c),
            Some(op) => self.change(t, op),
            None => unreachable!(),
        }
    }

    // Starts the child.
    fn fork(&mut self, t: TaskId, c: TaskId)
        requires task { t.0 < length self.old.plan.parents }
        requires active { IsActive (state_of self.old) t.0 }
        requires next { action_by_code self.old t.0 ≡ Some (Forks c.0) }
        ensures { IsWorldStep self.old self.new t.0 }
    {
        let child = task_at(&self.tasks, c.0 as usize);
        let task = task_at(&self.tasks, t.0 as usize);
        self.tasks[c.0 as usize] = child.after_fork();
        self.tasks[t.0 as usize] = task.after_op();
        go_on(&mut self.cursors, t.0 as usize);
    }

    // Makes an op that changes phases alone.
    fn change(&mut self, t: TaskId, op: Op)
        requires task { t.0 < length self.old.plan.parents }
        requires active { IsActive (state_of self.old) t.0 }
        requires next { action_by_code self.old t.0 ≡ Some (action_of op) }
        requires kind { ChangesPhases op }
        ensures { IsWorldStep self.old self.new t.0 }
    {
        let task = task_at(&self.tasks, t.0 as usize);
        move_phases(&mut self.phases, t.0 as usize, op);
        self.tasks[t.0 as usize] = task.after_op();
        go_on(&mut self.cursors, t.0 as usize);
    }
}
