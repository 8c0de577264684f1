// A live task of a recorded run.
ghost use Rattle.std.specs.Prelude.{◌≡◌, ◌<◌, IfOk, IfSome, true, length};
ghost use Rattle.armus_base.specs.declared.op.Op.TheVariants.{Fork};
ghost use Rattle.armus_base.specs.declared.ids.TaskId.{TaskId};

use armus_base::{Cursor, Gate, NoMemory, Op, Plan, Point, TaskId};
use locked_world::{LockedWorld, PlanName};
use std::marker::{Model, PhantomData};
use std::sync::Wait;

/// A live task of a recorded run: how far it has come, as its worker counts it from the answers of its steps. Contracts see the ops that it has not done, and
/// those that it had not done when its last turn began.
#[derive(Drop)]
pub(crate) struct LiveTask<'p, N: PlanName> {
    t: TaskId,
    // stands at its next op, or at the await that it has begun
    cursor: Cursor<'p>,
    // the index of that op
    op: u32,
    // whether it has begun that await
    begun: bool,
    // stands where its last turn began, until its children are taken
    behind: Cursor<'p>,
    // the index of the op at which that one stands
    turn_from: u32,
    // whether it made a step in its last turn
    moved: bool,
    name: PhantomData<N>,
}

impl<'p, N: PlanName> Model for LiveTask<'p, N> {
    ghost use Rattle.world_runs.specs.inside.LiveTasks.{IsLive, Live};

    ghost Value = { Live };

    ghost view = { λ w. record { left = w.cursor; behind = w.behind } };

    ghost invariant = { λ w. IsLive N.plan w.t w.cursor w.op w.behind w.turn_from };
}

impl<'p, N: PlanName> LiveTask<'p, N> {
    /// A task that has made no step.
    pub(crate) fn new(t: TaskId, plan: &'p Plan) -> LiveTask<'p, N>
        requires plan { plan.now ≡ N.plan }
        requires task { t.0 < length N.plan.parents }
    {
        let _tasks = plan.tasks();
        LiveTask {
            t,
            cursor: plan.cursor(t),
            op: 0,
            begun: false,
            behind: plan.cursor(t),
            turn_from: 0,
            moved: false,
            name: PhantomData,
        }
    }

    /// Its number.
    pub(crate) fn id(&self) -> TaskId {
        self.t
    }

    /// How many ops it went on in its last turn, where one that it began or made counts as one.
    pub(crate) fn steps(&self) -> u32 {
        if self.moved {
            self.op.saturating_sub(self.turn_from).max(1)
        } else {
            0
        }
    }

    /// Whether its code is done.
    pub(crate) fn is_done(&self) -> bool {
        self.cursor.peek().is_none()
    }

    /// Its turn: it acts until its code is done or the event on which it waits is not reached.
    pub(crate) fn act<R: Wait, G: Gate>(
        &mut self,
        rt: &R,
        shared: &LockedWorld<'_, N>,
        gate: &G,
    ) -> Result<(), NoMemory> {
        self.moved = false;
        'turn: while self.do_op(rt, shared, gate)? {}
        Ok(())
    }

    // Makes the steps of its next op, of which an await has two; answers whether there was one, and it is done.
    fn do_op<R: Wait, G: Gate>(
        &mut self,
        rt: &R,
        shared: &LockedWorld<'_, N>,
        gate: &G,
    ) -> Result<bool, NoMemory>
        ensures further { IfOk result (λ done. done ≡ true → length self.new.left < length self.old.left) }
    {
        let Some(op) = self.cursor.peek() else {
            return Ok(false);
        };
        if !self.begin(rt, shared, gate)? {
            return Ok(false);
        }
        if !self.end(rt, shared, op)? {
            return Ok(false);
        }
        self.begun = false;
        let _op = self.cursor.next();
        self.op += 1;
        Ok(true)
    }

    // Makes the step with which its next op begins, if it is not begun; answers whether it is. The gate is called before the op.
    fn begin<R: Wait, G: Gate>(
        &mut self,
        rt: &R,
        shared: &LockedWorld<'_, N>,
        gate: &G,
    ) -> Result<bool, NoMemory>
        ensures same { self.new ≡ self.old }
    {
        if self.begun {
            return Ok(true);
        }
        let (t, k) = (self.t, self.op);
        gate.at(Point::Op { t, k });
        let made = self.step(rt, shared)?;
        self.begun = made;
        Ok(made)
    }

    // Makes the step with which an await ends; every other op has ended. Answers whether the op is done.
    fn end<R: Wait>(
        &mut self,
        rt: &R,
        shared: &LockedWorld<'_, N>,
        op: Op,
    ) -> Result<bool, NoMemory>
        ensures same { self.new ≡ self.old }
    {
        match op {
            Op::Await { p: _, off: _ } => self.step(rt, shared),
            _ => Ok(true),
        }
    }

    // Makes one step under the lock, where the task may go on.
    fn step<R: Wait>(&mut self, rt: &R, shared: &LockedWorld<'_, N>) -> Result<bool, NoMemory>
        ensures same { self.new ≡ self.old }
    {
        let made = shared.lock(rt).step(self.t)?;
        self.moved = self.moved || made;
        Ok(made)
    }

    /// Appends the tasks that it forked in its last turn.
    pub(crate) fn take_children(
        &mut self,
        plan: &'p Plan,
        children: &mut Vec<LiveTask<'p, N>>,
    ) -> Result<(), NoMemory>
        requires plan { plan.now ≡ N.plan }
    {
        'ops: while let Some(op) = self.next_behind() {
            match op {
                Op::Fork { c } => children.push(LiveTask::new(c, plan))?,
                _ => {}
            }
        }
        Ok(())
    }

    // The next one of the ops that it did in its last turn.
    fn next_behind(&mut self) -> Option<Op>
        ensures child { IfSome result (λ op. (c : TaskId) → op ≡ Fork c → c.0 < length N.plan.parents) }
        ensures further { IfSome result (λ op. length self.new.behind < length self.old.behind) }
    {
        if self.turn_from >= self.op {
            return None;
        }
        let op = self.behind.next()?;
        self.turn_from += 1;
        Some(op)
    }
}
