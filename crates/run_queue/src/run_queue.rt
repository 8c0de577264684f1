// Which tasks of a world may act.
ghost use Rattle.std.specs.Prelude.{◌≡◌, ◌<◌, ◌≤◌, ◌⊎◌, ℕ, [], None, true, false, Contains, IfOk, IsTrue, IfSome, MatchOption, OnOk, length, vec_len};
ghost use Rattle.pl_core.specs.calls.Worlds.{WorldValue, state_of};
ghost use Rattle.run_queue.specs.calls.RunQueues.{HasNoTurn, HasTurnLeft, IsRunQueue, WaitsInQueue, waiters_at};
ghost use Rattle.run_queue.specs.declared.waiter.Waiter.{Waiter as WaiterValue};
ghost use Rattle.run_queue.specs.calls.StepKinds.{HasMoved, IsOfKind};
ghost use Rattle.run_queue.specs.inside.ReadyTasks.{AreForked, IsSet};
ghost use Rattle.run_queue.specs.inside.WaitQueues.{TakesOut};
ghost use Rattle.run_queue.specs.inside.Waking.{AreUnreached, Wakes};

use crate::StepKind;
use crate::ready::ReadyTasks;
use crate::wait_queue::WaitQueue;
use crate::waiter::Waiter;
use armus_base::{Event, NoMemory, PhaserId, TaskId};
use pl_core::{Stand, World};
use std::alloc::Global;

/// The tasks of a world that have a turn in a round, and those that wait, by phaser. A round is a search for the next one that has a turn, its steps, and
/// its end; who is forked in it has a turn in the next one. So no round looks at a task that only stands there.
#[derive(Drop)]
pub struct RunQueue {
    ready: ReadyTasks,
    waiting: Vec<WaitQueue>,
    // those that were forked in this round
    children: Vec<TaskId>,
}

// Nobody waits at so many phasers.
fn nobody_waits(alloc: Global, phasers: u32) -> Result<Vec<WaitQueue>, NoMemory>
    ensures sized { IfOk result (λ waiting. vec_len waiting ≡ phasers) }
    ensures empty { IfOk result (λ waiting. (p : ℕ) → waiters_at waiting.items p ≡ []) }
{
    let mut waiting = Vec::new(alloc);
    for _ in 0..phasers {
        waiting.push(WaitQueue::none(alloc))?;
    }
    Ok(waiting)
}

// Whether a task is forked.
fn is_forked(world: &World, t: TaskId) -> bool
    requires task { t.0 < length world.now.plan.parents }
    ensures { (state_of world.now).forked t.0 ≡ result }
{
    match world.stand(t) {
        Stand::Unforked => false,
        _ => true,
    }
}

// The tasks that are forked.
fn forked_tasks(alloc: Global, world: &World) -> Result<ReadyTasks, NoMemory>
    ensures tasks { IfOk result (λ ready. length ready.flags.items ≡ length world.now.plan.parents) }
    ensures forked { IfOk result (λ ready. AreForked world.now (length world.now.plan.parents) ready.flags.items) }
{
    let count = world.plan().tasks();
    let mut ready = ReadyTasks::none(alloc, count as usize)?;
    for t in 0..count {
        ready.add_if(t as usize, is_forked(world, TaskId(t)));
    }
    Ok(ready)
}

impl RunQueue {
    /// Before the first round from this world: each task that is forked has a turn.
    pub fn start(alloc: Global, world: &World) -> Result<RunQueue, NoMemory>
        ensures { IfOk result (IsRunQueue world.now world.now) }
    {
        let ready = forked_tasks(alloc, world)?;
        let waiting = nobody_waits(alloc, world.plan().phasers())?;
        Ok(RunQueue {
            ready,
            waiting,
            children: Vec::new(alloc),
        })
    }

    /// The first task from this number on that has a turn.
    pub fn next(&self, from: u32) -> Option<TaskId>
        ensures next { MatchOption result
            ((t : ℕ) → from ≤ t → HasTurnLeft self.now t → ⊥)
            (λ t. (from ≤ t.0) × HasTurnLeft self.now t.0 × ((u : ℕ) → from ≤ u → u < t.0 → HasTurnLeft self.now u → ⊥)) }
        ensures inside { (first w : WorldValue) → IsRunQueue first w self.now → IfSome result (λ t. t.0 < length w.plan.parents) }
    {
        match self.ready.next(from as usize) {
            Some(t) => Some(TaskId(t as u32)),
            None => None,
        }
    }

    /// Notes that task `t`, which has a turn, made a step of this kind, or was refused where it stood at an await: it has its turn still, and whoever may go on by
    /// that has one.
    pub fn step_made(&mut self, world: &World, t: TaskId, kind: StepKind) -> Result<(), NoMemory>
        requires task { t.0 < length world.now.plan.parents }
        ensures { OnOk result ((first old : WorldValue) → HasMoved old world.now t.0 → IsOfKind old t.0 kind → HasTurnLeft self.old t.0 → IsRunQueue first old self.old →
            HasTurnLeft self.new t.0 × IsRunQueue first world.now self.new) }
    {
        match kind {
            StepKind::Forks(c) => self.children.push(c)?,
            StepKind::Changes(p) => self.wake_at(world, p),
            StepKind::Awaits => self.wake_after(world, t),
            StepKind::Passes => {}
        }
        Ok(())
    }

    /// Notes that the turn of task `t` has ended: where it may not act, it has none until it may.
    pub fn turn_ended(&mut self, world: &World, t: TaskId) -> Result<(), NoMemory>
        requires task { t.0 < length world.now.plan.parents }
        ensures { OnOk result ((first : WorldValue) → HasTurnLeft self.old t.0 → IsRunQueue first world.now self.old → IsRunQueue first world.now self.new) }
    {
        if self.note(world, t)? {
            self.ready.take_out(t.0 as usize);
        }
        Ok(())
    }

    /// Notes that the round has ended: who was forked in it has a turn in the next one.
    pub fn round_ended(&mut self)
        ensures { (first w : WorldValue) → IsRunQueue first w self.old → IsRunQueue w w self.new }
    {
        'children: while let Some(c) = self.children.pop() {
            self.ready.add(c.0 as usize);
        }
    }

    // Where a task may not act, answers true, and puts it among those that wait, if it waits.
    fn note(&mut self, world: &World, t: TaskId) -> Result<bool, NoMemory>
        requires task { t.0 < length world.now.plan.parents }
        ensures noted { IfOk result (λ noted. noted ≡ true → (first : WorldValue) → HasTurnLeft self.old t.0 → IsRunQueue first world.now self.old →
            IsRunQueue first world.now self.new × HasNoTurn world.now self.new.waiting.items self.new.children.items t.0) }
        ensures same { IfOk result (λ noted. noted ≡ false → self.new ≡ self.old) }
    {
        match world.stand(t) {
            Stand::Waits(event) => {
                if world.is_reached(event) {
                    return Ok(false);
                }
                let put = self.put(t, event)?;
                Ok(put)
            }
            Stand::Ready | Stand::Await(_) => Ok(false),
            _ => Ok(true),
        }
    }

    // Puts a task among those that wait for an event, and answers true; false where its phaser is none of those that there are.
    fn put(&mut self, t: TaskId, event: Event) -> Result<bool, NoMemory>
        ensures ready { self.new.ready ≡ self.old.ready }
        ensures children { self.new.children ≡ self.old.children }
        ensures phasers { length self.new.waiting.items ≡ length self.old.waiting.items }
        ensures stays { (p : ℕ) (v : WaiterValue) → Contains (waiters_at self.old.waiting.items p) v → Contains (waiters_at self.new.waiting.items p) v }
        ensures others { (p : ℕ) (v : WaiterValue) → Contains (waiters_at self.new.waiting.items p) v → Contains (waiters_at self.old.waiting.items p) v ⊎ (v.task ≡ t) }
        ensures there { IfOk result (λ put. put ≡ true → WaitsInQueue self.new.waiting.items t.0 event) }
        ensures same { IfOk result (λ put. put ≡ false → self.new ≡ self.old) }
    {
        let at = event.p.0 as usize;
        if at >= self.waiting.len() {
            return Ok(false);
        }
        self.waiting[at].put(Waiter {
            task: t,
            phase: event.n,
        })?;
        Ok(true)
    }

    // Gives a turn to each task that waits at a phaser on an event that is reached.
    fn wake_at(&mut self, world: &World, p: PhaserId)
        ensures wakes { Wakes self.old self.new }
        ensures unreached { length self.old.waiting.items ≡ length world.now.plan.makers → AreUnreached (state_of world.now) self.new p.0 }
    {
        if p.0 < world.plan().phasers() {
            self.wake(world, p);
        }
    }

    // The same for a phaser of the plan.
    fn wake(&mut self, world: &World, p: PhaserId)
        requires phaser { p.0 < length world.now.plan.makers }
        ensures wakes { Wakes self.old self.new }
        ensures unreached { AreUnreached (state_of world.now) self.new p.0 }
    {
        'waiting: while let Some(t) = self.take_reached(world, p) {
            self.ready.add(t.0 as usize);
        }
    }

    // Takes out a task that waits at a phaser on an event that is reached; None exactly where there is none.
    fn take_reached(&mut self, world: &World, p: PhaserId) -> Option<TaskId>
        requires phaser { p.0 < length world.now.plan.makers }
        ensures ready { self.new.ready ≡ self.old.ready }
        ensures children { self.new.children ≡ self.old.children }
        ensures phasers { length self.new.waiting.items ≡ length self.old.waiting.items }
        ensures others { (q : ℕ) → (q ≡ p.0 → ⊥) → waiters_at self.new.waiting.items q ≡ waiters_at self.old.waiting.items q }
        ensures here { MatchOption result
            ((waiters_at self.new.waiting.items p.0 ≡ waiters_at self.old.waiting.items p.0) × AreUnreached (state_of world.now) self.new p.0)
            (λ t. TakesOut (waiters_at self.old.waiting.items p.0) (waiters_at self.new.waiting.items p.0) t) }
    {
        let at = p.0 as usize;
        if at >= self.waiting.len() {
            return None;
        }
        self.waiting[at].take_reached(world, p)
    }

    // Gives a turn to each task that waits on an event that is reached, where task `t` is not published.
    fn wake_after(&mut self, world: &World, t: TaskId)
        requires task { t.0 < length world.now.plan.parents }
        ensures wakes { Wakes self.old self.new }
        ensures unreached { (state_of world.now).published t.0 ≡ None → (p : ℕ) → p < length world.now.plan.makers → AreUnreached (state_of world.now) self.new p }
    {
        if let None = world.published(t) {
            self.wake_all(world);
        }
    }

    // Gives a turn to each task that waits on an event that is reached.
    fn wake_all(&mut self, world: &World)
        ensures wakes { Wakes self.old self.new }
        ensures unreached { (p : ℕ) → p < length world.now.plan.makers → AreUnreached (state_of world.now) self.new p }
    {
        for p in 0..world.plan().phasers() {
            self.wake(world, PhaserId(p));
        }
    }
}
