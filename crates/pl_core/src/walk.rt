// A walk along the codes of the tasks, in order of number, to given places.
ghost use Rattle.std.specs.Prelude.{◌≡◌, ◌+◌, ◌<◌, ◌^◌, None, Some, true, IfOk, drop, length, slice_get, ◌||◌, if◌then◌else◌};
ghost use Rattle.armus_base.specs.Plans.{code_of};
ghost use Rattle.armus_base.specs.States.{updated};
ghost use Rattle.pl_core.specs.inside.Effects.{HasRoomFor};
ghost use Rattle.pl_core.specs.inside.Reachable.{AreReachable};
ghost use Rattle.pl_core.specs.inside.Ops.{action_of, phases_moved};
ghost use Rattle.pl_core.specs.inside.PhaseTables.{KeepsCells, phases_in};
ghost use Rattle.pl_core.specs.inside.Cursors.{AreAt, KeepsOtherCursors, op_index_of};
ghost use Rattle.pl_core.specs.inside.Stops.{IsStopOf};
ghost use Rattle.pl_core.specs.inside.Kept.{KeepsState};
ghost use Rattle.pl_core.specs.calls.Tables.{kept_places};
ghost use Rattle.pl_core.specs.Tasks.{actions_before};
ghost use Rattle.pl_core.specs.inside.Walks.{AwaitsBelow, AwaitsNear, ForksBelow, HasWalked, event_of_op, marked_by, walked, walking};
ghost use Rattle.pl_core.specs.calls.Worlds.{places_at};

use crate::Place;
use crate::effect::move_phases;
use crate::phase_table::MemberTable;
use crate::stop::{Stop, events_in};
use crate::task::{TaskRecord, first_tasks, task_at};
use armus_base::{Cursor, Event, NoMemory, Op, Plan, TaskId};
use std::alloc::Global;

/// The place at this index.
pub(crate) fn place_within(places: &[Place], at: usize) -> Place
    requires { at < length places.now }
    ensures { slice_get places.now at ≡ Some result }
{
    places[at]
}

// Marks the child that the op forks.
fn mark_forked(tasks: &mut Vec<TaskRecord>, op: Op)
    requires child { ForksBelow (length tasks.old.items) op }
    ensures { tasks.new.items ≡ marked_by tasks.old.items op }
{
    match op {
        Op::Fork { c } => {
            let at = c.0 as usize;
            tasks[at] = task_at(tasks, at).after_fork();
        }
        _ => {}
    }
}

// The event of the await before which a task stands.
fn event_of(phases: &MemberTable, t: usize, op: Option<Op>) -> Option<Event>
    requires task { t < 2 ^ 32 }
    requires phaser { AwaitsBelow phases.now.phasers op }
    requires near { AwaitsNear (phases_in phases.now t) op }
    ensures { result ≡ event_of_op op (phases_in phases.now t) }
{
    match op {
        Some(Op::Await { p, off }) => match phases.get(t, p.0 as usize) {
            Some(n) => Some(Event {
                p,
                n: off.target(n),
            }),
            None => None,
        },
        _ => None,
    }
}

// Takes a refused task off all phasers.
fn clear_refused(phases: &mut MemberTable, t: usize, refused: bool)
    requires task { t < 2 ^ 32 }
    ensures phasers { phases.new.phasers ≡ phases.old.phasers }
    ensures cells { KeepsCells phases.old phases.new }
    ensures cleared { phases_in phases.new ≡ (if refused then updated (phases_in phases.old) t (λ _. None) else phases_in phases.old) }
{
    if refused {
        phases.clear(t);
    }
}

// What is kept of the tasks, and their phases, so far.
#[derive(Drop)]
pub(crate) struct CodeWalk {
    pub(crate) tasks: Vec<TaskRecord>,
    pub(crate) phases: MemberTable,
}

impl CodeWalk {
    /// What is kept at these places, and a cursor for each task.
    pub(crate) fn to_places<'p>(
        alloc: Global,
        plan: &'p Plan,
        places: &[Place],
    ) -> Result<(CodeWalk, Vec<Cursor<'p>>), NoMemory>
        requires given { AreReachable plan.now places.now }
        ensures kept { IfOk result (λ w. KeepsState plan.now w.0.tasks.items w.0.phases) }
        ensures places { IfOk result (λ w. kept_places w.0.tasks.items ≡ places.now) }
        ensures cursors { IfOk result (λ w. AreAt plan.now (length plan.now.parents) w.0.tasks.items w.1.items) }
    {
        let count = plan.tasks() as usize;
        let phases = MemberTable::of(alloc, plan)?;
        let tasks = first_tasks(alloc, count)?;
        let mut walk = CodeWalk { tasks, phases };
        let mut cursors = Vec::new(alloc);
        for t in 0..plan.tasks() {
            cursors.push(walk.settle(plan, places, TaskId(t)))?;
        }
        Ok((walk, cursors))
    }

    // Walks the code of one task to its place, and answers the cursor there.
    fn settle<'p>(&mut self, plan: &'p Plan, places: &[Place], t: TaskId) -> Cursor<'p>
        requires task { t.0 < length plan.now.parents }
        requires given { AreReachable plan.now places.now }
        requires walked { HasWalked plan.now places.now (walked (places_at plan.now places.now) t.0) t.0 self.old.tasks.items self.old.phases }
        ensures walked { HasWalked plan.now places.now (walked (places_at plan.now places.now) (t.0 + 1)) (t.0 + 1) self.new.tasks.items self.new.phases }
        ensures cursor { result ≡ drop (op_index_of self.new.tasks.items t.0) (code_of plan.now t.0) }
        ensures others { KeepsOtherCursors t.0 self.old.tasks.items self.new.tasks.items }
    {
        let mut cursor = plan.cursor(t);
        let stop = self.make_ops(plan, places, t, &mut cursor);
        self.stand(plan, places, t, stop, cursor.peek());
        cursor
    }

    // Makes the ops of one task that its place has behind it, and answers where it stands then; the cursor goes there from the first op of its code.
    fn make_ops(
        &mut self,
        plan: &Plan,
        places: &[Place],
        t: TaskId,
        cursor: &mut Cursor<'_>,
    ) -> Stop
        requires task { t.0 < length plan.now.parents }
        requires given { AreReachable plan.now places.now }
        requires first { cursor.old ≡ code_of plan.now t.0 }
        requires walked { HasWalked plan.now places.now (walked (places_at plan.now places.now) t.0) t.0 self.old.tasks.items self.old.phases }
        ensures stop { IsStopOf (code_of plan.now t.0) (places_at plan.now places.now t.0).done result }
        ensures cursor { cursor.new ≡ drop result.op (code_of plan.now t.0) }
        ensures walking { HasWalked plan.now places.now (walking (places_at plan.now places.now) t.0 (actions_before (code_of plan.now t.0) result.op)) t.0 self.new.tasks.items self.new.phases }
        ensures others { KeepsOtherCursors t.0 self.old.tasks.items self.new.tasks.items }
    {
        let mut left = place_within(places, t.0 as usize).events;
        let mut made = 0;
        while let Some(op) = cursor.peek() {
            let size = events_in(op);
            if left < size {
                return Stop {
                    op: made,
                    begun: left == 1,
                };
            }
            self.make_op(t, op);
            cursor.next();
            left -= size;
            made += 1;
        }
        Stop {
            op: made,
            begun: false,
        }
    }

    // Makes one op of a task.
    fn make_op(&mut self, t: TaskId, op: Op)
        requires child { ForksBelow (length self.old.tasks.items) op }
        requires room { HasRoomFor self.old.phases t.0 op }
        ensures tasks { self.new.tasks.items ≡ marked_by self.old.tasks.items op }
        ensures cells { KeepsCells self.old.phases self.new.phases }
        ensures columns { self.new.phases.phasers ≡ self.old.phases.phasers }
        ensures moved { phases_in self.new.phases ≡ phases_moved (phases_in self.old.phases) t.0 (action_of op) }
    {
        mark_forked(&mut self.tasks, op);
        move_phases(&mut self.phases, t.0 as usize, op);
    }

    // Puts a task at its place, before which it has made all its ops, and is before this op.
    fn stand(&mut self, plan: &Plan, places: &[Place], t: TaskId, stop: Stop, op: Option<Op>)
        requires task { t.0 < length plan.now.parents }
        requires given { AreReachable plan.now places.now }
        requires stop { IsStopOf (code_of plan.now t.0) (places_at plan.now places.now t.0).done stop }
        requires op { op ≡ slice_get (code_of plan.now t.0) stop.op }
        requires walking { HasWalked plan.now places.now (walking (places_at plan.now places.now) t.0 (actions_before (code_of plan.now t.0) stop.op)) t.0 self.old.tasks.items self.old.phases }
        ensures walked { HasWalked plan.now places.now (walked (places_at plan.now places.now) (t.0 + 1)) (t.0 + 1) self.new.tasks.items self.new.phases }
        ensures stands { op_index_of self.new.tasks.items t.0 ≡ stop.op }
        ensures others { KeepsOtherCursors t.0 self.old.tasks.items self.new.tasks.items }
    {
        let at = t.0 as usize;
        let place = place_within(places, at);
        let event = self.event(t, op, stop.begun, place.refused);
        clear_refused(&mut self.phases, at, place.refused);
        let forked = task_at(&self.tasks, at).forked;
        self.tasks[at] = TaskRecord {
            place,
            op: stop.op,
            event,
            forked,
        };
    }

    // The event of a task's op, if the task is published or refused there.
    fn event(&self, t: TaskId, op: Option<Op>, begun: bool, refused: bool) -> Option<Event>
        requires phaser { AwaitsBelow self.now.phases.phasers op }
        requires near { begun || refused ≡ true → AwaitsNear (phases_in self.now.phases t.0) op }
        ensures { result ≡ (if begun || refused then event_of_op op (phases_in self.now.phases t.0) else None) }
    {
        if begun || refused {
            event_of(&self.phases, t.0 as usize, op)
        } else {
            None
        }
    }
}
