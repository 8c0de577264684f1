// A world in play: tasks go on in it, and their awaits are decided, step by step as a row says.
ghost use Rattle.std.specs.Prelude.{◌≡◌, ◌<◌, length};

use crate::finals::final_state;
use crate::telling::decision_is;
use adaptive::Wanted;
use armus_base::{NoMemory, Plan, TaskEnd, TaskId};
use avoider::{Judge, Judging, avoid_step, avoid_step_kept, go_on};
use order_graph::Order;
use pl_core::{Stand, World};
use std::alloc::{AllocError, Global};
use std::marker::Model;
use tests_rows::{add_event, columns, event, number};

/// A world in which nobody is dead, and an order of its tasks. Contracts see the world.
#[derive(Drop)]
pub(crate) struct WorldPlay<'p> {
    world: World<'p>,
    order: Order,
}

impl<'p> Model for WorldPlay<'p> {
    ghost use Rattle.pl_core.specs.calls.Worlds.{WorldValue};

    ghost Value = { WorldValue };

    ghost use Rattle.tests_board.specs.calls.Rooms.{IsWithOrder};

    ghost view = { λ w. w.world };

    ghost invariant = { λ w. IsWithOrder w.world w.order };
}

impl<'p> WorldPlay<'p> {
    /// The plan's opening state.
    pub(crate) fn begin(alloc: Global, plan: &'p Plan) -> Result<WorldPlay<'p>, NoMemory> {
        let world = World::start(alloc, plan)?;
        let order = Order::start(alloc, plan.tasks())?;
        Ok(WorldPlay { world, order })
    }

    /// Whether each step is as the row says.
    pub(crate) fn plays(&mut self, alloc: Global, steps: &str) -> Result<bool, NoMemory> {
        for step in steps.split(",") {
            if !self.step(alloc, step)? {
                return Ok(false);
            }
        }
        Ok(true)
    }

    fn step(&mut self, alloc: Global, step: &str) -> Result<bool, NoMemory> {
        let (who, verb, rest) = columns(step.trim(), " ");
        match who {
            "order" => Ok(self.has_edges(rest)),
            "ends" => self.ends_so(alloc, rest),
            _ => self.task_step(alloc, TaskId(number(who)), verb, rest),
        }
    }

    fn task_step(
        &mut self,
        alloc: Global,
        t: TaskId,
        verb: &str,
        rest: &str,
    ) -> Result<bool, NoMemory> {
        if t.0 >= self.world.plan().tasks() {
            return Ok(false);
        }
        match verb {
            "goes" => self.goes(alloc, t, number(rest)),
            "decides" => self.decides(alloc, t, false, rest),
            "keeps" => self.decides(alloc, t, true, rest),
            _ => Ok(self.stands(t, verb, rest)),
        }
    }

    // Whether a task makes this many events.
    fn goes(&mut self, alloc: Global, t: TaskId, count: u32) -> Result<bool, NoMemory> {
        let mut judge = Judge::new(Judging::Graph(Wanted::Auto));
        for _ in 0..count {
            if !self.goes_once(alloc, t, &mut judge)? {
                return Ok(false);
            }
        }
        Ok(true)
    }

    fn goes_once(&mut self, alloc: Global, t: TaskId, judge: &mut Judge) -> Result<bool, NoMemory> {
        if t.0 >= self.world.plan().tasks() || !self.world.enabled(t) {
            return Ok(false);
        }
        go_on(alloc, &mut self.world, t, judge)?;
        Ok(true)
    }

    // Whether a task waits for an event, or stands before the await of it.
    fn stands(&self, t: TaskId, verb: &str, rest: &str) -> bool
        requires { t.0 < length self.now.plan.parents }
    {
        match self.world.stand(t) {
            Stand::Waits(found) => verb == "waits" && found == event(rest),
            Stand::Await(found) => verb == "awaits" && found == event(rest),
            _ => false,
        }
    }

    // Whether the await of a task is decided so, by the order if that is kept.
    fn decides(
        &mut self,
        alloc: Global,
        t: TaskId,
        kept: bool,
        wanted: &str,
    ) -> Result<bool, NoMemory>
        requires { t.0 < length self.old.plan.parents }
    {
        let Stand::Await(_) = self.world.stand(t) else {
            return Ok(false);
        };
        let decision = if kept {
            avoid_step_kept(alloc, &mut self.world, t, &mut self.order)?
        } else {
            avoid_step(alloc, &mut self.world, t, Wanted::Auto)?
        };
        decision_is(alloc, &decision, wanted)
    }

    // Whether the edges of the order are just these.
    fn has_edges(&self, edges: &str) -> bool {
        let mut all = true;
        for a in 0..self.order.tasks() {
            for b in 0..self.order.tasks() {
                let there = self.order.has(TaskId(a), TaskId(b));
                all = all && there == is_among(edges, a, b);
            }
        }
        all
    }

    // Whether no task may go on, and all have ended so.
    fn ends_so(&self, alloc: Global, wanted: &str) -> Result<bool, NoMemory> {
        match final_state(alloc, &self.world)? {
            Some(end) => {
                let text = ends_text(alloc, end.ends.as_slice())?;
                Ok(end.blocked.as_slice().is_empty() && text.as_str().trim() == wanted)
            }
            None => Ok(false),
        }
    }
}

// Whether a text is the edge from one task to another.
fn is_edge(text: &str, a: u32, b: u32) -> bool {
    match text.split_once("-") {
        Some((from, to)) => a == number(from) && b == number(to),
        None => false,
    }
}

// Whether the edge from one task to another is one of these.
fn is_among(edges: &str, a: u32, b: u32) -> bool {
    let mut found = false;
    for edge in edges.split(" ") {
        found = is_edge(edge, a, b) || found;
    }
    found
}

// How tasks have ended: a word and the event for each.
fn ends_text(alloc: Global, ends: &[TaskEnd]) -> Result<String, AllocError> {
    let mut text = String::new(alloc);
    for end in ends {
        match end {
            TaskEnd::Done => text.push_str("done ")?,
            TaskEnd::Unforked => text.push_str("unforked ")?,
            TaskEnd::Blocked(event) => {
                text.push_str("blocked ")?;
                add_event(&mut text, *event)?;
            }
            TaskEnd::Refused(event) => {
                text.push_str("refused ")?;
                add_event(&mut text, *event)?;
            }
        }
    }
    Ok(text)
}
