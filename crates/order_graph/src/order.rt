// An order of tasks that is kept while edges come and go.
ghost use Rattle.std.specs.Prelude.{◌≡◌, ◌≤◌, ◌<◌, ◌+◌, List, length, All, IfOk, IsTrue, OnErr, OnOk, MatchBool};
ghost use Rattle.armus_base.specs.declared.ids.TaskId.{TaskId};
ghost use Rattle.armus_base.specs.declared.status.Status.{Status};
ghost use Rattle.armus_base.specs.calls.Statuses.{IsInOrder};
ghost use Rattle.dep_state.specs.calls.Deps.{IsDepsOf};
ghost use Rattle.order_graph.specs.calls.Adding.{AnswersAdd, HasEdgeMore, HasNoEdge};
ghost use Rattle.order_graph.specs.calls.Following.{AnswersFollow, AnswersFollowing};
ghost use Rattle.order_graph.specs.calls.Orders.{IsEdge, IsNewOrder, IsOrder, IsTaskOf, position_of, successors_of};
ghost use Rattle.order_graph.specs.calls.Waits.{AreWaitsAmong, Awaits};
ghost use Rattle.order_graph.specs.inside.Distances.{NeverReaches};
ghost use Rattle.order_graph.specs.inside.Mending.{IsMended, IsStretch};
ghost use Rattle.order_graph.specs.inside.Rows.{KeepsOnly};

use crate::mending::{FoundBelow, look};
use crate::waits::waits_of;
use crate::{Added, Followed, TaskSet, Waits, following, settling};
use armus_base::{List, NoMemory, TaskId};
use dep_state::DepState;
use std::alloc::{AllocError, Global};
use std::marker::Model;

/// Tasks in an order, with edges between them. Contracts see each task's position, a distinct number below the number of tasks, and each task's
/// successors; an edge goes from a smaller position to a larger one.
#[derive(Drop)]
pub struct Order {
    positions: Vec<u32>,
    at: Vec<TaskId>,
    rows: Vec<TaskSet>,
}

impl Model for Order {
    ghost use Rattle.order_graph.specs.calls.Orders.{OrderValue, IsOrder};
    ghost use Rattle.order_graph.specs.inside.Rows.{AreInverse, order_of};

    ghost Value = { OrderValue };

    ghost view = { λ o. order_of o.rows.items o.positions.items };

    ghost invariant = { λ o. IsOrder (order_of o.rows.items o.positions.items) × AreInverse o.positions.items o.at.items };
}

impl Order {
    /// An order of the tasks below a number: there are no edges, and each task's position is its number.
    pub fn start(alloc: Global, tasks: u32) -> Result<Order, NoMemory>
        ensures { IfOk result (IsNewOrder tasks) }
    {
        let count = tasks as usize;
        let mut positions = Vec::with_capacity(alloc, count)?;
        let mut at = Vec::with_capacity(alloc, count)?;
        let mut rows = Vec::with_capacity(alloc, count)?;
        for t in 0..tasks {
            positions.push(t)?;
            at.push(TaskId(t))?;
            rows.push(TaskSet::none(alloc))?;
        }
        Ok(Order {
            positions,
            at,
            rows,
        })
    }

    /// The number of tasks.
    pub fn tasks(&self) -> u32
        ensures tasks { result ≡ length self.now.positions }
        ensures order { IsOrder self.now }
    {
        self.positions.len() as u32
    }

    /// The position of a task.
    pub fn position(&self, t: TaskId) -> u32
        requires { IsTaskOf self.now t }
        ensures position { result ≡ position_of self.now t }
        ensures order { IsOrder self.now }
    {
        self.positions[t.0 as usize]
    }

    /// Whether there is an edge from `a` to `b`.
    pub fn has(&self, a: TaskId, b: TaskId) -> bool
        requires from { IsTaskOf self.now a }
        requires to { IsTaskOf self.now b }
        ensures edge { MatchBool result (IsEdge self.now a b) (¬ IsEdge self.now a b) }
        ensures order { IsOrder self.now }
    {
        self.rows[a.0 as usize].has(b)
    }

    /// Adds the edge from `a` to `b`. Kept: it is there, no other edge has changed, and only tasks between the two positions have moved, none where
    /// `a` stood before `b`. Cycle comes exactly where edges lead from `b` to `a`, or the two are one task; the order is then as before. After
    /// `NoMemory` it is as before, too.
    pub fn add(&mut self, alloc: Global, a: TaskId, b: TaskId) -> Result<Added, NoMemory>
        requires from { IsTaskOf self.old a }
        requires to { IsTaskOf self.old b }
        ensures added { IfOk result (AnswersAdd a b self.old self.new) }
        ensures order { IsOrder self.new }
        ensures err { OnErr result (self.new ≡ self.old) }
    {
        if self.position(a) < self.position(b) {
            self.put(a, b)?;
            return Ok(Added::Kept);
        }
        match look(alloc, self, a, b)? {
            FoundBelow::Walk(list) => Ok(Added::Cycle(List::from_vec(list))),
            FoundBelow::Mended(ts) => {
                self.mend(a, b, &ts)?;
                Ok(Added::Kept)
            }
        }
    }

    /// Takes the edge from `a` to `b` away, if it is there. No task moves.
    pub fn clear(&mut self, a: TaskId, b: TaskId)
        requires from { IsTaskOf self.old a }
        requires to { IsTaskOf self.old b }
        ensures cleared { HasNoEdge a b self.old self.new }
        ensures order { IsOrder self.new }
    {
        self.rows[a.0 as usize].take_out(b);
    }

    /// Makes the edges the pairs of the wait-for graph: takes away each edge that is no pair, and adds the pairs that are missing. Kept comes exactly
    /// where the pairs have no cycle, and the edges are then the pairs. Dead comes exactly where they have one, and the edges are then some of the
    /// pairs. Where the positions order all pairs already, nobody moves. After `NoMemory` the edges may be any.
    pub fn follow(&mut self, alloc: Global, deps: &DepState) -> Result<Followed, NoMemory>
        requires { All (IsTaskOf self.old) deps.now.tasks }
        ensures tasks { length self.new.positions ≡ length self.old.positions }
        ensures order { IsOrder self.new }
        ensures followed { (ss : List Status) → IsInOrder ss → IsDepsOf ss deps.now → IfOk result (AnswersFollow ss self.old self.new) }
    {
        let waits = waits_of(alloc, self.tasks(), deps)?;
        self.follow_waits(alloc, &waits)
    }

    /// Makes the edges the pairs of these waits, as `follow` does those of relations. Each row is looked at once, word by word beside that which it is to be;
    /// edges are added one by one, only to rows that have too few then.
    pub fn follow_waits(&mut self, alloc: Global, waits: &Waits) -> Result<Followed, NoMemory>
        requires { AreWaitsAmong (length self.old.positions) waits.now }
        ensures tasks { length self.new.positions ≡ length self.old.positions }
        ensures order { IsOrder self.new }
        ensures followed { IfOk result (AnswersFollowing (Awaits waits.now) self.old self.new) }
    {
        let behind = following::drop_others(alloc, self, waits)?;
        following::add_missing(alloc, self, waits, &behind)
    }

    // The tasks to which there is an edge from a task.
    pub(crate) fn row(&self, a: TaskId) -> &TaskSet
        requires { IsTaskOf self.now a }
        ensures row { result.now ≡ successors_of self.now a }
        ensures order { IsOrder self.now }
    {
        &self.rows[a.0 as usize]
    }

    // The tasks from b's position to a's.
    pub(crate) fn stretch(&self, b: TaskId, a: TaskId) -> &[TaskId]
        requires from { IsTaskOf self.now a }
        requires to { IsTaskOf self.now b }
        requires down { position_of self.now b ≤ position_of self.now a }
        ensures stretch { IsStretch self.now b a result.now }
        ensures order { IsOrder self.now }
    {
        let low = self.position(b) as usize;
        let high = self.position(a) as usize;
        &self.at[low..high + 1]
    }

    // Adds an edge that goes up.
    fn put(&mut self, a: TaskId, b: TaskId) -> Result<(), AllocError>
        requires from { IsTaskOf self.old a }
        requires to { IsTaskOf self.old b }
        requires up { position_of self.old a < position_of self.old b }
        ensures ok { OnOk result (HasEdgeMore a b self.old self.new) }
        ensures order { IsOrder self.new }
        ensures err { OnErr result (self.new ≡ self.old) }
    {
        self.rows[a.0 as usize].put(b)
    }

    // Adds an edge that goes down, and puts the tasks between its ends into an order in which it goes up.
    fn mend(&mut self, a: TaskId, b: TaskId, ts: &[TaskId]) -> Result<(), AllocError>
        requires from { IsTaskOf self.old a }
        requires to { IsTaskOf self.old b }
        requires down { position_of self.old b ≤ position_of self.old a }
        requires no_walk { NeverReaches self.old a b }
        requires mended { IsMended self.old a b ts.now }
        ensures ok { OnOk result (HasEdgeMore a b self.old self.new) }
        ensures order { IsOrder self.new }
        ensures err { OnErr result (self.new ≡ self.old) }
    {
        let low = self.positions[b.0 as usize];
        self.rows[a.0 as usize].put(b)?;
        settling::settle(&mut self.positions, &mut self.at, low, ts);
        Ok(())
    }

    // Takes the edges from a task away that do not lead to wanted tasks; true only where all edges to wanted tasks are there.
    pub(crate) fn keep_only(&mut self, t: TaskId, wanted: &TaskSet) -> bool
        requires task { IsTaskOf self.old t }
        ensures kept { KeepsOnly t wanted.now self.old self.new }
        ensures all { IsTrue result → successors_of self.new t ≡ wanted.now }
        ensures order { IsOrder self.new }
    {
        self.rows[t.0 as usize].keep_common(wanted)
    }
}
