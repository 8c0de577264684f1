// What the checker keeps, and its changes.

ghost use Rattle.std.specs.Prelude.{◌≡◌, ◌+◌, ◌*◌, ◌<◌, ◌≤◌, ◌^◌, ◌++◌, ◌∷◌, [], length, replicate, slice_index_or, OnOk, IfOk, None, false, is_some, take, ℕ};
ghost use Rattle.pl_plan.specs.inside.Steps.{step_at};
ghost use Rattle.pl_plan.specs.inside.Opening.{IsOpeningChecker};
ghost use Rattle.pl_plan.specs.declared.step.Thing.TheVariants.{Nothing};
ghost use Rattle.pl_plan.specs.inside.Checker.{Checker as CheckerValue, IsChecker, IsThings, slot_of, thing_at, slotted, with_thing, with_task, with_maker, pushed, with_membership, started, padded, with_start_things, range_of};
ghost use Rattle.pl_plan.specs.inside.CheckerSteps.{member};
ghost use Rattle.pl_plan.specs.inside.KeptForks.{kept_fork};

use crate::membership::Membership;
use crate::step::{FlatStep, NameId, Thing};
use armus_base::{List, MAX_PHASERS, MAX_TASKS, NoMemory, Op, PhaserId, TaskId};
use std::alloc::{AllocError, AllocFailed, Global};
use std::marker::Model;
use std::rc::Rc;

// How many slots there may be: each assignment draws a task or makes a phaser.
const MAX_SLOTS: usize = (MAX_TASKS + MAX_PHASERS) as usize;

/// With what a task was forked: where its steps begin and end, and its names' things by slot, which tasks share that were forked with the same ones.
#[derive(Drop)]
pub struct Start {
    pub first: u32,
    pub after: u32,
    pub things: Rc<Vec<Thing>>,
}

impl Model for Start {
    ghost use Rattle.pl_plan.specs.inside.Checker.{CheckerStart};

    ghost Value = { CheckerStart };

    ghost view = { λ s. record { first = s.first; after = s.after; things = s.things.value.items } };
}

// What the names stand for: a slot for each name, and the current task's things by slot. What the last fork was given is shared with the next one,
// where no name has come to stand for something else since.
#[derive(Drop)]
pub(crate) struct Bindings {
    slots: Vec<u32>,
    slot_count: u32,
    things: Vec<Thing>,
    shared: Option<Rc<Vec<Thing>>>,
}

// How many ops and visits there were.
#[derive(Clone, Copy)]
pub(crate) struct Counts {
    ops: u32,
    visits: u32,
}

/// What the checker keeps: the flat steps; the three lists of the plan so far; the starts of the tasks; on which phasers each is a member; what the names
/// stand for; and the counts. A visit reads one step and a few entries, and compares no names; a fork copies the things in the slots that there are, where
/// a name has come to stand for something else since the last fork.
#[derive(Drop)]
pub struct Checker {
    steps: Vec<FlatStep>,
    parents: Vec<Option<TaskId>>,
    makers: Vec<TaskId>,
    codes: Vec<List<Op>>,
    starts: Vec<Option<Start>>,
    members: Vec<Membership>,
    bindings: Bindings,
    counts: Counts,
}

impl Model for Checker {
    ghost use Rattle.pl_plan.specs.inside.Steps.{step_at};
    ghost use Rattle.pl_plan.specs.inside.Opening.{IsOpeningChecker};
    ghost use Rattle.pl_plan.specs.declared.step.Thing.TheVariants.{Nothing};
    ghost use Rattle.pl_plan.specs.inside.Checker.{Checker as CheckerRecord};

    ghost Value = { CheckerRecord };

    ghost view = { λ k. record {
      steps = k.steps.items;
      parents = k.parents.items;
      makers = k.makers.items;
      codes = k.codes.items;
      starts = k.starts.items;
      members = k.members.items;
      bindings = record { slots = k.bindings.slots.items; slot_count = k.bindings.slot_count; things = k.bindings.things.items };
      counts = record { ops = k.counts.ops; visits = k.counts.visits };
    } };

    ghost use Rattle.std.specs.Prelude.{◌≡◌, IfSome, take};

    ghost invariant = { λ k. IfSome k.bindings.shared (λ rc. rc.value.items ≡ take k.bindings.slot_count k.bindings.things.items) };
}

impl Checker {
    /// How many tasks are drawn.
    pub fn tasks(&self) -> u32
        requires { IsChecker self.now }
        ensures { result ≡ length self.now.parents }
    {
        self.parents.len() as u32
    }

    /// How many phasers are made.
    pub fn phasers(&self) -> u32
        requires { IsChecker self.now }
        ensures { result ≡ length self.now.makers }
    {
        self.makers.len() as u32
    }

    /// How many ops there are.
    pub fn ops(&self) -> u32
        ensures { result ≡ self.now.counts.ops }
    {
        self.counts.ops
    }

    /// How many visits there were.
    pub fn visits(&self) -> u32
        ensures { result ≡ self.now.counts.visits }
    {
        self.counts.visits
    }

    /// The step with this index.
    pub fn step(&self, i: u32) -> FlatStep
        requires { i < length self.now.steps }
        ensures { result ≡ step_at self.now.steps i }
    {
        self.steps[i as usize]
    }

    /// The task that drew `c`.
    pub fn parent(&self, c: TaskId) -> Option<TaskId>
        requires { c.0 < length self.now.parents }
        ensures { result ≡ slice_index_or self.now.parents c.0 None }
    {
        self.parents[c.0 as usize]
    }

    /// Whether `t` is a member of `p`.
    pub fn is_member(&self, t: TaskId, p: PhaserId) -> bool
        requires { t.0 < length self.now.members }
        ensures { result ≡ member self.now t.0 p.0 }
    {
        self.members[t.0 as usize].is_of(p)
    }

    /// What the name stands for.
    pub fn thing(&self, x: NameId) -> Thing
        requires fits { IsChecker self.now }
        requires here { x.0 < length self.now.bindings.slots }
        ensures { result ≡ thing_at self.now x.0 }
    {
        self.bindings.things[self.bindings.slots[x.0 as usize] as usize]
    }

    /// One visit more.
    pub fn count_visit(&mut self)
        requires { self.old.counts.visits < 2 ^ 31 }
        ensures { self.new ≡ record self.old { counts = record self.old.counts { visits = self.old.counts.visits + 1 } } }
    {
        self.counts.visits += 1;
    }

    /// Says whether `t` is a member of `p`.
    pub fn mark(&mut self, t: TaskId, p: PhaserId, member: bool) -> Result<(), AllocError>
        requires { t.0 < length self.old.members }
        ensures { OnOk result (self.new ≡ with_membership t.0 p.0 member self.old) }
    {
        self.members[t.0 as usize].mark(p, member)
    }

    /// The code of `t` goes on with this op.
    pub fn push_op(&mut self, t: TaskId, op: Op) -> Result<(), NoMemory>
        requires here { t.0 < length self.old.codes }
        requires few { self.old.counts.ops < 2 ^ 31 }
        ensures { OnOk result (self.new ≡ pushed t.0 op self.old) }
    {
        self.codes[t.0 as usize].push(op)?;
        self.counts.ops += 1;
        Ok(())
    }

    /// `t` makes a phaser.
    pub fn push_maker(&mut self, t: TaskId) -> Result<(), AllocFailed<TaskId>>
        ensures { OnOk result (self.new ≡ with_maker t.0 self.old) }
    {
        self.makers.push(t)
    }

    /// `t` draws a task.
    pub fn push_task(&mut self, alloc: Global, t: TaskId) -> Result<(), AllocError>
        ensures { OnOk result (self.new ≡ with_task t.0 self.old) }
    {
        if self.parents.push(Some(t)).is_err()
            || self.codes.push(List::new(alloc)).is_err()
            || self.members.push(Membership::new(alloc)).is_err()
        {
            return Err(AllocError);
        }
        match self.starts.push(None) {
            Ok(_) => Ok(()),
            Err(_e) => Err(AllocError),
        }
    }

    /// The name's slot, if need be a new one. Slot 0 is no name's.
    pub fn give_slot(&mut self, x: NameId)
        requires here { x.0 < length self.old.bindings.slots }
        requires few { self.old.bindings.slot_count < 2 ^ 31 }
        ensures { self.new ≡ slotted x.0 self.old }
    {
        if self.bindings.slots[x.0 as usize] == 0 {
            self.bindings.slots[x.0 as usize] = self.bindings.slot_count;
            self.bindings.slot_count += 1;
            self.bindings.shared = None;
        }
    }

    /// The name stands for this.
    pub fn set_thing(&mut self, x: NameId, thing: Thing)
        requires here { x.0 < length self.old.bindings.slots }
        requires within { slot_of self.old x.0 < length self.old.bindings.things }
        ensures { self.new ≡ with_thing x.0 thing self.old }
    {
        self.bindings.things[self.bindings.slots[x.0 as usize] as usize] = thing;
        self.bindings.shared = None;
    }

    /// `c` is forked with the steps from `first` on, before `after`, and with the things in the slots that there are now.
    pub fn set_start(
        &mut self,
        alloc: Global,
        c: TaskId,
        first: u32,
        after: u32,
    ) -> Result<(), AllocError>
        requires here { c.0 < length self.old.starts }
        requires slots { self.old.bindings.slot_count ≤ length self.old.bindings.things }
        ensures { OnOk result (self.new ≡ started c.0 first after self.old) }
    {
        let things = self.share(alloc)?;
        self.starts[c.0 as usize] = Some(Start {
            first,
            after,
            things,
        });
        Ok(())
    }

    // The things in the slots that there are now, as a fork keeps them: those of the last fork, if they are the same.
    fn share(&mut self, alloc: Global) -> Result<Rc<Vec<Thing>>, AllocError>
        requires slots { self.old.bindings.slot_count ≤ length self.old.bindings.things }
        ensures same { self.new ≡ self.old }
        ensures things { IfOk result (λ rc. rc.value.items ≡ take self.old.bindings.slot_count self.old.bindings.things) }
    {
        if let Some(things) = &self.bindings.shared {
            return things.clone();
        }
        let things = Vec::from_slice(
            alloc,
            &self.bindings.things[..self.bindings.slot_count as usize],
        )?;
        let Ok(things) = Rc::new(alloc, things) else {
            return Err(AllocError);
        };
        self.bindings.shared = Some(things.clone()?);
        Ok(things)
    }

    /// Whether `c` is forked.
    pub fn is_forked(&self, c: TaskId) -> bool
        requires { c.0 < length self.now.starts }
        ensures { result ≡ is_some (slice_index_or self.now.starts c.0 None) }
    {
        self.starts[c.0 as usize].is_some()
    }

    /// The number of the statement that forked `c`, from 1; 0 for task 0; none where `c` is not forked.
    pub fn forked_by(&self, c: TaskId) -> Option<u32>
        requires { c.0 < length self.now.starts }
        ensures { result ≡ kept_fork (slice_index_or self.now.starts c.0 None) }
    {
        match &self.starts[c.0 as usize] {
            None => None,
            Some(start) => Some(start.first),
        }
    }

    /// The task begins with the things of its start; where its steps begin and end, if it is forked.
    pub fn begin(&mut self, alloc: Global, t: TaskId) -> Result<Option<(u32, u32)>, AllocError>
        requires fits { IsChecker self.old }
        requires here { t.0 < length self.old.starts }
        ensures range { IfOk result (λ r. r ≡ range_of (slice_index_or self.old.starts t.0 None)) }
        ensures begun { OnOk result (self.new ≡ with_start_things (slice_index_or self.old.starts t.0 None) self.old) }
    {
        match &self.starts[t.0 as usize] {
            None => Ok(None),
            Some(start) => {
                let things = padded(alloc, &start.things)?;
                let range = (start.first, start.after);
                self.bindings.things = things;
                self.bindings.shared = None;
                Ok(Some(range))
            }
        }
    }

    /// What is kept before the first visit.
    pub fn new(alloc: Global, steps: Vec<FlatStep>, names: usize) -> Result<Checker, AllocError>
        requires { length steps.items < 2 ^ 32 }
        ensures { IfOk result (λ k. IsOpeningChecker steps.items names k) }
    {
        let after = steps.len() as u32;
        let things = no_things(alloc, MAX_SLOTS)?;
        let Ok(first) = Rc::new(alloc, Vec::from_slice(alloc, &things)?) else {
            return Err(AllocError);
        };
        let start = Start {
            first: 0,
            after,
            things: first,
        };
        let mut parents = Vec::new(alloc);
        let mut codes = Vec::new(alloc);
        let mut starts = Vec::new(alloc);
        let mut members = Vec::new(alloc);
        if parents.push(None).is_err()
            || codes.push(List::new(alloc)).is_err()
            || starts.push(Some(start)).is_err()
            || members.push(Membership::new(alloc)).is_err()
        {
            return Err(AllocError);
        }
        Ok(Checker {
            steps,
            parents,
            makers: Vec::new(alloc),
            codes,
            starts,
            members,
            bindings: Bindings {
                slots: no_slots(alloc, names)?,
                slot_count: 1,
                things,
                shared: None,
            },
            counts: Counts { ops: 0, visits: 0 },
        })
    }

    /// The three lists of the plan, and what its codes are folded by.
    pub fn into_parts(self) -> Parts
        ensures steps { result.steps.items ≡ self.steps }
        ensures parents { result.parents.items ≡ self.parents }
        ensures makers { result.makers.items ≡ self.makers }
        ensures codes { result.codes.items ≡ self.codes }
        ensures starts { result.starts.items ≡ self.starts }
    {
        Parts {
            steps: self.steps,
            parents: self.parents,
            makers: self.makers,
            codes: self.codes,
            starts: self.starts,
        }
    }
}

// These things, and nothing in each slot behind them.
fn padded(alloc: Global, things: &[Thing]) -> Result<Vec<Thing>, AllocError>
    requires { length things.now ≤ MAX_TASKS + MAX_PHASERS }
    ensures { IfOk result (λ v. v.items ≡ padded things.now) }
{
    let mut all = Vec::from_slice(alloc, things)?;
    let free = no_things(alloc, MAX_SLOTS - things.len())?;
    if all.extend_from_slice(&free).is_err() {
        return Err(AllocError);
    }
    Ok(all)
}

// Slots with nothing in them.
fn no_things(alloc: Global, n: usize) -> Result<Vec<Thing>, AllocError>
    ensures items { IfOk result (λ v. v.items ≡ replicate n Nothing) }
    ensures many { IfOk result (λ v. length v.items ≡ n) }
    ensures all { IfOk result (λ v. (i : ℕ) → slice_index_or v.items i Nothing ≡ Nothing) }
{
    vec![in alloc; Thing::Nothing; n]
}

// Names without a slot.
fn no_slots(alloc: Global, n: usize) -> Result<Vec<u32>, AllocError>
    ensures many { IfOk result (λ v. length v.items ≡ n) }
    ensures all { IfOk result (λ v. (i : ℕ) → slice_index_or v.items i 0 ≡ 0) }
{
    vec![in alloc; 0; n]
}

/// The three lists of a plan, with the flat steps and each task's start, by which the codes are folded.
#[derive(Drop)]
pub struct Parts {
    pub steps: Vec<FlatStep>,
    pub parents: Vec<Option<TaskId>>,
    pub makers: Vec<TaskId>,
    pub codes: Vec<List<Op>>,
    pub starts: Vec<Option<Start>>,
}
