// What the checker of a clock program keeps, and its changes.

ghost use Rattle.std.specs.Prelude.{◌≡◌, ◌+◌, ◌<◌, ◌≤◌, ◌^◌, ◌++◌, ◌∷◌, [], length, slice_set, slice_index_or, OnOk, IfOk, None, false, slice_get, Some, IfSome, List, ℕ};
ghost use Rattle.armus_base.specs.declared.ids.PhaserId.{PhaserId};
ghost use Rattle.pl_plan.specs.calls.MemberRows.{marked};
ghost use Rattle.std.specs.List.{position, position_or_len};
ghost use Rattle.std.specs.Str.{bytes_eq};
ghost use Rattle.clock_syntax.specs.Trees.{clock_count};
ghost use Rattle.clock_pl.specs.inside.ClockChecker.{ClockChecker as ClockCheckerValue, KeptStart, clock_by_name, clock_number, names_with, spelled_names};
ghost use Rattle.clock_pl.specs.inside.ClockCheckerSteps.{with_ops, with_known_changed, with_kept_clock, with_kept_name, with_governing, with_kept_activity, with_activity_begun, opening_checker};

use crate::known::{KnownClocks, lengthen_clocks};
use armus_base::{List, MAX_OPS, MAX_PHASERS, MAX_TASKS, NoMemory, Op, PhaserId, TaskId};
use clock_syntax::ClockBody;
use indexmap::IndexSet;
use pl_plan::Membership;
use std::alloc::{AllocError, Global};
use std::marker::Model;
use std::rc::Rc;

// With what an activity is started: its body, how many statements stand before that in the text, and what is known of it, where nothing is pending. The
// clocks of the names are shared by activities that were started with the same ones. Its statements have numbers of 32 bits.
#[derive(Drop)]
pub(crate) struct ActivityStart<'p> {
    pub body: &'p ClockBody,
    pub before: u32,
    pub clocks: Rc<Vec<Option<PhaserId>>>,
    pub members: Membership,
    pub governing: Vec<PhaserId>,
}

impl<'p> Model for ActivityStart<'p> {
    ghost use Rattle.std.specs.Prelude.{◌+◌, ◌<◌, ◌^◌, []};
    ghost use Rattle.std.specs.Coded.{codes};
    ghost use Rattle.clock_syntax.specs.Trees.{clock_count};
    ghost use Rattle.clock_syntax.specs.calls.Trees.{clock_tree_code};
    ghost use Rattle.clock_pl.specs.inside.ClockChecker.{KeptStart};

    ghost Value = { KeptStart };

    ghost coded = { Prim.hlevel (codes, clock_tree_code) };

    ghost view = { λ s. record {
      body = s.body.now;
      before = s.before;
      known = record { clocks = s.clocks.value.items; members = s.members; pending = []; governing = s.governing.items };
    } };

    ghost invariant = { λ s. s.before + clock_count s.body.now < 2 ^ 32 };
}

impl<'p> ActivityStart<'p> {
    // What is known of the activity, in memory of its own.
    fn known(&self, alloc: Global) -> Result<KnownClocks, AllocError>
        ensures { IfOk result (λ k. k ≡ self.now.known) }
    {
        Ok(KnownClocks {
            clocks: Vec::from_slice(alloc, &self.clocks)?,
            members: self.members.copied(alloc)?,
            pending: Membership::new(alloc),
            governing: Vec::from_slice(alloc, &self.governing)?,
        })
    }
}

// How many ops and visits there were.
#[derive(Clone, Copy)]
pub(crate) struct Counts {
    ops: u32,
    visits: u32,
}

// What the checker keeps: the names that have stood for a clock; the three lists of the plan so far; with what each activity is started; which activity is
// unfolded, and what is known of it; and the counts. A statement looks its name up and reads a few entries; an async copies the clocks of the names, where a
// name has come to stand for something else since the last one.
#[derive(Drop)]
pub(crate) struct ClockChecker<'p> {
    names: IndexSet<&'p [u8]>,
    parents: Vec<Option<TaskId>>,
    makers: Vec<TaskId>,
    codes: Vec<List<Op>>,
    starts: Vec<ActivityStart<'p>>,
    activity: TaskId,
    known: KnownClocks,
    shared: Option<Rc<Vec<Option<PhaserId>>>>,
    counts: Counts,
}

impl<'p> Model for ClockChecker<'p> {
    ghost use Rattle.std.specs.Prelude.{◌≡◌, ◌<◌, ◌≤◌, IfSome, length};
    ghost use Rattle.std.specs.Coded.{codes as codings};
    ghost use Rattle.armus_base.specs.Limits.{max_tasks, max_phasers, max_ops};
    ghost use Rattle.clock_syntax.specs.calls.Trees.{clock_tree_code};
    ghost use Rattle.clock_pl.specs.inside.ClockChecker.{ClockChecker, spelled_names};

    ghost Value = { ClockChecker };

    ghost coded = { Prim.hlevel (codings, clock_tree_code) };

    ghost view = { λ k. record {
      names = spelled_names k.names.keys;
      parents = k.parents.items;
      makers = k.makers.items;
      codes = k.codes.items;
      starts = k.starts.items;
      activity = k.activity.0;
      known = k.known;
      counts = record { ops = k.counts.ops; visits = k.counts.visits };
    } };

    ghost invariant = { λ k.
        (length k.parents.items ≤ max_tasks) × (length k.makers.items ≤ max_phasers) × (k.counts.ops ≤ max_ops)
        × (k.activity.0 < length k.codes.items) × (length k.starts.items ≤ length k.codes.items) × (length k.starts.items ≤ length k.parents.items)
        × IfSome k.shared (λ rc. rc.value.items ≡ k.known.clocks) };
}

impl<'p> ClockChecker<'p> {
    // What is kept before the first visit: activity 0 alone, with the whole program.
    pub(crate) fn new(alloc: Global, body: &'p ClockBody) -> Result<ClockChecker<'p>, NoMemory>
        requires { clock_count body.now < 2 ^ 32 }
        ensures { IfOk result (λ k. k ≡ opening_checker body.now) }
    {
        let mut parents = Vec::new(alloc);
        let mut codes = Vec::new(alloc);
        let mut starts = Vec::new(alloc);
        parents.push(None)?;
        codes.push(List::new(alloc))?;
        let Ok(clocks) = Rc::new(alloc, Vec::new(alloc)) else {
            return Err(NoMemory);
        };
        starts.push(ActivityStart {
            body,
            before: 0,
            clocks,
            members: Membership::new(alloc),
            governing: Vec::new(alloc),
        })?;
        Ok(ClockChecker {
            names: IndexSet::new(alloc),
            parents,
            makers: Vec::new(alloc),
            codes,
            starts,
            activity: TaskId(0),
            known: KnownClocks::nothing(alloc),
            shared: None,
            counts: Counts { ops: 0, visits: 0 },
        })
    }

    // How many activities are started.
    pub(crate) fn started(&self) -> u32
        ensures many { result ≡ length self.now.starts }
        ensures few { result ≤ MAX_TASKS }
    {
        self.starts.len() as u32
    }

    // The three lists of the plan.
    pub(crate) fn into_lists(self) -> Lists
        ensures parents { result.parents.items ≡ self.entry.parents }
        ensures makers { result.makers.items ≡ self.entry.makers }
        ensures codes { result.codes.items ≡ self.entry.codes }
    {
        Lists {
            parents: self.parents,
            makers: self.makers,
            codes: self.codes,
        }
    }

    // How many activities there are.
    pub(crate) fn activities(&self) -> u32
        ensures many { result ≡ length self.now.parents }
        ensures few { result ≤ MAX_TASKS }
    {
        self.parents.len() as u32
    }

    // How many clocks and finishes there are.
    pub(crate) fn clocks(&self) -> u32
        ensures many { result ≡ length self.now.makers }
        ensures few { result ≤ MAX_PHASERS }
    {
        self.makers.len() as u32
    }

    // How many ops there are.
    pub(crate) fn ops(&self) -> u32
        ensures many { result ≡ self.now.counts.ops }
        ensures few { result ≤ MAX_OPS }
    {
        self.counts.ops
    }

    // How many visits there were.
    pub(crate) fn visits(&self) -> u32
        ensures { result ≡ self.now.counts.visits }
    {
        self.counts.visits
    }

    // The clock of the name.
    pub(crate) fn clock(&self, x: &[u8]) -> Option<PhaserId>
        ensures { clock_number result ≡ clock_by_name self.now.names self.now.known.clocks x.now }
    {
        match number_of_name(&self.names, x) {
            None => None,
            Some(i) => clock_of_number(&self.known.clocks, i),
        }
    }

    // Whether the activity is registered on `p`.
    pub(crate) fn is_registered(&self, p: PhaserId) -> bool
        ensures { result ≡ slice_index_or self.now.known.members p.0 false }
    {
        self.known.members.is_of(p)
    }

    // Whether `p` is pending.
    pub(crate) fn is_pending(&self, p: PhaserId) -> bool
        ensures { result ≡ slice_index_or self.now.known.pending p.0 false }
    {
        self.known.pending.is_of(p)
    }

    // One visit more.
    pub(crate) fn count_visit(&mut self)
        requires { self.old.counts.visits < 2 ^ 31 }
        ensures { self.new ≡ record self.old { counts = record self.old.counts { visits = self.old.counts.visits + 1 } } }
    {
        self.counts.visits += 1;
    }

    // The code of the activity goes on with these ops.
    pub(crate) fn push_ops(&mut self, ops: &[Op]) -> Result<(), NoMemory>
        requires { self.old.counts.ops + length ops.now ≤ MAX_OPS }
        ensures { OnOk result (self.new ≡ with_ops ops.now self.old) }
    {
        push_all(&mut self.codes[self.activity.0 as usize], ops)?;
        self.counts.ops += ops.len() as u32;
        Ok(())
    }

    // The activity makes a clock or finish.
    pub(crate) fn push_maker(&mut self) -> Result<(), AllocError>
        requires { length self.old.makers < MAX_PHASERS }
        ensures { OnOk result (self.new ≡ with_kept_clock self.old) }
    {
        self.makers.push(self.activity)?;
        Ok(())
    }

    // The name stands for this clock.
    pub(crate) fn name(&mut self, x: &'p [u8], p: PhaserId) -> Result<(), AllocError>
        ensures { OnOk result (self.new ≡ with_kept_name x.now p.0 self.old) }
    {
        let i = number(&mut self.names, x)?;
        self.shared = None;
        lengthen_clocks(&mut self.known.clocks, i + 1)?;
        self.known.clocks[i] = Some(p);
        Ok(())
    }

    // Says whether the activity is registered on `p`.
    pub(crate) fn register(&mut self, p: PhaserId, is: bool) -> Result<(), AllocError>
        ensures { OnOk result (self.new ≡ with_known_changed (record self.old.known { members = marked p.0 is self.old.known.members }) self.old) }
    {
        self.known.members.mark(p, is)
    }

    // Says whether `p` is pending.
    pub(crate) fn set_pending(&mut self, p: PhaserId, is: bool) -> Result<(), AllocError>
        ensures { OnOk result (self.new ≡ with_known_changed (record self.old.known { pending = marked p.0 is self.old.known.pending }) self.old) }
    {
        self.known.pending.mark(p, is)
    }

    // The clocks of the names, as an async keeps them: those of the last one, if they are the same.
    pub(crate) fn share(&mut self, alloc: Global) -> Result<Rc<Vec<Option<PhaserId>>>, AllocError>
        ensures same { self.new ≡ self.old }
        ensures clocks { IfOk result (λ rc. rc.value.items ≡ self.old.known.clocks) }
    {
        if let Some(clocks) = &self.shared {
            return clocks.clone();
        }
        let clocks = Vec::from_slice(alloc, &self.known.clocks)?;
        let Ok(clocks) = Rc::new(alloc, clocks) else {
            return Err(AllocError);
        };
        self.shared = Some(clocks.clone()?);
        Ok(clocks)
    }

    // The finish that governs the activity, if one does.
    pub(crate) fn governing(&self) -> Option<PhaserId>
        ensures { result ≡ slice_get self.now.known.governing 0 }
    {
        self.known.governing.first().copied()
    }

    // A finish governs what follows. There are as many as clocks and finishes at most.
    pub(crate) fn begin_finish(&mut self, f: PhaserId) -> Result<(), AllocError>
        ensures { OnOk result (self.new ≡ with_governing (f ∷ self.old.known.governing) self.old) }
    {
        self.known.governing.insert(0, f)?;
        Ok(())
    }

    // The innermost finish that governs governs no more.
    pub(crate) fn end_finish(&mut self) -> Option<PhaserId>
        ensures none { result ≡ None → (self.old.known.governing ≡ []) × (self.new ≡ self.old) }
        ensures some { IfSome result (λ f. (fs : List PhaserId) × (self.old.known.governing ≡ f ∷ fs) × (self.new ≡ with_governing fs self.old)) }
    {
        if self.known.governing.is_empty() {
            return None;
        }
        Some(self.known.governing.remove(0))
    }

    // Activity `t` begins with a copy of what is known of it: its body, and how many statements stand before that.
    pub(crate) fn begin(
        &mut self,
        alloc: Global,
        t: u32,
    ) -> Result<(&'p ClockBody, u32), AllocError>
        requires { t < length self.old.starts }
        ensures { IfOk result (λ r. (start : KeptStart) × (slice_get self.old.starts t ≡ Some start) × (r.0.now ≡ start.body) × (r.1 ≡ start.before)
            × (r.1 + clock_count r.0.now < 2 ^ 32) × (self.new ≡ with_activity_begun t start.known self.old)) }
    {
        let start = &self.starts[t as usize];
        let (body, before) = (start.body, start.before);
        let known = start.known(alloc)?;
        self.activity = TaskId(t);
        self.known = known;
        self.shared = None;
        Ok((body, before))
    }

    // The activity leaves all that it is registered on.
    pub(crate) fn leave_all(&mut self, alloc: Global)
        ensures { self.new ≡ with_known_changed (record self.old.known { members = []; pending = [] }) self.old }
    {
        self.known.members = Membership::new(alloc);
        self.known.pending = Membership::new(alloc);
    }

    // The activity starts one more.
    pub(crate) fn push_start(
        &mut self,
        alloc: Global,
        start: ActivityStart<'p>,
    ) -> Result<(), AllocError>
        requires { length self.old.parents < MAX_TASKS }
        ensures { OnOk result (self.new ≡ with_kept_activity start.entry self.old) }
    {
        self.codes.push(List::new(alloc))?;
        self.parents.push(Some(self.activity))?;
        self.starts.push(start)?;
        Ok(())
    }
}

// The three lists of a plan.
#[derive(Drop)]
pub(crate) struct Lists {
    pub parents: Vec<Option<TaskId>>,
    pub makers: Vec<TaskId>,
    pub codes: Vec<List<Op>>,
}

// The number of a name, if it has stood for a clock.
fn number_of_name(names: &IndexSet<&[u8]>, x: &[u8]) -> Option<usize>
    ensures { result ≡ position (bytes_eq x.now) (spelled_names names.now.keys) }
{
    names.get_index_of(x)
}

// The clock of the name with this number, if it stands for one.
fn clock_of_number(clocks: &[Option<PhaserId>], i: usize) -> Option<PhaserId>
    ensures { result ≡ slice_index_or clocks.now i None }
{
    match clocks.get(i) {
        None => None,
        Some(p) => *p,
    }
}

// The number of a name, in the order in which names first stood for a clock; if need be a new one.
fn number<'p>(names: &mut IndexSet<&'p [u8]>, x: &'p [u8]) -> Result<usize, AllocError>
    ensures index { IfOk result (λ i. i ≡ position_or_len (bytes_eq x.now) (spelled_names names.old.keys)) }
    ensures few { IfOk result (λ i. i < 2 ^ 32) }
    ensures keys { OnOk result (spelled_names names.new.keys ≡ names_with x.now (spelled_names names.old.keys)) }
{
    let (i, _) = names.insert_full(x)?;
    if i >= 1 << 32 {
        return Err(AllocError);
    }
    Ok(i)
}

// These ops behind those of a list.
fn push_all(list: &mut List<Op>, ops: &[Op]) -> Result<(), NoMemory>
    ensures { OnOk result (list.new ≡ list.old ++ ops.now) }
{
    for op in ops {
        list.push(*op)?;
    }
    Ok(())
}
