// What is noted of the comings of one activity.
ghost use Rattle.std.specs.Prelude.{◌≡◌, ◌+◌, ◌-◌, ◌<◌, ◌^◌, ◌++◌, [], ◌∷◌, ℕ, List as Seq, OnOk, Some, length, option_map, slice_get};
ghost use Rattle.clock_syntax.specs.Trees.{advance, clock, clock_count};
ghost use Rattle.clock_semantics.specs.Unfolding.{a_close, a_finish, a_plain, an_async, coming};
ghost use Rattle.clock_source_map.specs.inside.VisitNotes.{noted};

use armus_base::{List, NoMemory};
use clock_syntax::{ClockBody, ClockName};
use std::alloc::Global;
use std::marker::Model;
use std::mem;

/// An activity as it is started: the number of the first statement of its body, and the body. The async has the number before; the activity that is
/// there at first has 1. Its statements have numbers of 32 bits.
#[derive(Drop)]
pub struct ClockBegun<'p> {
    pub(crate) first: u32,
    pub(crate) body: &'p ClockBody,
}

impl<'p> Model for ClockBegun<'p> {
    ghost use Rattle.std.specs.Prelude.{◌+◌, ◌<◌, ◌^◌};
    ghost use Rattle.std.specs.Coded.{codes};
    ghost use Rattle.clock_syntax.specs.Trees.{clock_count};
    ghost use Rattle.clock_syntax.specs.calls.Trees.{clock_tree_code};
    ghost use Rattle.clock_source_map.specs.ClockOrigins.{StartedActivity};

    ghost Value = { StartedActivity };

    ghost coded = { Prim.hlevel (codes, clock_tree_code) };

    ghost view = { λ b. record { first = b.first; body = b.body.now } };

    ghost invariant = { λ b. b.first + clock_count b.body.now < 2 ^ 32 };
}

impl<'p> ClockBegun<'p> {
    /// The number of its async; 0 for the activity that is there at first.
    pub fn statement(&self) -> u32
        ensures { result ≡ self.now.first - 1 }
    {
        self.first.saturating_sub(1)
    }
}

/// A clock or a finish as it is made: the statement, and the name that it is given, which a finish has not.
#[derive(Drop)]
pub struct ClockThing<'p> {
    pub(crate) statement: u32,
    pub(crate) name: Option<&'p ClockName>,
}

impl<'p> Model for ClockThing<'p> {
    ghost use Rattle.std.specs.Prelude.{option_map};
    ghost use Rattle.clock_source_map.specs.ClockOrigins.{MadeThing};

    ghost Value = { MadeThing };

    ghost view = { λ m. record { statement = m.statement; name = option_map (λ x. x.now) m.name } };
}

impl<'p> ClockThing<'p> {
    /// The number of the statement.
    pub fn statement(&self) -> u32
        ensures { result ≡ self.now.statement }
    {
        self.statement
    }

    /// The name that it is given, which a finish has not.
    pub fn name(&self) -> Option<&[u8]>
        ensures { option_map (λ x. x.now) result ≡ self.now.name }
    {
        match self.name {
            Some(name) => Some(name.as_bytes()),
            None => None,
        }
    }
}

// The activities that are started, the clocks and finishes that are made, and the statements at which one waits, in order.
#[derive(Drop)]
pub(crate) struct VisitNotes<'p> {
    pub begun: Vec<ClockBegun<'p>>,
    pub things: Vec<ClockThing<'p>>,
    pub waits: Vec<u32>,
}

impl<'p> Model for VisitNotes<'p> {
    ghost use Rattle.std.specs.Coded.{codes};
    ghost use Rattle.clock_syntax.specs.calls.Trees.{clock_tree_code};
    ghost use Rattle.clock_source_map.specs.inside.VisitNotes.{NotesValue};

    ghost Value = { NotesValue };

    ghost coded = { Prim.hlevel (codes, clock_tree_code) };

    ghost view = { λ k. record { begun = k.begun.items; things = k.things.items; waits = k.waits.items } };
}

impl<'p> VisitNotes<'p> {
    // Of nothing.
    pub(crate) fn new(alloc: Global) -> VisitNotes<'p>
        ensures { result ≡ record { begun = []; things = []; waits = [] } }
    {
        VisitNotes {
            begun: Vec::new(alloc),
            things: Vec::new(alloc),
            waits: Vec::new(alloc),
        }
    }

    // The activity that is there at first, with the whole program.
    pub(crate) fn begin(&mut self, body: &'p ClockBody) -> Result<(), NoMemory>
        requires { 1 + clock_count body.now < 2 ^ 32 }
        ensures { OnOk result (self.new ≡ record self.old { begun = self.old.begun ++ record { first = 1; body = body.now } ∷ [] }) }
    {
        self.begun.push(ClockBegun { first: 1, body })?;
        Ok(())
    }

    // How many activities are started.
    pub(crate) fn activities(&self) -> usize
        ensures { result ≡ length self.now.begun }
    {
        self.begun.len()
    }

    // Activity `t`: the number of the first statement of its body, and the body.
    pub(crate) fn activity(&self, t: usize) -> (u32, &'p ClockBody)
        requires { t < length self.now.begun }
        ensures begun { slice_get self.now.begun t ≡ Some (record { first = result.0; body = result.1.now }) }
        ensures few { result.0 + clock_count result.1.now < 2 ^ 32 }
    {
        let begun = &self.begun[t];
        (begun.first, begun.body)
    }

    // A clock is made.
    pub(crate) fn clock(&mut self, n: u32, x: &'p ClockName) -> Result<(), NoMemory>
        ensures { OnOk result (self.new ≡ noted (coming n (a_plain (clock x.now))) self.old) }
    {
        self.things.push(ClockThing {
            statement: n,
            name: Some(x),
        })?;
        Ok(())
    }

    // A finish begins.
    pub(crate) fn finish(&mut self, n: u32) -> Result<(), NoMemory>
        ensures { OnOk result (self.new ≡ noted (coming n a_finish) self.old) }
    {
        self.things.push(ClockThing {
            statement: n,
            name: None,
        })?;
        Ok(())
    }

    // An activity is started.
    pub(crate) fn start(&mut self, n: u32, body: &'p ClockBody) -> Result<(), NoMemory>
        requires { n + 1 + clock_count body.now < 2 ^ 32 }
        ensures { OnOk result ((xs : Seq (Seq ℕ)) → self.new ≡ noted (coming n (an_async xs body.now)) self.old) }
    {
        self.begun.push(ClockBegun { first: n + 1, body })?;
        Ok(())
    }

    // One waits at an advance.
    pub(crate) fn advance(&mut self, n: u32, x: &ClockName) -> Result<(), NoMemory>
        ensures { OnOk result (self.new ≡ noted (coming n (a_plain (advance x.now))) self.old) }
    {
        self.waits.push(n)?;
        Ok(())
    }

    // One waits at the end of a finish.
    pub(crate) fn close(&mut self, n: u32) -> Result<(), NoMemory>
        ensures { OnOk result (self.new ≡ noted (coming n a_close) self.old) }
    {
        self.waits.push(n)?;
        Ok(())
    }

    // Takes the waits.
    pub(crate) fn take_waits(&mut self, alloc: Global) -> List<u32>
        ensures waits { result ≡ self.old.waits }
        ensures rest { self.new ≡ record self.old { waits = [] } }
    {
        List::from_vec(mem::replace(&mut self.waits, Vec::new(alloc)))
    }
}
