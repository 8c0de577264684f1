// The words for what a step changes.
ghost use Rattle.std.specs.Prelude.{◌≡◌, ◌++◌, ◌+◌, ◌<◌, ◌^◌, ℕ, OnOk, Some, codes, decimal, length, option_copied, option_map};
ghost use Rattle.armus_base.specs.Plans.{code_of};
ghost use Rattle.armus_base.specs.States.{IsActive};
ghost use Rattle.pl_core.specs.calls.Stands.{IsEnabled};
ghost use Rattle.pl_core.specs.Tasks.{IsAtOp};
ghost use Rattle.pl_core.specs.calls.Worlds.{action_by_code, places_of, state_of};
ghost use Rattle.pl_core.specs.inside.Ops.{action_of};
ghost use Rattle.explain_tasks.specs.Places.{said_of};
ghost use Rattle.explain_steps.specs.inside.SoFar.{IsNoAwait};
ghost use Rattle.explain_clock.specs.ClockWords.{activity_words, made_clock_words};
ghost use Rattle.explain_steps.specs.ClockStepWords.{awaited_event_words, clock_change_words, clock_wait_words, left_finish_words, left_words, making_words, registered_words, said_of_thing, signalled_words};

use crate::changes::{put_phase_change, put_with_phase, ready_op};
use crate::clock_facts::ClockOpFacts;
use armus_base::{Event, NoMemory, Op, Phase, TaskId, put_number, put_words};
use clock_source_map::ClockThing;
use pl_core::{Stand, World};

// The words with which an activity leaves a finish, by an op of this origin.
fn left_finish_words(origin: Option<u32>) -> &'static [u8]
    ensures { result.now ≡ left_finish_words origin }
{
    match origin {
        Some(_) => b"has ended ",
        None => b"leaves ",
    }
}

impl<'a> ClockOpFacts<'a> {
    // Appends that a clock of this name, or a finish, is made at statement `n`.
    fn put_making(&self, out: &mut Vec<u8>, name: Option<&[u8]>, n: u32) -> Result<(), NoMemory>
        ensures { OnOk result (out.new.items ≡ out.old.items ++ making_words self.now.of_text (option_map (λ x. x.now) name.entry) n) }
    {
        match name {
            Some(x) => {
                put_words(out, b"makes clock ")?;
                put_words(out, x)?;
                put_words(out, b" with phase 0")
            }
            None => {
                put_words(out, b"begins ")?;
                self.of_text.put_finish(out, n)
            }
        }
    }

    // Appends what is made.
    fn put_make(&self, out: &mut Vec<u8>, thing: Option<&ClockThing<'a>>) -> Result<(), NoMemory>
        ensures { OnOk result (out.new.items ≡ out.old.items ++ said_of_thing (making_words self.now.of_text) (option_copied thing.entry)) }
    {
        match thing {
            Some(thing) => self.put_making(out, thing.name(), thing.statement()),
            None => Ok(()),
        }
    }

    // Appends that activity `c` becomes a member of a clock of this name, or of a finish, made at statement `n`, with this phase.
    fn put_registered(
        &self,
        out: &mut Vec<u8>,
        c: TaskId,
        phase: Option<Phase>,
        name: Option<&[u8]>,
        n: u32,
    ) -> Result<(), NoMemory>
        ensures { OnOk result (out.new.items ≡ out.old.items ++ registered_words self.now.of_text c.0 phase (option_map (λ x. x.now) name.entry) n) }
    {
        match name {
            Some(x) => {
                put_words(out, b"registers ")?;
                self.of_text.put_activity(out, c.0)?;
                put_words(out, b" on ")?;
                self.of_text.put_clock(out, x, n)?;
                put_with_phase(self.alloc, out, phase)
            }
            None => {
                self.of_text.put_finish(out, n)?;
                put_words(out, b" waits for ")?;
                self.of_text.put_activity(out, c.0)
            }
        }
    }

    // Appends that activity `c` becomes a member.
    fn put_reg(
        &self,
        out: &mut Vec<u8>,
        c: TaskId,
        phase: Option<Phase>,
        thing: Option<&ClockThing<'a>>,
    ) -> Result<(), NoMemory>
        ensures { OnOk result (out.new.items ≡ out.old.items ++ said_of_thing (registered_words self.now.of_text c.0 phase) (option_copied thing.entry)) }
    {
        match thing {
            Some(thing) => self.put_registered(out, c, phase, thing.name(), thing.statement()),
            None => Ok(()),
        }
    }

    // Appends a signal on a clock of this name, or at the end of a finish, made at statement `n`, from this phase on.
    fn put_signalled(
        &self,
        out: &mut Vec<u8>,
        phase: Option<Phase>,
        name: Option<&[u8]>,
        n: u32,
    ) -> Result<(), NoMemory>
        requires room { (m : ℕ) → phase ≡ Some m → m + 1 < 2 ^ 32 }
        ensures { OnOk result (out.new.items ≡ out.old.items ++ signalled_words self.now.of_text phase (option_map (λ x. x.now) name.entry) n) }
    {
        match name {
            Some(x) => {
                put_words(out, b"signals on ")?;
                self.of_text.put_clock(out, x, n)?;
                put_words(out, b": ")?;
                put_phase_change(self.alloc, out, phase)
            }
            None => {
                put_words(out, b"comes to the end of ")?;
                self.of_text.put_finish(out, n)
            }
        }
    }

    // Appends a signal.
    fn put_adv(
        &self,
        out: &mut Vec<u8>,
        phase: Option<Phase>,
        thing: Option<&ClockThing<'a>>,
    ) -> Result<(), NoMemory>
        requires room { (m : ℕ) → phase ≡ Some m → m + 1 < 2 ^ 32 }
        ensures { OnOk result (out.new.items ≡ out.old.items ++ said_of_thing (signalled_words self.now.of_text phase) (option_copied thing.entry)) }
    {
        match thing {
            Some(thing) => self.put_signalled(out, phase, thing.name(), thing.statement()),
            None => Ok(()),
        }
    }

    // Appends that a clock of this name, or a finish, made at statement `n`, is left by an op of this origin.
    fn put_left(
        &self,
        out: &mut Vec<u8>,
        origin: Option<u32>,
        name: Option<&[u8]>,
        n: u32,
    ) -> Result<(), NoMemory>
        ensures { OnOk result (out.new.items ≡ out.old.items ++ left_words self.now.of_text origin (option_map (λ x. x.now) name.entry) n) }
    {
        match name {
            Some(x) => {
                put_words(out, b"leaves ")?;
                self.of_text.put_clock(out, x, n)
            }
            None => {
                put_words(out, left_finish_words(origin))?;
                self.of_text.put_finish(out, n)
            }
        }
    }

    // Appends what is left.
    fn put_drop(
        &self,
        out: &mut Vec<u8>,
        origin: Option<u32>,
        thing: Option<&ClockThing<'a>>,
    ) -> Result<(), NoMemory>
        ensures { OnOk result (out.new.items ≡ out.old.items ++ said_of_thing (left_words self.now.of_text origin) (option_copied thing.entry)) }
    {
        match thing {
            Some(thing) => self.put_left(out, origin, thing.name(), thing.statement()),
            None => Ok(()),
        }
    }

    // Appends that this phase is waited for, of a clock of this name, made at statement `n`.
    fn put_phase_awaited(
        &self,
        out: &mut Vec<u8>,
        phase: Phase,
        x: &[u8],
        n: u32,
    ) -> Result<(), NoMemory>
        ensures { OnOk result (out.new.items ≡ out.old.items ++ (codes "waits for phase " ++ decimal phase ++ codes " of " ++ made_clock_words self.now.of_text x.now n)) }
    {
        put_words(out, b"waits for phase ")?;
        put_number(self.alloc, out, phase as u64)?;
        put_words(out, b" of ")?;
        self.of_text.put_clock(out, x, n)?;
        Ok(())
    }

    // Appends the event that is waited for, of a clock of this name, or of a finish, made at statement `n`.
    fn put_awaited(
        &self,
        out: &mut Vec<u8>,
        event: Event,
        name: Option<&[u8]>,
        n: u32,
    ) -> Result<(), NoMemory>
        ensures { OnOk result (out.new.items ≡ out.old.items ++ clock_wait_words self.now.of_text event (option_map (λ x. x.now) name.entry) n) }
    {
        match name {
            Some(x) => self.put_phase_awaited(out, event.n, x, n),
            None => {
                put_words(out, b"waits at the end of ")?;
                self.of_text.put_finish(out, n)
            }
        }
    }

    // Appends the event that is waited for.
    fn put_waits(&self, out: &mut Vec<u8>, event: Event) -> Result<(), NoMemory>
        ensures { OnOk result (out.new.items ≡ out.old.items ++ awaited_event_words self.now.of_text (Some event)) }
    {
        match self.of_text.thing(event.p.0) {
            Some(thing) => self.put_awaited(out, event, thing.name(), thing.statement()),
            None => Ok(()),
        }
    }

    // Appends that activity `c` is started.
    fn put_fork(&self, out: &mut Vec<u8>, c: TaskId) -> Result<(), NoMemory>
        ensures { OnOk result (out.new.items ≡ out.old.items ++ (codes "starts " ++ activity_words self.now.of_text c.0)) }
    {
        put_words(out, b"starts ")?;
        self.of_text.put_activity(out, c.0)
    }

    // Appends what an op of this origin changes that is no await.
    fn put_op(
        &self,
        out: &mut Vec<u8>,
        world: &World<'_>,
        t: TaskId,
        op: Op,
        origin: Option<u32>,
    ) -> Result<(), NoMemory>
        requires task { t.0 < length world.now.plan.parents }
        requires active { IsActive (state_of world.now) t.0 }
        requires next { action_by_code world.now t.0 ≡ Some (action_of op) }
        requires kind { IsNoAwait op }
        ensures { OnOk result (out.new.items ≡ out.old.items ++ clock_change_words self.now.of_text (state_of world.now) t.0 origin (action_of op)) }
    {
        let _plan = world.plan();
        match op {
            Op::Make { p } => self.put_make(out, self.of_text.thing(p.0)),
            Op::Reg { c, p } => {
                let phase = world.phase(p, t);
                self.put_reg(out, c, phase, self.of_text.thing(p.0))
            }
            Op::Fork { c } => self.put_fork(out, c),
            Op::Adv { p } => {
                let phase = world.phase(p, t);
                self.put_adv(out, phase, self.of_text.thing(p.0))
            }
            Op::Drop { p } => self.put_drop(out, origin, self.of_text.thing(p.0)),
            Op::Await { p: _, off: _ } => unreachable!(),
        }
    }

    // Appends what the next step of an activity changes that may go on and stands at op `i` of its code, of this origin.
    pub(crate) fn put_change(
        &self,
        out: &mut Vec<u8>,
        world: &World<'_>,
        t: TaskId,
        i: u32,
        origin: Option<u32>,
    ) -> Result<(), NoMemory>
        requires task { t.0 < length world.now.plan.parents }
        requires enabled { IsEnabled world.now t.0 }
        requires at { IsAtOp (code_of world.now.plan t.0) (places_of world.now t.0).done i }
        ensures { OnOk result (out.new.items ≡ out.old.items ++ said_of (clock_change_words self.now.of_text (state_of world.now) t.0 origin) (action_by_code world.now t.0)) }
    {
        match world.stand(t) {
            Stand::Ready => self.put_op(out, world, t, ready_op(world, t, i), origin),
            Stand::Await(event) => self.put_waits(out, event),
            Stand::Waits(_) => put_words(out, b"goes on"),
            Stand::Unforked | Stand::Done | Stand::Refused(_) => unreachable!(),
        }
    }
}
