// What an explanation of a clock text is made of.
ghost use Rattle.std.specs.Prelude.{◌≡◌, ◌<◌, ◌^◌, length, slice_get};
ghost use Rattle.std.specs.List.{find};
ghost use Rattle.explain_clock.specs.ClockKeepers.{is_move_on};

use crate::text_facts::ClockTextFacts;
use armus_base::{Final, PhaserId, TaskEnd};
use explain_facts::Doing;
use pl_plan::Membership;
use std::marker::Model;

// What an activity does to a clock or finish, and at which statement; what it does at its end it does at none.
#[derive(Clone, Copy, Debug, PartialEq, Eq)]
pub(crate) struct NextMove {
    pub(crate) p: PhaserId,
    pub(crate) does: Doing,
    pub(crate) statement: Option<u32>,
}

// Where an activity waits: the statement; which of so many clocks and finishes are pending there; and what it does behind its wait, in order.
#[derive(Drop)]
pub(crate) struct Wait {
    pub(crate) statement: Option<u32>,
    pub(crate) pending: Membership,
    pub(crate) clocks: u32,
    pub(crate) ahead: Vec<NextMove>,
}

impl Model for Wait {
    ghost use Rattle.std.specs.Prelude.{slice_index_or, false};
    ghost use Rattle.armus_base.specs.Finals.{list_below};
    ghost use Rattle.explain_clock.specs.ClockFacts.{ClockWait};

    ghost Value = { ClockWait };

    ghost view = { λ w. record { statement = w.statement; pending = list_below (λ p. slice_index_or w.pending p false) w.clocks; ahead = w.ahead.items } };
}

// Whether this is done to `p`.
fn is_on(next: NextMove, p: PhaserId) -> bool
    ensures { result ≡ is_move_on p.0 next }
{
    next.p == p
}

// The first of these that is done to `p`.
fn next_on(ahead: &[NextMove], p: PhaserId) -> Option<NextMove>
    ensures { result ≡ find (is_move_on p.0) ahead.now }
{
    for next in ahead {
        if is_on(*next, p) {
            return Some(*next);
        }
    }
    None
}

impl Wait {
    ghost use Rattle.std.specs.Prelude.{slice_index_or, false};

    // Whether `p` is pending there.
    fn is_pending(&self, p: PhaserId) -> bool
        ensures { result ≡ slice_index_or self.now.pending p.0 false }
    {
        if p.0 < self.clocks {
            self.pending.is_of(p)
        } else {
            false
        }
    }

    // What the activity does next to `p`.
    fn next(&self, p: PhaserId) -> Option<NextMove>
        ensures { result ≡ find (is_move_on p.0) self.now.ahead }
    {
        next_on(&self.ahead, p)
    }
}

// What is known where a run of a clock text has ended: of the text alone, how its activities have ended, the statuses of those that wait, and where each
// waits.
#[derive(Drop)]
pub(crate) struct ClockFacts<'a> {
    pub(crate) of_text: &'a ClockTextFacts<'a>,
    pub(crate) end: &'a Final,
    pub(crate) waits: Vec<Wait>,
}

impl<'a> Model for ClockFacts<'a> {
    ghost use Rattle.std.specs.Prelude.{◌<◌, ◌^◌, length};
    ghost use Rattle.std.specs.Coded.{codes};
    ghost use Rattle.clock_syntax.specs.calls.Trees.{clock_tree_code};
    ghost use Rattle.explain_clock.specs.ClockFacts.{ClockFacts};

    ghost Value = { ClockFacts };

    ghost coded = { Prim.hlevel (codes, clock_tree_code) };

    ghost view = { λ f. record { of_text = f.of_text.now; ends = f.end.now.ends; blocked = f.end.now.blocked; waits = f.waits.items } };

    ghost invariant = { λ f. length f.end.now.ends < 2 ^ 32 };
}

impl<'a> ClockFacts<'a> {
    ghost use Rattle.explain_clock.specs.ClockWords.{waits_at};
    ghost use Rattle.explain_clock.specs.ClockFacts.{end_at, pending_in};
    ghost use Rattle.explain_clock.specs.ClockKeepers.{next_at};
    ghost use Rattle.std.specs.Prelude.{slice_index_or, false};

    // What is known of this text where a run has ended so and its activities wait so.
    pub(crate) fn new(
        of_text: &'a ClockTextFacts<'a>,
        end: &'a Final,
        waits: Vec<Wait>,
    ) -> ClockFacts<'a>
        requires few { length end.now.ends < 2 ^ 32 }
        ensures { result ≡ record { of_text = of_text.now; ends = end.now.ends; blocked = end.now.blocked; waits = waits.items } }
    {
        ClockFacts {
            of_text,
            end,
            waits,
        }
    }

    // How many activities there are.
    pub(crate) fn count(&self) -> u32
        ensures { result ≡ length self.now.ends }
    {
        self.end.ends.as_slice().len() as u32
    }

    // The statement at which an activity waits.
    pub(crate) fn waits_at(&self, t: u32) -> Option<u32>
        ensures { result ≡ waits_at self.now t }
    {
        match self.waits.get(t as usize) {
            Some(wait) => wait.statement,
            None => None,
        }
    }

    // Whether `p` is pending where an activity waits.
    pub(crate) fn is_pending(&self, t: u32, p: PhaserId) -> bool
        ensures { result ≡ slice_index_or (pending_in (slice_get self.now.waits t)) p.0 false }
    {
        match self.waits.get(t as usize) {
            Some(wait) => wait.is_pending(p),
            None => false,
        }
    }

    // What an activity does next to `p`, behind its wait.
    pub(crate) fn next(&self, t: u32, p: PhaserId) -> Option<NextMove>
        ensures { result ≡ next_at self.now t p.0 }
    {
        match self.waits.get(t as usize) {
            Some(wait) => wait.next(p),
            None => None,
        }
    }

    // How an activity has ended.
    pub(crate) fn end(&self, t: u32) -> TaskEnd
        ensures { result ≡ end_at self.now t }
    {
        match self.end.ends.as_slice().get(t as usize) {
            Some(end) => *end,
            None => TaskEnd::Done,
        }
    }
}
