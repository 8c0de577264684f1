// What an explanation is made of.
ghost use Rattle.std.specs.Prelude.{◌≡◌, ◌==◌, length, option_copied, slice_get, slice_index_or};
ghost use Rattle.std.specs.List.{find};
ghost use Rattle.explain_facts.specs.declared.account.NextOp.{NextOp};
ghost use Rattle.report.specs.declared.standing.Standing.TheVariants.{Done};

use crate::situation::{Situation, situation_by};
use armus_base::{PhaserId, TaskId};
use explain_facts::{Account, CodeEnd, Drawn, Forked, NextOp, TaskAccount, Waiting};
use report::Standing;
use source_map::TextPlaces;
use std::alloc::Global;
use std::marker::Model;

/// What is known where a run has ended: the text, the name of its file, its account, and how each task stands.
#[derive(Drop)]
pub struct Facts<'a> {
    pub(crate) alloc: Global,
    pub(crate) places: &'a TextPlaces<'a>,
    pub(crate) file: Option<&'a [u8]>,
    pub(crate) account: &'a Account,
    pub(crate) standings: &'a [Standing],
}

impl<'a> Model for Facts<'a> {
    ghost use Rattle.explain_tasks.specs.Facts.{FactsValue};
    ghost use Rattle.std.specs.Prelude.{◌<◌, ◌^◌, length, option_copied};

    ghost Value = { FactsValue };

    ghost view = { λ f. record { text = f.places.now; file = option_copied f.file; account = f.account.now; standings = f.standings.now } };

    ghost invariant = { λ f. length f.standings.now < 2 ^ 32 };
}

// Whether an op is on a phaser.
fn is_on(next: NextOp, p: PhaserId) -> bool
    ensures { result ≡ (next.p.0 == p.0) }
{
    next.p.0 == p.0
}

// The first of these ops that is on a phaser.
fn next_on(nexts: &[NextOp], p: PhaserId) -> Option<NextOp>
    ensures { result ≡ find (λ (x : NextOp). x.p.0 == p.0) nexts.now }
{
    for next in nexts {
        if is_on(*next, p) {
            return Some(*next);
        }
    }
    None
}

/// How a task stands, and Done where there is no such task.
pub fn task_standing(standings: &[Standing], t: TaskId) -> Standing
    ensures { result ≡ slice_index_or standings.now t.0 Done }
{
    match standings.get(t.0 as usize) {
        Some(standing) => *standing,
        None => Standing::Done,
    }
}

impl<'a> Facts<'a> {
    ghost use Rattle.explain_tasks.specs.Facts.{drawing_of, ending_of, facts_of, forking_of, next_op_of, situation_of, wait_of};
    ghost use Rattle.std.specs.Prelude.{◌<◌, ◌^◌};

    /// What is known of a text with these places, of the file with this name if it comes from one, with this account, and whose tasks stand so.
    pub fn new(
        alloc: Global,
        places: &'a TextPlaces<'a>,
        file: Option<&'a [u8]>,
        account: &'a Account,
        standings: &'a [Standing],
    ) -> Facts<'a>
        requires few { length standings.now < 2 ^ 32 }
        ensures { result ≡ facts_of places.now (option_copied file.entry) account.now standings.now }
    {
        Facts {
            alloc,
            places,
            file,
            account,
            standings,
        }
    }

    /// The allocator.
    pub fn alloc(&self) -> Global {
        self.alloc
    }

    /// How many tasks there are.
    pub fn count(&self) -> u32
        ensures { result ≡ length self.now.standings }
    {
        self.standings.len() as u32
    }

    // What is known of a task.
    fn task(&self, t: TaskId) -> Option<&TaskAccount>
        ensures { option_copied result ≡ slice_get self.now.account.tasks t.0 }
    {
        self.account.tasks.as_slice().get(t.0 as usize)
    }

    /// Where a task was drawn, if it was.
    pub fn drawn(&self, t: TaskId) -> Option<&Drawn>
        ensures { option_copied result ≡ drawing_of self.now t.0 }
    {
        match self.task(t) {
            Some(task) => task.drawn.as_ref(),
            None => None,
        }
    }

    /// The op that forks a task, if there is one.
    pub fn fork(&self, t: TaskId) -> Option<Forked>
        ensures { result ≡ forking_of self.now t.0 }
    {
        match self.task(t) {
            Some(task) => task.fork,
            None => None,
        }
    }

    // Where the code of a task ends, if it can be forked.
    pub(crate) fn end(&self, t: TaskId) -> Option<CodeEnd>
        ensures { result ≡ ending_of self.now t.0 }
    {
        match self.task(t) {
            Some(task) => task.ended,
            None => None,
        }
    }

    /// Where a task waits, if it waits.
    pub fn wait(&self, t: TaskId) -> Option<&Waiting>
        ensures { option_copied result ≡ wait_of self.now t.0 }
    {
        match self.task(t) {
            Some(task) => task.wait.as_ref(),
            None => None,
        }
    }

    // What a task does next to a phaser, if anything.
    pub(crate) fn next_op(&self, t: TaskId, p: PhaserId) -> Option<NextOp>
        ensures { result ≡ next_op_of self.now t.0 p.0 }
    {
        match self.task(t) {
            Some(task) => next_on(task.nexts.as_slice(), p),
            None => None,
        }
    }

    /// How a task stands.
    pub fn situation(&self, t: TaskId) -> Situation
        ensures { result ≡ situation_of self.now t.0 }
    {
        situation_by(task_standing(self.standings, t), self.fork(t))
    }
}
