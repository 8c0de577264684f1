// What is known from a text alone.
ghost use Rattle.std.specs.Prelude.{◌≡◌, ◌+◌, ◌-◌, ◌<◌, ◌^◌, IfOk, Ok, length, option_map};
ghost use Rattle.pl_plan.specs.Forks.{fork_statements};
ghost use Rattle.pl_plan.specs.Unfolding.{plan_of};
ghost use Rattle.pl_syntax.specs.Grammar.{IsText};
ghost use Rattle.pl_syntax.specs.Tree.{count};
ghost use Rattle.source_map.specs.Origins.{last_origin};
ghost use Rattle.source_map.specs.inside.Tables.{coming_of};
ghost use Rattle.explain_facts.specs.Accounts.{brace_of, drawn_of, end_place, ended_of, forked_of, numbered, place_or_end, statement_place};
ghost use Rattle.explain_facts.specs.Names.{given_name};
ghost use Rattle.explain_facts.specs.calls.Known.{AreKnownFacts, kept_layout};

use crate::account::{CodeEnd, Drawn, Forked};
use crate::names::{GivenNames, given_name, program_names};
use armus_base::{List, NoMemory, Plan, TaskId};
use pl_syntax::{Program, Stmt, body_ends, statement_offsets};
use source_map::{Origins, TextPlace, TextPlaces};
use std::alloc::Global;

/// What is known from a text alone: where its statements and the bodies of these stand, and from which of them tasks, phasers and ops come.
#[derive(Drop)]
pub struct TextFacts<'a> {
    /// The allocator.
    pub alloc: Global,
    /// The places of the text.
    pub places: &'a TextPlaces<'a>,
    /// Its program.
    pub program: &'a Program,
    /// From which statements ops, phasers and tasks come.
    pub origins: Origins<'a>,
    /// The offset of each statement, in order of number.
    pub offsets: List<u32>,
    /// The offset of the brace that closes the body of each statement, in order of number.
    pub ends: List<Option<u32>>,
    /// The names of its tasks and phasers.
    pub names: GivenNames,
}

// The place of this byte of the text, and the end of the text where there is none.
fn place_or_end(places: &TextPlaces<'_>, offset: Option<u32>) -> TextPlace
    ensures { result ≡ place_or_end places.now offset }
{
    match offset {
        None => places.end(),
        Some(offset) => places.at(offset),
    }
}

// The offset of a statement.
fn offset_at(offsets: &[u32], n: u32) -> Option<u32>
    ensures { result ≡ numbered offsets.now n }
{
    if n == 0 {
        return None;
    }
    offsets.get(n as usize - 1).copied()
}

// The offset of the brace that closes the body of a statement.
fn end_at(ends: &[Option<u32>], n: u32) -> Option<u32>
    ensures { result ≡ brace_of (numbered ends.now n) }
{
    if n == 0 {
        return None;
    }
    match ends.get(n as usize - 1) {
        Some(end) => *end,
        None => None,
    }
}

// The name that a statement gives.
fn name_of(alloc: Global, stmt: Option<&Stmt>) -> Result<List<u8>, NoMemory>
    ensures { IfOk result (λ name. name ≡ given_name (option_map (λ s. coming_of s.now) stmt.entry)) }
{
    Ok(List::from_vec(Vec::from_slice(alloc, given_name(stmt))?))
}

impl<'a> TextFacts<'a> {
    /// What is known of this text and its program, by the forks that `unfold` answers, and by the plan to which the program unfolds.
    pub fn new(
        alloc: Global,
        places: &'a TextPlaces<'a>,
        program: &'a Program,
        forks: Vec<Option<u32>>,
        plan: &Plan,
    ) -> Result<TextFacts<'a>, NoMemory>
        requires few { count program.now.body + 1 < 2 ^ 32 }
        requires reads { IsText places.now program.now }
        requires forks { forks.items ≡ fork_statements program.now }
        requires unfolds { plan_of program.now ≡ Ok plan.now }
        ensures known { IfOk result (λ facts. AreKnownFacts facts) }
        ensures text { IfOk result (λ facts. facts.places.now ≡ places.now) }
        ensures program { IfOk result (λ facts. facts.program.now ≡ program.now) }
    {
        let offsets = statement_offsets(alloc, places.text(), program)?;
        let ends = body_ends(alloc, places.text(), program)?;
        let origins = Origins::new(alloc, program, forks)?;
        let names = program_names(alloc, program, &origins, plan.tasks())?;
        Ok(TextFacts {
            alloc,
            places,
            program,
            origins,
            offsets,
            ends,
            names,
        })
    }

    /// The place of a statement; the end of the text where it has none of this number.
    pub fn statement(&self, n: u32) -> TextPlace
        ensures { result ≡ statement_place (kept_layout self.now) n }
    {
        place_or_end(self.places, offset_at(self.offsets.as_slice(), n))
    }

    /// The place at which the body of a fork ends.
    pub fn end(&self, fork: u32) -> TextPlace
        ensures { result ≡ end_place (kept_layout self.now) fork }
    {
        place_or_end(self.places, end_at(self.ends.as_slice(), fork))
    }

    // Where a task is drawn.
    pub(crate) fn drawn(&self, t: TaskId) -> Result<Option<Drawn>, NoMemory>
        requires { AreKnownFacts self.now }
        ensures { IfOk result (λ drawn. drawn ≡ drawn_of (kept_layout self.now) self.now.program.now t.0) }
    {
        let Some(n) = self.origins.task(t) else {
            return Ok(None);
        };
        let name = name_of(self.alloc, self.origins.statement(n))?;
        Ok(Some(Drawn {
            at: self.statement(n),
            name,
        }))
    }

    // Where a task is forked.
    pub(crate) fn forked(&self, plan: &Plan, t: TaskId) -> Option<Forked>
        requires known { AreKnownFacts self.now }
        requires task { t.0 < length plan.now.parents }
        ensures { result ≡ forked_of (kept_layout self.now) self.now.program.now plan.now t.0 }
    {
        let n = self.origins.fork(t)?;
        let by = plan.parent(t)?;
        Some(Forked {
            at: self.statement(n),
            by,
        })
    }

    // The place of the statement of a task's last visit.
    fn last(&self, t: TaskId) -> Option<TextPlace>
        requires { AreKnownFacts self.now }
        ensures { result ≡ option_map (statement_place (kept_layout self.now)) (last_origin self.now.program.now t.0) }
    {
        match self.origins.last(self.program, t) {
            Some(n) => Some(self.statement(n)),
            None => None,
        }
    }

    // Where the code of a task ends.
    pub(crate) fn ended(&self, t: TaskId) -> Option<CodeEnd>
        requires { AreKnownFacts self.now }
        ensures { result ≡ ended_of (kept_layout self.now) self.now.program.now t.0 }
    {
        let fork = self.origins.fork(t)?;
        Some(CodeEnd {
            at: self.end(fork),
            last: self.last(t),
        })
    }
}
