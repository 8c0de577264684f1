// What is noted of the ops of one activity.
ghost use Rattle.std.specs.Prelude.{◌≡◌, [], Some, IfOk, OnOk, slice_get};
ghost use Rattle.clock_source_map.specs.inside.OpNotes.{all_noted, is_fork, next_noted, start_noted, wait_noted};

use armus_base::{Cursor, List, NoMemory, Op};
use std::alloc::Global;
use std::marker::Model;

// The ops of an activity of which nothing is noted yet, and from which statement each of those before them comes.
#[derive(Drop)]
pub(crate) struct OpNotes<'c> {
    left: Cursor<'c>,
    origins: Vec<Option<u32>>,
}

impl<'c> Model for OpNotes<'c> {
    ghost use Rattle.clock_source_map.specs.inside.OpNotes.{OpNotesValue};

    ghost Value = { OpNotesValue };

    ghost view = { λ k. record { left = k.left; origins = k.origins.items } };
}

// Whether the op forks.
fn is_fork(op: Op) -> bool
    ensures { result ≡ is_fork op }
{
    matches!(op, Op::Fork { c: _ })
}

impl<'c> OpNotes<'c> {
    // Of no op of this code, with room for so many.
    pub(crate) fn new(alloc: Global, code: Cursor<'c>, room: usize) -> Result<OpNotes<'c>, NoMemory>
        ensures { IfOk result (λ k. k ≡ record { left = code.entry; origins = [] }) }
    {
        Ok(OpNotes {
            left: code,
            origins: Vec::with_capacity(alloc, room)?,
        })
    }

    // The next op comes from this statement, or from none: the op, if one is left.
    fn next(&mut self, n: Option<u32>) -> Result<Option<Op>, NoMemory>
        ensures op { IfOk result (λ op. op ≡ slice_get self.old.left 0) }
        ensures noted { OnOk result (self.new ≡ next_noted n self.old) }
    {
        let Some(op) = self.left.next() else {
            return Ok(None);
        };
        self.origins.push(n)?;
        Ok(Some(op))
    }

    // The next op comes from statement `n`, if one is left.
    pub(crate) fn note(&mut self, n: u32) -> Result<(), NoMemory>
        ensures { OnOk result (self.new ≡ next_noted (Some n) self.old) }
    {
        self.next(Some(n))?;
        Ok(())
    }

    // An advance: a signal, unless one is pending, and a wait.
    pub(crate) fn advance(&mut self, n: u32) -> Result<(), NoMemory>
        ensures { OnOk result (self.new ≡ wait_noted n (slice_get self.old.left 0) (next_noted (Some n) self.old)) }
    {
        match self.next(Some(n))? {
            Some(Op::Adv { p: _ }) => self.note(n),
            _ => Ok(()),
        }
    }

    // The start of an activity: registrations, and a fork.
    pub(crate) fn start(&mut self, n: u32) -> Result<(), NoMemory>
        ensures { OnOk result (self.new ≡ start_noted n self.old.left self.old.origins) }
    {
        loop {
            let Some(op) = self.next(Some(n))? else {
                return Ok(());
            };
            if is_fork(op) {
                return Ok(());
            }
        }
    }

    // The end of a finish: a signal, a wait, and the finish is left.
    pub(crate) fn close(&mut self, n: u32) -> Result<(), NoMemory>
        ensures { OnOk result (self.new ≡ next_noted (Some n) (next_noted (Some n) (next_noted (Some n) self.old))) }
    {
        self.note(n)?;
        self.note(n)?;
        self.note(n)
    }

    // The ops that are left, which come from no statement.
    pub(crate) fn stop(&mut self) -> Result<(), NoMemory>
        ensures { OnOk result (self.new ≡ all_noted self.old) }
    {
        loop {
            let Some(_) = self.next(None)? else {
                return Ok(());
            };
        }
    }

    // What is noted of each op.
    pub(crate) fn into_origins(self) -> List<Option<u32>>
        ensures { result ≡ self.entry.origins }
    {
        List::from_vec(self.origins)
    }
}
