// Tasks of which the same is said, together.
ghost use Rattle.std.specs.Prelude.{◌<◌, ◌∷◌, [], IfOk, OnOk, length};
ghost use Rattle.explain_tasks.specs.calls.SayingValues.{said_by};

use crate::saying::Saying;
use armus_base::{NoMemory, TaskId};
use indexmap::IndexSet;
use std::alloc::Global;

/// What is said, each thing once, in the order in which it first came, and the tasks of which each is said.
#[derive(Drop)]
pub struct Grouping {
    /// What is said.
    pub sayings: IndexSet<Saying>,
    /// The tasks of which each of these is said.
    pub groups: Vec<Vec<TaskId>>,
}

impl Grouping {
    ghost use Rattle.explain_tasks.specs.calls.Grouped.{AddsTold, IsGrouped, IsSized, NotesSaid};

    /// Nothing is said yet.
    pub fn new(alloc: Global) -> Grouping
        ensures { IsGrouped [] [] result }
    {
        Grouping {
            sayings: IndexSet::new(alloc),
            groups: Vec::new(alloc),
        }
    }

    /// Notes what is said, of no task so far; the answer is its number.
    pub fn note(&mut self, alloc: Global, saying: Saying) -> Result<usize, NoMemory>
        ensures noted { IfOk result (NotesSaid (said_by saying) self.old self.new) }
        ensures inside { IfOk result (λ at. IsSized self.old → at < length self.new.groups.items) }
        ensures sized { IfOk result (λ at. IsSized self.old → IsSized self.new) }
    {
        let (at, is_new) = self.sayings.insert_full(saying)?;
        if is_new {
            self.groups.push(Vec::new(alloc))?;
        }
        Ok(at)
    }

    /// Notes what is said of a task.
    pub fn put(&mut self, alloc: Global, saying: Saying, t: TaskId) -> Result<(), NoMemory>
        requires sized { IsSized self.old }
        ensures put { OnOk result (AddsTold (said_by saying ∷ []) (record { said = said_by saying; task = t } ∷ []) self.old self.new) }
        ensures sized { OnOk result (IsSized self.new) }
    {
        let at = self.note(alloc, saying)?;
        self.groups[at].push(t)?;
        Ok(())
    }
}
