// The words for tasks and for where they stand.
ghost use Rattle.std.specs.Prelude.{◌≡◌, ◌++◌, OnOk};
ghost use Rattle.explain_tasks.specs.TaskLists.{by_number};

use crate::facts::Facts;
use crate::naming::{put_phaser_words, put_task_words};
use crate::parts::put_tasks_words;
use armus_base::{NoMemory, PhaserId, TaskId, put_words};
use source_map::TextPlace;

/// Appends words that are kept.
pub fn put_kept(out: &mut Vec<u8>, words: &Vec<u8>) -> Result<(), NoMemory>
    ensures { OnOk result (out.new.items ≡ out.old.items ++ words.now.items) }
{
    put_words(out, words)
}

/// Appends the word for one, or the word for more.
pub fn put_by_number(out: &mut Vec<u8>, n: usize, one: &[u8], more: &[u8]) -> Result<(), NoMemory>
    ensures { OnOk result (out.new.items ≡ out.old.items ++ by_number n one.now more.now) }
{
    put_words(out, if n == 1 { one } else { more })
}

impl<'a> Facts<'a> {
    ghost use Rattle.explain_tasks.specs.Places.{drawn_place, end_words, fork_place, front_in, drawn_name, named_phaser, named_task, named_tasks, place_in_line, wait_place};

    // Appends a place within a line.
    pub(crate) fn put_place(&self, out: &mut Vec<u8>, at: TextPlace) -> Result<(), NoMemory>
        ensures { OnOk result (out.new.items ≡ out.old.items ++ place_in_line self.now at) }
    {
        self.places.put(self.alloc, out, at)
    }

    // Appends a place with which a line begins.
    pub(crate) fn put_front(&self, out: &mut Vec<u8>, at: TextPlace) -> Result<(), NoMemory>
        ensures { OnOk result (out.new.items ≡ out.old.items ++ front_in self.now at) }
    {
        self.places.put_front(self.alloc, out, self.file, at)
    }

    // Appends the name that the `newTid` of a task gives.
    pub(crate) fn put_drawn_name(&self, out: &mut Vec<u8>, t: TaskId) -> Result<(), NoMemory>
        ensures { OnOk result (out.new.items ≡ out.old.items ++ drawn_name self.now t.0) }
    {
        match self.drawn(t) {
            Some(drawn) => put_words(out, drawn.name.as_slice()),
            None => Ok(()),
        }
    }

    /// Appends a task.
    pub fn put_named(&self, out: &mut Vec<u8>, t: TaskId) -> Result<(), NoMemory>
        ensures { OnOk result (out.new.items ≡ out.old.items ++ named_task self.now t.0) }
    {
        put_task_words(self.alloc, &self.account.names, out, t)
    }

    /// Appends a phaser.
    pub fn put_named_phaser(&self, out: &mut Vec<u8>, p: PhaserId) -> Result<(), NoMemory>
        ensures { OnOk result (out.new.items ≡ out.old.items ++ named_phaser self.now p.0) }
    {
        put_phaser_words(self.alloc, &self.account.names, out, p)
    }

    /// Appends a list of tasks.
    pub fn put_named_tasks(&self, out: &mut Vec<u8>, tasks: &[TaskId]) -> Result<(), NoMemory>
        ensures { OnOk result (out.new.items ≡ out.old.items ++ named_tasks self.now tasks.now) }
    {
        put_tasks_words(self.alloc, &self.account.names, out, tasks)
    }

    /// Appends the place where a task waits.
    pub fn put_wait_place(&self, out: &mut Vec<u8>, t: TaskId) -> Result<(), NoMemory>
        ensures { OnOk result (out.new.items ≡ out.old.items ++ wait_place self.now t.0) }
    {
        match self.wait(t) {
            Some(wait) => self.put_place(out, wait.at),
            None => Ok(()),
        }
    }

    /// Appends the place where a task is forked.
    pub fn put_fork_place(&self, out: &mut Vec<u8>, t: TaskId) -> Result<(), NoMemory>
        ensures { OnOk result (out.new.items ≡ out.old.items ++ fork_place self.now t.0) }
    {
        match self.fork(t) {
            Some(fork) => self.put_place(out, fork.at),
            None => Ok(()),
        }
    }

    // Appends the place where a task was drawn.
    pub(crate) fn put_drawn_place(&self, out: &mut Vec<u8>, t: TaskId) -> Result<(), NoMemory>
        ensures { OnOk result (out.new.items ≡ out.old.items ++ drawn_place self.now t.0) }
    {
        match self.drawn(t) {
            Some(drawn) => self.put_place(out, drawn.at),
            None => Ok(()),
        }
    }

    /// Appends the place where the code of a task ends.
    pub fn put_end_place(&self, out: &mut Vec<u8>, t: TaskId) -> Result<(), NoMemory>
        ensures { OnOk result (out.new.items ≡ out.old.items ++ end_words self.now t.0) }
    {
        match self.end(t) {
            Some(end) => self.put_place(out, end.at),
            None => Ok(()),
        }
    }
}
