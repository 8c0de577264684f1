// The tasks that may act.
ghost use Rattle.std.specs.Prelude.{◌≡◌, ◌↔◌, ℕ, ◌<◌, ◌≤◌, ◌*◌, ◌/◌, ◌⊎◌, Some, true, false, IfOk, IfSome, IsTrue, MatchOption, length, replicate, vec_len};
ghost use Rattle.run_queue.specs.inside.ReadyTasks.{AreMarked, IsSet};

use armus_base::NoMemory;
use std::alloc::Global;

// so many flags are a block
const BLOCK: usize = 64;

/// A flag for each task, and a mark for each block of flags in which one may be set, so that a search goes past the blocks without a mark.
#[derive(Drop)]
pub(crate) struct ReadyTasks {
    flags: Vec<bool>,
    marks: Vec<bool>,
    ghost sized: { vec_len flags ≤ 64 * vec_len marks },
    ghost few: { vec_len flags ≤ 4096 },
    ghost marked: { AreMarked flags.items marks.items },
}

// Whether no flag of a block is set.
fn is_clear(flags: &[bool], block: usize) -> bool
    requires block { 64 * block ≤ length flags.now }
    ensures { IsTrue result → (t : ℕ) → t / 64 ≡ block → IsSet flags.now t → ⊥ }
{
    let first = block * BLOCK;
    let end = flags.len().min(first + BLOCK);
    for at in first..end {
        if flags[at] {
            return false;
        }
    }
    true
}

impl ReadyTasks {
    /// Of so many tasks none.
    pub(crate) fn none(alloc: Global, tasks: usize) -> Result<ReadyTasks, NoMemory>
        requires few { tasks ≤ 4096 }
        ensures { IfOk result (λ ready. ready.flags.items ≡ replicate tasks false) }
    {
        let flags = vec![in alloc; false; tasks]?;
        let marks = vec![in alloc; false; tasks / BLOCK + 1]?;
        Ok(ReadyTasks { flags, marks })
    }

    /// Adds a task of those that there are.
    pub(crate) fn add(&mut self, t: usize)
        ensures tasks { length self.new.flags.items ≡ length self.old.flags.items }
        ensures there { t < length self.old.flags.items → IsSet self.new.flags.items t }
        ensures keeps { (u : ℕ) → IsSet self.old.flags.items u → IsSet self.new.flags.items u }
        ensures others { (u : ℕ) → IsSet self.new.flags.items u → IsSet self.old.flags.items u ⊎ (u ≡ t) }
    {
        if t < self.flags.len() {
            self.flags[t] = true;
            self.marks[t / BLOCK] = true;
        }
    }

    /// Adds a task of those that there are, if it is to be one.
    pub(crate) fn add_if(&mut self, t: usize, has: bool)
        requires task { t < length self.old.flags.items }
        ensures tasks { length self.new.flags.items ≡ length self.old.flags.items }
        ensures exactly { (u : ℕ) → IsSet self.new.flags.items u ↔ (IsSet self.old.flags.items u ⊎ ((u ≡ t) × (has ≡ true))) }
    {
        if has {
            self.add(t);
        }
    }

    /// Takes a task out.
    pub(crate) fn take_out(&mut self, t: usize)
        ensures tasks { length self.new.flags.items ≡ length self.old.flags.items }
        ensures keeps { (u : ℕ) → IsSet self.old.flags.items u → IsSet self.new.flags.items u ⊎ (u ≡ t) }
        ensures others { (u : ℕ) → IsSet self.new.flags.items u → IsSet self.old.flags.items u }
    {
        if t < self.flags.len() {
            self.flags[t] = false;
            if is_clear(&self.flags, t / BLOCK) {
                self.marks[t / BLOCK] = false;
            }
        }
    }

    /// The first one from `from` on.
    pub(crate) fn next(&self, from: usize) -> Option<usize>
        ensures few { IfSome result (λ t. t < 4096) }
        ensures next { MatchOption result
            ((t : ℕ) → from ≤ t → IsSet self.now.flags.items t → ⊥)
            (λ t. (from ≤ t) × (t < length self.now.flags.items) × IsSet self.now.flags.items t × ((u : ℕ) → from ≤ u → u < t → IsSet self.now.flags.items u → ⊥)) }
    {
        let mut at = from;
        'search: while at < self.flags.len() {
            if self.flags[at] {
                return Some(at);
            }
            at = self.behind(at);
        }
        None
    }

    // A place behind this one, whose flag is not set; none between is set.
    fn behind(&self, at: usize) -> usize
        requires within { at < length self.now.flags.items }
        requires clear { IsSet self.now.flags.items at → ⊥ }
        ensures further { at < result }
        ensures clear { (t : ℕ) → at ≤ t → t < result → IsSet self.now.flags.items t → ⊥ }
    {
        if self.marks[at / BLOCK] {
            at + 1
        } else {
            (at / BLOCK + 1) * BLOCK
        }
    }
}
