// From each number on the first one that is marked, so that a walk over those looks at no others.
ghost use Rattle.std.specs.Prelude.{◌≡◌, ◌<◌, ◌+◌, ◌^◌, IfOk, length};
ghost use Rattle.armus_base.specs.calls.StatusLists.{AreNexts, IsNextMarked, is_marked};

use crate::NoMemory;
use std::alloc::Global;

// The first marked number from this one on, where another one is the first after it.
fn next_from(marks: &[bool], p: usize, after: u32) -> u32
    requires inside { p < length marks.now }
    requires few { length marks.now < 2 ^ 32 }
    requires after { IsNextMarked (is_marked marks.now) (length marks.now) (p + 1) after }
    ensures { IsNextMarked (is_marked marks.now) (length marks.now) p result }
{
    if marks[p] { p as u32 } else { after }
}

/// Writes for each number up to the count of marks the first one from it on that is marked, or the count.
pub fn fill_nexts(nexts: &mut [u32], marks: &[bool])
    requires room { length nexts.old ≡ length marks.now + 1 }
    requires few { length marks.now < 2 ^ 32 }
    ensures room { length nexts.new ≡ length nexts.old }
    ensures nexts { AreNexts (is_marked marks.now) (length marks.now) nexts.new }
{
    let count = marks.len();
    nexts[count] = count as u32;
    for k in 0..count {
        let p = count - 1 - k;
        nexts[p] = next_from(marks, p, nexts[p + 1]);
    }
}

// The same in a list of its own.
pub(crate) fn nexts_of(alloc: Global, count: u32, marks: &[bool]) -> Result<Vec<u32>, NoMemory>
    requires count { length marks.now ≡ count }
    ensures room { IfOk result (λ v. length v.items ≡ length marks.now + 1) }
    ensures nexts { IfOk result (λ v. AreNexts (is_marked marks.now) (length marks.now) v.items) }
{
    let mut nexts = vec![in alloc; 0; count as usize + 1]?;
    fill_nexts(nexts.as_mut_slice(), marks);
    Ok(nexts)
}
