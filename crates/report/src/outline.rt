// The outline of a final state: how its tasks stand, and the line that counts them.
ghost use Rattle.std.specs.Prelude.{IfOk};
ghost use Rattle.armus_base.specs.calls.Statuses.{IsInOrder};
ghost use Rattle.report.specs.calls.Outlines.{IsOutline};

use crate::counts::counts_of;
use crate::lines::put_counts;
use crate::standing::{Standing, standings};
use adaptive::dead_of;
use armus_base::{Final, List, NoMemory};
use std::alloc::Global;

/// How the tasks of a final state stand.
#[derive(Drop)]
pub struct Outline {
    /// How each task stands, in order of number.
    pub standings: List<Standing>,
    /// The line that counts how the tasks stand.
    pub counts: List<u8>,
}

/// The outline of a final state, for other texts than a report.
pub fn outline_of(alloc: Global, end: &Final) -> Result<Outline, NoMemory>
    requires { IsInOrder end.now.blocked }
    ensures { IfOk result (IsOutline end.now) }
{
    let blocked = end.blocked.as_slice();
    let found = dead_of(alloc, blocked)?;
    let dead = found.as_slice();
    let standings = standings(alloc, end.ends.as_slice(), dead)?;
    let mut counts = Vec::new(alloc);
    put_counts(alloc, &mut counts, &counts_of(&standings))?;
    Ok(Outline {
        standings: List::from_vec(standings),
        counts: List::from_vec(counts),
    })
}
