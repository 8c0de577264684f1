// What is kept of each awaited phaser while statuses are taken away.
ghost use Rattle.std.specs.Prelude.{◌≡◌, ◌<◌, Bool, true, IfOk, IfSome, List, length};
ghost use Rattle.adaptive.specs.inside.Remaining.{AreFronts, IsColumnOf};
ghost use Rattle.adaptive.specs.inside.Standings.{IsFirstOnPhaser, IsFront, StandingsNeverFall};
ghost use Rattle.adaptive.specs.declared.standings.PhaseStanding.{PhaseStanding};

use crate::standings::PhaseStanding;
use armus_base::PhaserId;
use std::alloc::{AllocError, Global};

/// An awaited phaser: the index of its first standing whose task may remain, and that of its first waiter who may.
#[derive(Clone, Copy, Debug, PartialEq, Eq)]
pub(crate) struct Column {
    pub(crate) p: PhaserId,
    pub(crate) front: usize,
    pub(crate) next: usize,
}

/// The index of the column of a phaser. Columns ascend, and where they do not, none is found.
pub(crate) fn column_of(columns: &[Column], p: PhaserId) -> Option<usize>
    ensures { IfSome result (λ c. IsColumnOf columns.now p.0 c) }
{
    let at = columns.partition_point(|column| column.p.0 < p.0);
    if at < columns.len() && columns[at].p == p {
        Some(at)
    } else {
        None
    }
}

/// The index from which the front of a phaser is looked for.
pub(crate) fn front_of(columns: &[Column], p: PhaserId) -> usize
    ensures { (standings : List PhaseStanding) (remains : List Bool) → AreFronts standings remains columns.now → IsFront standings remains p.0 result }
{
    match column_of(columns, p) {
        Some(c) => columns[c].front,
        None => 0,
    }
}

/// Keeps the front of a phaser.
pub(crate) fn keep_front(columns: &mut Vec<Column>, p: PhaserId, front: usize)
    ensures { (standings : List PhaseStanding) (remains : List Bool) → AreFronts standings remains columns.old.items → IsFront standings remains p.0 front →
        AreFronts standings remains columns.new.items }
{
    match column_of(columns, p) {
        Some(c) => columns[c].front = front,
        None => {}
    }
}

// Whether a standing is the first on its phaser.
fn is_first(standings: &[PhaseStanding], i: usize) -> bool
    requires { i < length standings.now }
    ensures { result ≡ true → IsFirstOnPhaser standings.now i }
{
    i == 0 || standings[i - 1].at.p.0 < standings[i].at.p.0
}

// The index of the first of the waiters on a phaser, which are in order.
fn first_waiter(waiters: &[PhaseStanding], p: PhaserId) -> usize {
    waiters.partition_point(|waiter| waiter.at.p.0 < p.0)
}

/// The columns of the phasers on which somebody stands, ascending, where all remain.
pub(crate) fn columns_of(
    alloc: Global,
    standings: &[PhaseStanding],
    waiters: &[PhaseStanding],
) -> Result<Vec<Column>, AllocError>
    requires { StandingsNeverFall standings.now }
    ensures { IfOk result (λ columns. (remains : List Bool) → AreFronts standings.now remains columns.items) }
{
    let mut columns = Vec::new(alloc);
    for i in 0..standings.len() {
        if is_first(standings, i) {
            let p = standings[i].at.p;
            columns.push(Column {
                p,
                front: i,
                next: first_waiter(waiters, p),
            })?;
        }
    }
    Ok(columns)
}
