// For how many workers there is room.
ghost use Rattle.std.specs.Prelude.{◌≤◌};

use board::{Board, Mode};

// so many phases all workers may have room for together, of eight bytes each
const MOST_PHASES: u64 = 1 << 22;

// Where deadlock is avoided a worker decides by what it has collected, for which it has room for a phase of each task on each phaser: for so many workers there is
// room, and for two at least, so that two tasks may act at once.
fn workers_with_room(board: &Board) -> u64
    ensures several { 2 ≤ result }
    ensures few { result ≤ 64 }
{
    let phases = u64::from(board.tasks()).saturating_mul(u64::from(board.phasers()));
    (MOST_PHASES / phases.max(1)).min(64).max(2)
}

/// How many of these workers a round on the board has: all where deadlock is detected, and else those for whose collects there is room.
pub(crate) fn with_room(board: &Board, workers: u8) -> u8
    ensures few { result ≤ workers }
    ensures several { 2 ≤ workers → 2 ≤ result }
{
    match board.mode() {
        Mode::Avoid => workers.min(workers_with_room(board) as u8),
        Mode::Detect => workers,
    }
}
