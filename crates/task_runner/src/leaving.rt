// When a run leaves its board.
ghost use Rattle.std.specs.Prelude.{◌≡◌, ◌<◌, true, false};
ghost use Rattle.task_runner.specs.inside.BoardRuns.{bound_on};

use board::{Board, Mode};
use board_runs::Rounded;

/// How many words the awaits of a run may load on a board, before the run leaves it.
pub(crate) const MANY_LOADS: u64 = 1 << 24;

/// How many, where deadlock is avoided: with each await a decision is made there, which takes far longer than its loads.
const MANY_LOADS_TO_DECIDE: u64 = 1 << 20;

/// Whether the awaits of a run that detects deadlock have loaded so many words that the board costs more than it gives.
pub(crate) fn are_many(loads: u64) -> bool {
    loads > MANY_LOADS
}

/// Whether those of a run on this board have.
pub(crate) fn are_many_on(board: &Board, loads: u64) -> bool {
    match board.mode() {
        Mode::Avoid => loads > MANY_LOADS_TO_DECIDE,
        Mode::Detect => are_many(loads),
    }
}

/// How many loads the tasks of a worker may make in a round before it cuts turns short: any number where there is a pass beside the rounds, for which the run
/// stays on its board; and fewer where deadlock is avoided, since of a decision the await words alone are counted.
pub(crate) fn bound_on_loads(board: &Board, with_pass: bool) -> u64
    ensures { result ≡ bound_on board.now with_pass }
{
    if with_pass {
        return u64::MAX;
    }
    match board.mode() {
        Mode::Avoid => MANY_LOADS / (u64::from(board.phasers()) + 1),
        Mode::Detect => MANY_LOADS,
    }
}

/// Whether another round on the board is to come after this one. None comes after a round in which nobody acted and, where the awaits so far have loaded too
/// many words and there is no pass beside the rounds, none after a round in which nobody was forked.
pub(crate) fn goes_on(made: Rounded, too_many: bool, with_pass: bool) -> bool
    requires quiet { made.actions ≡ 0 → made.forked ≡ false }
    ensures moved { result ≡ true → 0 < made.actions }
    ensures ended { result ≡ false → made.forked ≡ false }
    ensures stays { with_pass ≡ true → result ≡ false → made.actions ≡ 0 }
{
    if made.actions == 0 {
        return false;
    }
    if with_pass {
        return true;
    }
    if too_many {
        return made.forked;
    }
    true
}
