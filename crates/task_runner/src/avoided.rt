// The run that avoids deadlock.
ghost use Rattle.std.specs.Prelude.{◌≡◌, ◌≤◌, false, IfOk};
ghost use Rattle.armus_base.specs.calls.Limits.{max_workers};
ghost use Rattle.world_runs.specs.calls.AvoidedRuns.{IsAvoidedEnd, IsSerialEnd};

use crate::RunOptions;
use crate::beside::Nothing;
use crate::board_run::BoardRun;
use armus_base::{Final, Gate, NoMemory, Plan};
use avoider::Judging;
use board::{Board, Mode};
use std::alloc::Global;
use std::thread::Threads;
use world_runs::{avoided_end_from, run_serial_avoid};

/// The state in which a maximal avoided run of the plan ends; nobody is dead in it, and in the run each await was refused exactly where its task would
/// have been dead. With one worker it is the serial avoided run, which goes by rounds: in a round each task that was forked before it acts, in order of
/// number, until it is done, or waits on an event that is not reached, or is refused. With several workers the run goes by rounds on a board that avoids
/// deadlock, and who is refused may depend on the order in which they act. It calls the gate before each op, of which no clause speaks. No call waits.
pub fn run_avoid<R: Threads + Sync, G: Gate>(
    rt: &R,
    alloc: Global,
    plan: &Plan,
    options: &RunOptions,
    gate: &G,
) -> Result<Final, NoMemory>
    requires workers { 1 ≤ options.now.workers × options.now.workers ≤ max_workers }
    requires quiet { options.now.live ≡ false }
    ensures end { IfOk result (λ end. IsAvoidedEnd plan.now end) }
    ensures serial { options.now.workers ≡ 1 → IfOk result (λ end. IsSerialEnd plan.now end) }
{
    let judging = Judging::Graph(options.wanted);
    avoid_by(rt, alloc, plan, options, judging, gate)
}

/// The same, where awaits are judged by orders that are kept from one await to the next: one for each part of a round that is not split further, kept from
/// round to round, and one for what goes on in one thread. There an await of which the phases of its task tell that it closes no cycle is published without
/// the order, and any other one is decided by `avoid_step_kept`.
pub fn run_avoid_kept<R: Threads + Sync, G: Gate>(
    rt: &R,
    alloc: Global,
    plan: &Plan,
    options: &RunOptions,
    gate: &G,
) -> Result<Final, NoMemory>
    requires workers { 1 ≤ options.now.workers × options.now.workers ≤ max_workers }
    requires quiet { options.now.live ≡ false }
    ensures end { IfOk result (λ end. IsAvoidedEnd plan.now end) }
    ensures serial { options.now.workers ≡ 1 → IfOk result (λ end. IsSerialEnd plan.now end) }
{
    avoid_by(rt, alloc, plan, options, Judging::Order, gate)
}

// The same, where awaits are judged so. On the board tasks take turns by rounds, until a round in which nobody acts, or until the board costs too much; in its turn
// a task decides on each await under the lock of the board. Then one viewer takes all seats in and the board is closed; from the places at which its tasks
// stood the run goes on in one thread until no task may go on.
fn avoid_by<R: Threads + Sync, G: Gate>(
    rt: &R,
    alloc: Global,
    plan: &Plan,
    options: &RunOptions,
    judging: Judging,
    gate: &G,
) -> Result<Final, NoMemory>
    requires { 1 ≤ options.now.workers }
    ensures end { IfOk result (λ end. IsAvoidedEnd plan.now end) }
    ensures serial { options.now.workers ≡ 1 → IfOk result (λ end. IsSerialEnd plan.now end) }
{
    if options.workers < 2 {
        return run_serial_avoid(alloc, plan, judging, gate);
    }
    let (board, seat, view) = Board::start(alloc, plan, Mode::Avoid)?;
    let mut run = BoardRun::start(alloc, &board, seat, plan, options, judging)?;
    run.go(rt, &board, gate, &mut Nothing {}, &mut ())?;
    let places = run.leave(board, view)?;
    avoided_end_from(alloc, plan, places.as_slice(), judging, gate)
}
