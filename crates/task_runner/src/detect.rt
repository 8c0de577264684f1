// A run on a board that detects deadlock.
ghost use Rattle.std.specs.Prelude.{◌≡◌, ◌≤◌, ℕ, false, true, IfOk, OnOk};
ghost use Rattle.armus_base.specs.calls.Limits.{max_workers};
ghost use Rattle.board.specs.declared.mode.Mode.TheVariants.{Detect};
ghost use Rattle.board.specs.calls.Views.{seen};
ghost use Rattle.phase_scan.specs.calls.Looks.{LoadsAlone};
ghost use Rattle.task_runner.specs.calls.DetectRuns.{IsDetectRun, IsNoWrite, TellsRun, told};
ghost use Rattle.task_runner.specs.inside.BoardRuns.{HaveAllEnded};
ghost use Rattle.task_runner.specs.inside.DetectRounds.{IsUnderWay};
ghost use Rattle.task_runner.specs.inside.LiveReporters.{HasPassed, SeesOn, TellsMore, TellsOn, IsWatching};

use crate::beside::Nothing;
use crate::board_run::BoardRun;
use crate::live_reporter::LiveReporter;
use crate::rest::tell_rest;
use crate::{Ran, RunEnd, RunOptions};
use armus_base::{Gate, Plan, Sink};
use avoider::Judging;
use board::{Board, Mode};
use std::alloc::Global;
use std::thread::Threads;
use world_runs::world_end_from;

/// Runs the plan on a board that detects deadlock. Its tasks take turns by rounds, with the given number of workers, until a round in which nobody acts or,
/// without `live`, until the board costs too much; with `live` a detector makes a pass beside each round that pays for it (`PassTimes`), and each task that
/// it is the first to name has its line. Then one viewer takes all seats in, the detector makes one more pass, which names just the tasks that are dead by
/// then, and the board is closed; from the places at which its tasks stood the run goes on in one thread until no task may go on, and with `live` whoever is
/// dead then and was not named has a line. The gate is called before each op and after each pass. `Write` comes only where the sink counted a fault. No call
/// waits.
pub fn run_detect<R: Threads + Sync, G: Gate, K: Sink>(
    rt: &R,
    alloc: Global,
    plan: &Plan,
    options: &RunOptions,
    gate: &G,
    out: &mut K,
) -> Result<Ran, RunEnd>
    requires workers { 1 ≤ options.now.workers × options.now.workers ≤ max_workers }
    ensures ran { IfOk result (IsDetectRun plan.now) }
    ensures told { options.now.live ≡ true → TellsRun plan.now (told K.taken K.faults out.old) (told K.taken K.faults out.new) result }
    ensures silent { options.now.live ≡ false → (out.new ≡ out.old) × IsNoWrite result }
{
    let (board, seat, view) = Board::start(alloc, plan, Mode::Detect)?;
    let judging = Judging::Graph(options.wanted);
    let mut run = BoardRun::start(alloc, &board, seat, plan, options, judging)?;
    let mut live_reporter = LiveReporter::start(alloc, &board, view, options.wanted)?;
    go_by_rounds(&mut run, rt, &board, gate, &mut live_reporter, out)?;
    end_run(run, board, live_reporter, gate, out)
}

// Rounds until all tasks have come to the end of their turns. With `live` a pass goes beside some of them, whose lines are written before the next round.
fn go_by_rounds<R: Threads + Sync, G: Gate, K: Sink>(
    run: &mut BoardRun<'_>,
    rt: &R,
    board: &Board,
    gate: &G,
    live_reporter: &mut LiveReporter,
    out: &mut K,
) -> Result<(), RunEnd>
    requires under_way { IsUnderWay board.now run.old.plan.now run.old.board_tasks live_reporter.old }
    ensures given { (run.new.plan ≡ run.old.plan) × (run.new.options ≡ run.old.options) }
    ensures under_way { OnOk result (IsUnderWay board.now run.new.plan.now run.new.board_tasks live_reporter.new) }
    ensures ends { OnOk result (HaveAllEnded board.now run.old.options.live run.new.board_tasks) }
    ensures sees { SeesOn live_reporter.old.view live_reporter.new.view }
    ensures told { TellsMore board.now.plan live_reporter.old.dead live_reporter.new.dead (told K.taken K.faults out.old) (told K.taken K.faults out.new) result }
    ensures silent { run.old.options.live ≡ false → (out.new ≡ out.old) × IsNoWrite result }
{
    if run.options.live {
        return run.go(rt, board, gate, live_reporter, out);
    }
    run.go(rt, board, gate, &mut Nothing {}, out)?;
    Ok(())
}

// Ends the run of these tasks, which have all come to the end of their turns.
fn end_run<G: Gate, K: Sink>(
    run: BoardRun<'_>,
    board: Board,
    mut live_reporter: LiveReporter,
    gate: &G,
    out: &mut K,
) -> Result<Ran, RunEnd>
    requires under_way { IsUnderWay board run.plan.now run.board_tasks live_reporter }
    requires ends { HaveAllEnded board run.options.live run.board_tasks }
    requires unknown { (u : ℕ) → (seen live_reporter.view.view).exact u ≡ false }
    ensures ran { IfOk result (IsDetectRun run.entry.plan.now) }
    ensures told { run.entry.options.live ≡ true → TellsOn run.entry.plan.now live_reporter.dead (told K.taken K.faults out.old) (told K.taken K.faults out.new) result }
    ensures silent { run.entry.options.live ≡ false → (out.new ≡ out.old) × IsNoWrite result }
{
    let BoardRun {
        alloc,
        plan,
        options,
        board_tasks,
        ..
    } = run;
    let places = board_tasks.places(alloc, &board, plan)?;
    live_reporter.take_in(&board, board_tasks);
    last_pass(alloc, &board, &options, gate, &mut live_reporter, out)?;
    let (words, told, dead) = live_reporter.close(board);
    let ended = world_end_from(alloc, plan, places.as_slice(), gate)?;
    tell_rest(
        alloc,
        ended.end.blocked.as_slice(),
        told.as_slice(),
        &options,
        out,
    )?;
    Ok(Ran {
        end: ended.end,
        places,
        words,
        dead,
    })
}

// The pass after the rounds; with `live` its lines are written.
fn last_pass<G: Gate, K: Sink>(
    alloc: Global,
    board: &Board,
    options: &RunOptions,
    gate: &G,
    live_reporter: &mut LiveReporter,
    out: &mut K,
) -> Result<(), RunEnd>
    requires watches { IsWatching board.now live_reporter.old }
    requires detects { board.now.mode ≡ Detect }
    ensures watches { OnOk result (IsWatching board.now live_reporter.new) }
    ensures goes_on { LoadsAlone live_reporter.old.view live_reporter.new.view }
    ensures passed { OnOk result (HasPassed live_reporter.old.view live_reporter.new) }
    ensures told { options.now.live ≡ true → TellsMore board.now.plan live_reporter.old.dead live_reporter.new.dead (told K.taken K.faults out.old) (told K.taken K.faults out.new) result }
    ensures silent { options.now.live ≡ false → (out.new ≡ out.old) × IsNoWrite result }
{
    if options.live {
        return live_reporter.tell(alloc, board, gate, out);
    }
    let _ = live_reporter.name(alloc, board)?;
    Ok(())
}
