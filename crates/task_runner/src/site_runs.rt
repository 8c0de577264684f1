// A run on a board whose tasks live on several sites.
ghost use Rattle.std.specs.Prelude.{◌≡◌, ◌≤◌, ◌<◌, ℕ, List as Seq, All, None, true, false, IfOk, OnOk, length, replicate};
ghost use Rattle.armus_base.specs.Limits.{max_tasks};
ghost use Rattle.armus_base.specs.calls.Statuses.{IsInOrder};
ghost use Rattle.armus_base.specs.calls.Limits.{max_workers, max_sites};
ghost use Rattle.board.specs.declared.mode.Mode.TheVariants.{Detect};
ghost use Rattle.board.specs.calls.Seats.{IsNewSeat, IsOf, IsSeat};
ghost use Rattle.board.specs.calls.Views.{seen};
ghost use Rattle.sites.specs.calls.Keeping.{count_after};
ghost use Rattle.sites.specs.calls.Parts.{HoldParts, PutsParts};
ghost use Rattle.world_runs.specs.calls.PlainRuns.{IsPlainEnd};
ghost use Rattle.task_runner.specs.calls.SiteRuns.{HoldFinal, HoldRowsOfRun};
ghost use Rattle.task_runner.specs.inside.BoardRuns.{HaveAllEnded, IsOnBoard};
ghost use Rattle.task_runner.specs.inside.SiteRounds.{IsWholeEnd};

use crate::RunOptions;
use crate::board_run::BoardRun;
use crate::viewers::Viewers;
use adaptive::{Analysis, Wanted};
use armus_base::{Final, Gate, List, NoMemory, Plan, Point, Status};
use avoider::Judging;
use board::{Board, Mode, ViewSeat};
use sites::{KeepEnd, Keeper, SiteEnd, check_sites, put_parts};
use std::alloc::Global;
use std::thread::Threads;
use world_runs::world_end_from;

/// Runs the plan on a board that detects deadlock, its tasks spread over so many sites: site s has the tasks t with t mod `sites` = s. The tasks take
/// turns by rounds, with the given number of workers, until a round in which nobody acts. Beside each round that pays for it (`PassTimes`) goes one pass over
/// all sites: each puts what its viewer finds of its tasks, and then the rows of all are checked. From the places at which the tasks stood then the run goes on
/// in one thread until no task may go on; each site's part of the statuses of that state, with all their phases, is put, and all rows are checked once more.
/// The gate is called before each op. At every answer each row that is held stores statuses of its site that are backed by the places of a lawful state. Fault
/// comes exactly where the keeper's count of faults rises, by one. No call waits.
pub fn run_sites<R: Threads + Sync, G: Gate, K: Keeper>(
    rt: &R,
    alloc: Global,
    plan: &Plan,
    options: &RunOptions,
    sites: u32,
    keeper: &mut K,
    gate: &G,
) -> Result<Final, KeepEnd>
    requires workers { 1 ≤ options.now.workers × options.now.workers ≤ max_workers }
    requires quiet { options.now.live ≡ false }
    requires sites { 1 ≤ sites × sites ≤ max_sites }
    requires empty { K.rows keeper.old ≡ replicate sites None }
    ensures end { IfOk result (λ end. IsPlainEnd plan.now end) }
    ensures parts { IfOk result (HoldFinal plan.now sites (K.rows keeper.new)) }
    ensures rows { HoldRowsOfRun plan.now sites (K.rows keeper.new) }
    ensures count { K.faults keeper.new ≡ count_after result (K.faults keeper.old) }
{
    let (board, seat, mut view) = Board::start(alloc, plan, Mode::Detect)?;
    let views = split_views(alloc, &board, &mut view, sites)?;
    let wanted = options.wanted;
    let mut viewers = Viewers { views, wanted };
    let mut run = BoardRun::start(alloc, &board, seat, plan, options, Judging::Graph(wanted))?;
    run.go(rt, &board, gate, &mut viewers, keeper)?;
    let (end, statuses) = end_of_board(run, board, view, gate)?;
    gate.at(Point::Rows { sites });
    put_final(alloc, keeper, statuses.as_slice(), sites, options.wanted)?;
    Ok(end)
}

// So many viewers that have seen the same as this one.
fn split_views(
    alloc: Global,
    board: &Board,
    view: &mut ViewSeat,
    count: u32,
) -> Result<Vec<ViewSeat>, NoMemory>
    requires made { IsOf view.old board.now }
    ensures same { view.new ≡ view.old }
    ensures count { IfOk result (λ views. length views.items ≡ count) }
    ensures new { IfOk result (λ views. All (IsNewSeat board.now None (seen view.old.view)) views.items) }
{
    let mut views = Vec::new(alloc);
    for _ in 0..count {
        let other = view.split(alloc, board)?;
        views.push(other)?;
    }
    Ok(views)
}

// Ends the run of these tasks, which have all come to the end of their turns: its final state, and the statuses of that with all their phases.
fn end_of_board<G: Gate>(
    run: BoardRun<'_>,
    board: Board,
    view: ViewSeat,
    gate: &G,
) -> Result<(Final, List<Status>), NoMemory>
    requires on_board { IsOnBoard board run.plan.now run.board_tasks }
    requires detects { board.mode ≡ Detect }
    requires ends { HaveAllEnded board true run.board_tasks }
    requires made { IsOf view board }
    requires kept { IsSeat view }
    requires unknown { (u : ℕ) → (seen view.view).exact u ≡ false }
    ensures end { IfOk result (λ r. IsWholeEnd run.entry.plan.now r.0 r.1) }
{
    let (alloc, plan) = (run.alloc, run.plan);
    let places = run.leave(board, view)?;
    let ended = world_end_from(alloc, plan, places.as_slice(), gate)?;
    let statuses = ended.world.statuses(alloc)?;
    Ok((ended.end, statuses))
}

// Puts each site's part of the statuses, and then checks all rows.
fn put_final<K: Keeper>(
    alloc: Global,
    keeper: &mut K,
    statuses: &[Status],
    sites: u32,
    wanted: Wanted,
) -> Result<Analysis, KeepEnd>
    requires sites { 1 ≤ sites × sites ≤ max_sites }
    requires kept { length (K.rows keeper.old) ≡ sites }
    requires in_order { IsInOrder statuses.now }
    requires few { length statuses.now ≤ max_tasks }
    ensures rows { PutsParts sites statuses.now (K.rows keeper.old) (K.rows keeper.new) }
    ensures parts { OnOk result (HoldParts sites (K.rows keeper.new) statuses.now) }
    ensures count { K.faults keeper.new ≡ count_after result (K.faults keeper.old) }
{
    put_parts(alloc, keeper, statuses, sites)?;
    match check_sites(alloc, keeper, sites, wanted) {
        Ok(analysis) => Ok(analysis),
        Err(SiteEnd::Fault) => Err(KeepEnd::Fault),
        Err(SiteEnd::NoMemory) => Err(KeepEnd::NoMemory),
        Err(SiteEnd::Bad { .. }) => unreachable!(),
    }
}
