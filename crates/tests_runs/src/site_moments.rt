// Rows of two sites that are of different moments, and a pass over three sites. A step that is not made ends as want of memory does: its test fails.
ghost use Rattle.std.specs.Prelude.{◌≡◌, All, IfOk, OnOk, length};
ghost use Rattle.board.specs.declared.mode.Mode.TheVariants.{Detect};
ghost use Rattle.board.specs.calls.Seats.{IsOf};

use crate::plans::named_plan;
use crate::site_desk::Desk;
use adaptive::Wanted;
use armus_base::{List, NoMemory, Plan, TaskId};
use board::{Board, ViewSeat};
use sites::{Keeper, MemKeeper, SafeKeeper, encode, site_pass, snap};
use std::alloc::Global;
use std::test::Fail;
use tests_board::walker::{Walker, begin};
use tests_board::walks::{forks, steps};
use tests_rows::{cut, numbers};

// Which calls of the keeper fail, and what its calls tell: site 0 puts when its task waits and the other one does not yet, and then both rows are checked;
// site 1 puts once the other one waits too, and then the row of site 0 is got and both are checked.
const ROWS: &str = "\
| ok; nobody; ok; 0 0 0 1 0 0 0 0 0 0 0 0 0 0 0 1 0 0 0 2 0 0 0 0 0 0 0 1 0 0 0 1 0 0 0 0; sg 2 t0 t1;\n\
4 | ok; nobody; fault; 0 0 0 1 0 0 0 0 0 0 0 0 0 0 0 1 0 0 0 2 0 0 0 0 0 0 0 1 0 0 0 1 0 0 0 0; nobody;\n\
";

// Makes so many steps of a walker.
fn go<'p>(
    walker: &mut Walker<'p>,
    alloc: Global,
    board: &Board,
    plan: &'p Plan,
    count: u32,
) -> Result<(), NoMemory>
    requires made { IsOf walker.old board.now }
    requires plan { (board.now.plan ≡ plan.now) × (board.now.mode ≡ Detect) }
    ensures made { IsOf walker.new board.now }
{
    if steps(walker, alloc, board, plan, count) {
        Ok(())
    } else {
        Err(NoMemory)
    }
}

// Task 0 forks the other one and then waits; it answers the other one.
fn first_waits<'p>(
    mut root: Walker<'p>,
    alloc: Global,
    board: &Board,
    plan: &'p Plan,
) -> Result<Walker<'p>, NoMemory>
    requires made { IsOf root board.now }
    requires plan { (board.now.plan ≡ plan.now) × (board.now.mode ≡ Detect) }
    ensures child { IfOk result (λ child. IsOf child board.now) }
{
    go(&mut root, alloc, board, plan, 4)?;
    let child = forks(&mut root, alloc, board, plan).ok_or(NoMemory)?;
    go(&mut root, alloc, board, plan, 2)?;
    Ok(child)
}

// A snap of one of the two sites, put as its row.
fn snap_and_put(
    alloc: Global,
    view: &mut ViewSeat,
    board: &Board,
    site: u32,
    desk: &mut Desk<MemKeeper>,
) -> Result<(), NoMemory>
    requires made { IsOf view.old board.now }
    ensures made { IsOf view.new board.now }
{
    if site >= 2 {
        return Err(NoMemory);
    }
    let snapshot = snap(alloc, view, board, site, 2)?;
    let row = encode(alloc, &snapshot)?;
    desk.put(site, row.as_slice())
}

// The two moments, at which site 0 and site 1 put their rows.
fn two_moments<'p>(
    alloc: Global,
    board: &Board,
    plan: &'p Plan,
    child: &mut Walker<'p>,
    view: &mut ViewSeat,
    desk: &mut Desk<MemKeeper>,
) -> Result<(), NoMemory>
    requires plan { (board.now.plan ≡ plan.now) × (board.now.mode ≡ Detect) }
    requires child { IsOf child.old board.now }
    requires view { IsOf view.old board.now }
{
    let mut other = view.split(alloc, board)?;
    snap_and_put(alloc, view, board, 0, desk)?;
    desk.call(alloc, "check")?;
    go(child, alloc, board, plan, 2)?;
    snap_and_put(alloc, &mut other, board, 1, desk)?;
    desk.call(alloc, "get 0")?;
    desk.call(alloc, "check")
}

// The same from the beginning.
fn play(alloc: Global, plan: &Plan, desk: &mut Desk<MemKeeper>) -> Result<(), NoMemory> {
    let (board, root, mut view) = begin(alloc, plan)?;
    let mut child = first_waits(root, alloc, &board, plan)?;
    two_moments(alloc, &board, plan, &mut child, &mut view, desk)
}

// Whether the calls of a keeper of which these calls fail tell this.
fn tells(alloc: Global, plan: &Plan, fails: &str, wanted: &str) -> Result<bool, NoMemory> {
    let keeper = MemKeeper::new(alloc, 2, List::from_vec(numbers(alloc, fails)?))?;
    let mut desk = Desk::new(alloc, keeper, 2);
    play(alloc, plan, &mut desk)?;
    Ok(desk.told().trim() == wanted.trim())
}

#[test]
fn rows_of_two_moments(rt: HostRuntime) -> Result<(), Fail> {
    let plan = named_plan(rt.alloc(), "two")?;
    for row in ROWS.lines() {
        let (fails, wanted) = cut(row, "|");
        assert!(rt; tells(rt.alloc(), &plan, fails, wanted)?, "{row}");
    }
    Ok(())
}

// This viewer and two more that have seen the same.
fn three_views(alloc: Global, board: &Board, mut view: ViewSeat) -> Result<Vec<ViewSeat>, NoMemory>
    requires made { IsOf view board.now }
    ensures count { IfOk result (λ views. length views.items ≡ 3) }
    ensures made { IfOk result (λ views. All (λ k. IsOf k board.now) views.items) }
{
    let second = view.split(alloc, board)?;
    let third = view.split(alloc, board)?;
    let views = vec![in alloc; view, second, third]?;
    Ok(views)
}

// Whether a pass over three sites names both tasks.
fn pass_names_both(
    alloc: Global,
    board: &Board,
    view: ViewSeat,
    keeper: &mut SafeKeeper,
) -> Result<bool, NoMemory>
    requires made { IsOf view board.now }
    requires kept { length keeper.old ≡ 3 }
    ensures kept { OnOk result (length keeper.new ≡ 3) }
{
    let mut views = three_views(alloc, board, view)?;
    match site_pass(alloc, views.as_mut_slice(), board, keeper, Wanted::Auto) {
        Ok(analysis) => Ok(analysis.dead.as_slice() == [TaskId(0), TaskId(1)].as_slice()),
        Err(_) => Err(NoMemory),
    }
}

// Whether the row of the last of three sites is the one of no status.
fn last_is_empty(alloc: Global, keeper: &mut SafeKeeper) -> bool
    requires kept { length keeper.old ≡ 3 }
{
    match keeper.get(alloc, 2) {
        Ok(Some(row)) => row.as_slice() == [0, 0, 0, 0].as_slice(),
        _ => false,
    }
}

// Whether a pass over three sites, of which the last has no task, names both tasks, and puts the row of no status for that site.
fn three_sites_are_met(alloc: Global, board: &Board, view: ViewSeat) -> Result<bool, NoMemory>
    requires made { IsOf view board.now }
{
    let mut keeper = SafeKeeper::new(alloc, 3)?;
    let named = pass_names_both(alloc, board, view, &mut keeper)?;
    Ok(named && last_is_empty(alloc, &mut keeper))
}

// The same once both tasks wait.
fn both_are_named(alloc: Global, plan: &Plan) -> Result<bool, NoMemory> {
    let (board, root, view) = begin(alloc, plan)?;
    let mut child = first_waits(root, alloc, &board, plan)?;
    go(&mut child, alloc, &board, plan, 2)?;
    three_sites_are_met(alloc, &board, view)
}

#[test]
fn a_pass_over_three_sites_names_both(rt: HostRuntime) -> Result<(), Fail> {
    let plan = named_plan(rt.alloc(), "two")?;
    assert!(rt; both_are_named(rt.alloc(), &plan)?);
    Ok(())
}
