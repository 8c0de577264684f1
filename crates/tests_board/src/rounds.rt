// A round of turns on each kind of board.
use adaptive::Wanted;
use armus_base::{NoMemory, Plan, Still};
use board::{Board, Mode};
use board_runs::{Task, round};
use std::alloc::Global;
use std::thread::Threads;
use tests_rows::{first_word, number};

// How many children are forked.
fn forked(alloc: Global, tasks: &mut Vec<Task<'_>>) -> usize {
    let mut forked = 0;
    for task in tasks.iter_mut() {
        forked = task.take_children(alloc).as_slice().len();
    }
    forked
}

/// Whether the first round of a plan has so many events, and so many children are forked in it.
pub(crate) fn has_first_round<R: Threads + Sync>(
    rt: &R,
    alloc: Global,
    plan: &Plan,
    mode: Mode,
    counts: &str,
) -> Result<bool, NoMemory> {
    let (events, children) = first_word(counts);
    let (board, seat, _) = Board::start(alloc, plan, mode)?;
    let mut tasks = vec![in alloc; Task::new(alloc, seat, plan)]?;
    let turned = tasks.as_mut_slice();
    let made = round(rt, alloc, turned, &board, plan, Wanted::Auto, 2, &Still)?;
    let is_forked = forked(alloc, &mut tasks) == number(children);
    Ok(made == number(events) && is_forked)
}
