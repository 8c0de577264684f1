// How a row ends: with the words of the closed board, with turns at its lock, or with seats that go to two threads.
ghost use Rattle.std.specs.Prelude.{◌≡◌, ◌<◌, All, false, length};
ghost use Rattle.board.specs.declared.mode.Mode.TheVariants.{Avoid};
ghost use Rattle.board.specs.calls.Locking.{IsBeforeAwait};
ghost use Rattle.board.specs.calls.Seats.{IsOf};

use crate::board_play::BoardPlay;
use crate::texts::{phase, seen};
use crate::walker::Walker;
use armus_base::{NoMemory, PhaserId, TaskId};
use avoider::{release, try_take};
use board::{Board, Loads, Mode, TaskSeat, Words};
use std::alloc::Global;
use std::thread::{Threads, join_mut};
use tests_rows::{columns, first_word, number};

// Whether a word of the closed board, which has so many tasks and phasers, is this.
fn word_is(words: &Words, counts: (u32, u32), part: &str) -> bool
    requires { (counts.0 ≡ length words.now.plan.parents) × (counts.1 ≡ length words.now.plan.makers) }
{
    let (verb, t, rest) = columns(part.trim(), " ");
    let t = TaskId(number(t));
    if t.0 >= counts.0 {
        return false;
    }
    if verb == "shows" {
        return words.await_of(t) == seen(rest);
    }
    let (p, n) = first_word(rest);
    let p = PhaserId(number(p));
    p.0 < counts.1 && verb == "finds" && words.phase_of(t, p) == phase(n)
}

// Whether the words are these.
fn words_are(words: &Words, counts: (u32, u32), parts: &str) -> bool
    requires { (counts.0 ≡ length words.now.plan.parents) × (counts.1 ≡ length words.now.plan.makers) }
{
    let mut all = true;
    for part in parts.split(",") {
        all = word_is(words, counts, part) && all;
    }
    all
}

// Whether the board's words are these once the viewer has taken in each task and the board is closed.
fn closes(mut play: BoardPlay<'_>, parts: &str) -> bool {
    for _ in 0..play.seats.len() {
        play.takes_last();
    }
    let counts = (play.board.tasks(), play.board.phasers());
    let words = play.board.close(play.viewer.view);
    words_are(&words, counts, parts)
}

// Whether the second finds the lock held by the first, which is task 0, until that frees it.
fn takes_turns(board: &Board, root: &mut TaskSeat, child: &mut TaskSeat) -> bool
    requires avoids { board.now.mode ≡ Avoid }
    requires made { IsOf root.old board.now × IsOf child.old board.now }
    requires root { IsBeforeAwait root.old × (root.old.view.holds ≡ false) }
    requires child { IsBeforeAwait child.old × (child.old.view.holds ≡ false) }
{
    let _ = child.id();
    if try_take(root, board).is_err() {
        return false;
    }
    match child.try_lock(board) {
        Ok(()) => return false,
        Err(busy) => {
            if busy.holder != TaskId(0) {
                return false;
            }
        }
    }
    release(root, board);
    try_take(child, board).is_ok()
}

// Whether both stand before an await, and take turns at the lock.
fn lock_in_turns(board: &Board, root: Walker<'_>, child: Walker<'_>) -> bool
    requires made { IsOf root board.now × IsOf child board.now }
{
    if board.mode() != Mode::Avoid {
        return false;
    }
    let Some(_aim) = root.awaits(board) else {
        return false;
    };
    let Some(_other) = child.awaits(board) else {
        return false;
    };
    takes_turns(board, &mut root.into_seat(), &mut child.into_seat())
}

// One load by each seat of the slice.
fn look_all(board: &Board, seats: &mut [TaskSeat], t: TaskId)
    requires of { All (λ s. IsOf s board.now) seats.old }
    requires task { t.0 < length board.now.plan.parents }
    ensures of { All (λ s. IsOf s board.now) seats.new }
{
    for seat in seats.iter_mut() {
        seat.load_await(board, t);
    }
}

// Each seat loads one word, half of the seats beside the other half.
fn look_in_halves<R: Threads + Sync>(rt: &R, board: &Board, seats: &mut [TaskSeat], t: TaskId)
    requires of { All (λ s. IsOf s board.now) seats.old }
    requires task { t.0 < length board.now.plan.parents }
    ensures of { All (λ s. IsOf s board.now) seats.new }
{
    let half = seats.len() / 2;
    let (front, back) = seats.split_at_mut(half);
    join_mut(
        rt,
        &mut || look_all(board, front, t),
        &mut || look_all(board, back, t),
    );
}

// Whether two seats come back from two threads.
fn come_back<R: Threads + Sync>(
    rt: &R,
    alloc: Global,
    board: &Board,
    root: Walker<'_>,
    child: Walker<'_>,
    t: TaskId,
) -> Result<bool, NoMemory>
    requires made { IsOf root board.now × IsOf child board.now }
{
    if t.0 >= board.tasks() {
        return Ok(false);
    }
    let mut seats = vec![in alloc; root.into_seat(), child.into_seat()]?;
    look_in_halves(rt, board, seats.as_mut_slice(), t);
    match seats.as_slice() {
        [first, second] => Ok(first.id() == TaskId(0) && second.id() == TaskId(1)),
        _ => Ok(false),
    }
}

// Whether the play of two tasks ends as a row says.
fn ends_by_two<R: Threads + Sync>(
    rt: &R,
    alloc: Global,
    mut play: BoardPlay<'_>,
    verb: &str,
    rest: &str,
) -> Result<bool, NoMemory> {
    let Some(child) = play.seats.pop() else {
        return Ok(false);
    };
    let Some(root) = play.seats.pop() else {
        return Ok(false);
    };
    match verb {
        "turns" => Ok(lock_in_turns(&play.board, root, child)),
        _ => come_back(rt, alloc, &play.board, root, child, TaskId(number(rest))),
    }
}

/// Whether the play ends as a row says.
pub(crate) fn ends<R: Threads + Sync>(
    rt: &R,
    alloc: Global,
    play: BoardPlay<'_>,
    end: &str,
) -> Result<bool, NoMemory> {
    let (verb, rest) = first_word(end);
    match verb {
        "words" => Ok(closes(play, rest)),
        "turns" | "halves" => ends_by_two(rt, alloc, play, verb, rest),
        _ => Ok(end.is_empty()),
    }
}
