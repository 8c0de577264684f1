// The rounds of a recorded run in one thread.
ghost use Rattle.std.specs.Prelude.{◌<◌, length};

use crate::world_round::next_kind;
use armus_base::{Gate, NoMemory, TaskId};
use locked_world::{Logged, PlanName};
use run_queue::RunQueue;
use std::alloc::Global;

/// Rounds of turns in one thread, until one in which nobody makes a step. A queue tells who may act, so no round looks at a task that only stands there. The
/// gate is called before each op.
pub(crate) fn go_in_order<N: PlanName, G: Gate>(
    alloc: Global,
    logged: &mut Logged<'_, N>,
    gate: &G,
) -> Result<(), NoMemory> {
    let mut queue = RunQueue::start(alloc, logged.world())?;
    // no run has more actions
    let most = u64::from(logged.world().plan().ops()) * 2;
    for _ in 0..=most {
        if !take_turns(logged, &mut queue, most, gate)? {
            break;
        }
    }
    Ok(())
}

// One turn, of so many actions at most, of each task that has one, in order of number; answers whether a step was made.
fn take_turns<N: PlanName, G: Gate>(
    logged: &mut Logged<'_, N>,
    queue: &mut RunQueue,
    most: u64,
    gate: &G,
) -> Result<bool, NoMemory> {
    let tasks = logged.world().plan().tasks();
    let mut moved = false;
    let mut from = 0;
    for _ in 0..tasks {
        let Some(t) = queue.next(from) else {
            break;
        };
        if t.0 >= tasks {
            break;
        }
        let acted = turn(logged, queue, t, most, gate)?;
        moved = moved || acted;
        from = t.0 + 1;
    }
    queue.round_ended();
    Ok(moved)
}

// The turn of a task, of so many actions at most: it goes on until it may not; answers whether a step was made.
fn turn<N: PlanName, G: Gate>(
    logged: &mut Logged<'_, N>,
    queue: &mut RunQueue,
    t: TaskId,
    most: u64,
    gate: &G,
) -> Result<bool, NoMemory>
    requires task { t.0 < length N.plan.parents }
{
    let mut moved = false;
    for _ in 0..=most {
        if !act(logged, queue, t, gate)? {
            break;
        }
        moved = true;
    }
    queue.turn_ended(logged.world(), t)?;
    Ok(moved)
}

// The next step of a task, if it may go on; answers whether it did.
fn act<N: PlanName, G: Gate>(
    logged: &mut Logged<'_, N>,
    queue: &mut RunQueue,
    t: TaskId,
    gate: &G,
) -> Result<bool, NoMemory>
    requires task { t.0 < length N.plan.parents }
{
    let Some(kind) = next_kind(logged.world(), t, gate, false) else {
        return Ok(false);
    };
    let made = logged.step(t)?;
    queue.step_made(logged.world(), t, kind)?;
    Ok(made)
}
