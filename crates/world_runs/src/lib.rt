//! Runs of a plan in a world, without a board: rounds of turns, plain and avoided, their ends, and the run that is recorded.
//!
//! It stands on `avoider` and `locked_world`. Its rows are in `tests_runs`, and in `tests_text` (`endings`).
#![tactic(auto)]

mod ending;
mod journal;
mod journal_turns;
mod laws;
mod live_task;
mod next_step;
mod options;
mod round_workers;
mod world_round;

pub use ending::{
    WorldEnd, avoided_end_from, run_plain, run_serial_avoid, run_to_world, world_end_from,
};
pub use journal::run_journal;
pub use laws::serial_run_ends;
pub use options::RunOptions;
pub use round_workers::RoundWorkers;
pub use world_round::next_turn;
