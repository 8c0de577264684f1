//! Runs of a plan: the tasks take turns by rounds until none of them can go on.
//!
//! It stands on all that runs tasks. Its rows are in `tests_runs`.
#![tactic(auto)]

mod avoided;
mod beside;
mod board_run;
mod detect;
mod leaving;
mod live_reporter;
mod pass_times;
mod pool;
mod pool_end;
mod pool_worker;
mod pooled_task;
mod ran;
mod rest;
mod site_runs;
mod viewers;
mod worker_room;

pub use avoided::{run_avoid, run_avoid_kept};
pub use board_runs::{Task, round};
pub use detect::run_detect;
pub use pool::run_pool;
pub use ran::{Ran, RunEnd};
pub use site_runs::run_sites;
pub use world_runs::{RunOptions, run_journal};
