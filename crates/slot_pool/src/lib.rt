//! Records that free workers claim from slots, give back, and place.
//!
//! It stands on `armus_base` and `atomic_table`. Its rows are in `tests_runs`.
#![tactic(auto)]

mod claim;
mod gathering;
mod named;
mod opening;
mod parting;
mod plays;
mod pool;
mod room;
mod rule;
mod setting;
mod view;
mod worker;

pub use claim::Claim;
pub use named::Named;
pub use pool::Pool;
pub use room::NoRoom;
pub use worker::Worker;
