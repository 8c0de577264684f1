//! Schedules: an interleaving of steps and loads, written line by line, and its replay.
//!
//! It stands on `locked_world` and `adaptive`. Its rows are in `tests_runs`.
#![tactic(auto)]

mod laws;
mod lines;
mod pass;
mod records;
mod replaying;
mod split;
mod text;
mod verdict;

pub use laws::{
    each_replay, each_schedule, journals_replay, one_replay, one_schedule, passes_name_the_dead,
    records_are_read,
};
pub use lines::{Line, first_line, read_lines};
pub use records::recorded_text;
pub use replaying::replay;
pub use split::split_input;
pub use text::replay_text;
pub use verdict::{PassVerdict, ReplayEnd, Replayed, ScheduleFault};
