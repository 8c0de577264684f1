//! The monitor line by line: what it knows behind the lines that came, and the message of each.
//! It stands on monitor_state, monitor_search, monitor_reasons and monitor_rows for what a line makes of the state, and on monitor_words for what is written of it.
//! The tests of the monitor stand in the gallery.
#![tactic(auto)]

mod changes;
mod guard;
mod known_state;
mod laws;
mod monitor;
mod newly;
mod telling;

pub use laws::{one_run, runs_have_traces};
pub use monitor::Monitor;
