//! Who is stuck in a state of the monitor.
//! It stands on monitor_state for the list of tasks and wildcards, and on monitor_words for what it means that a test tells the stuck tasks.
//! The tests of the monitor stand in the gallery.
#![tactic(auto)]

mod ahead;
mod cascade;
mod grouping;
mod joining;
mod known_tasks;
mod laws;
mod leaving;
mod noting;
mod numbered;
mod parting;
mod phases;
mod stuck;
mod waits;

pub use ahead::keeps_stuck_ahead;
pub use known_tasks::{StuckTask, StuckTasks};
pub use laws::one_known;
pub use stuck::stuck_after;
