//! A run of a text's plan, step by step: a line for each step of the serial plain run, with its task, its place, its statement, and what it changes; and the
//! same of a clock text, in words of activities, clocks and finishes.
//!
//! It stands on the words of explanations and on the runs that `schedule` records. Its rows are kernels of the gallery.
#![tactic(auto)]

mod changes;
mod clock_changes;
mod clock_facts;
mod clock_statements;
mod clock_stepping;
mod clock_words;
mod laws;
mod stepping;
mod telling;
mod words;

pub use clock_stepping::clock_steps_through;
pub use laws::{one_clock_showing, one_serial_run, one_showing, serial_run_replays};
pub use stepping::{SteppedRun, step_through};
pub use words::{put_phaser, put_statement, put_task};
