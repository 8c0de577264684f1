//! Two machines of clock programs, with no phaser and no op, and the theorems that a clock program's plan ends as they do: one on moves, of activities that open
//! clocks, signal and wait on them, and finishes that wait for activities; one on the text itself, which knows no move, no plan and no number of an unfolding.
//!
//! The crate has definitions and laws, and no code that runs. It stands on `clock_semantics`.
#![tactic(auto)]

mod laws;

pub use laws::{
    clock_ends, clock_runs, clock_text_ends, clock_text_runs, no_clock_task_is_held,
    numbers_are_named, worked_clock_runs, worked_clock_texts,
};
