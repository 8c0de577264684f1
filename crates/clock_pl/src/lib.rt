//! Clock programs: their trees, and the plan of one, in which each activity is a task, and each clock and each finish a phaser.
//!
//! It stands on `clock_semantics`. Its rows are in `tests_text` (`clock_plans`).
#![tactic(auto)]

mod activities;
mod checker;
mod fault;
mod known;
mod planning;
mod statements;
mod walk;

pub use clock_syntax::{
    ClockBody, ClockName, ClockProgram, ClockStmt, MAX_CLOCK_BYTES, clock_parse,
};
pub use fault::{
    ClockEnd, ClockFault, LISTED_TWICE, NOT_REGISTERED, STILL_PENDING, TOO_MANY_ACTIVITIES,
    TOO_MANY_CLOCK_CELLS, TOO_MANY_CLOCK_OPS, TOO_MANY_CLOCK_VISITS, TOO_MANY_CLOCKS,
    UNKNOWN_CLOCK, clock_line,
};
pub use planning::clock_plan;
