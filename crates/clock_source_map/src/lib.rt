//! From which statements of a clock text its activities, its clocks, its finishes and its ops come, where each activity waits, and where statements begin.
//!
//! It stands on `clock_semantics`. Its rows are kernels of the gallery (`armus_explain clock`, `armus_explain steps`).
#![tactic(auto)]

mod laws;
mod notes;
mod offsets;
mod op_notes;
mod op_walk;
mod ops;
mod origins;
mod walk;

pub use laws::{ops_have_statements, statements_have_offsets};
pub use notes::{ClockBegun, ClockThing};
pub use offsets::clock_offsets;
pub use ops::clock_op_origins;
pub use origins::ClockOrigins;
