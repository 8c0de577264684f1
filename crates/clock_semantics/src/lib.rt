//! The unfolding of a clock program: the moves of each activity, and the plan that stands for them, or the first fault.
//!
//! It has definitions and laws, and no code that runs; it stands on `clock_syntax` and `pl_plan`. Its worked programs are laws here.
#![tactic(auto)]

mod laws;

pub use laws::{
    clock_coming_by_table, clock_fault_is_of_text, clock_plan_is_checked,
    clock_unfolding_by_points, each_activity_stops, worked_clock_programs,
};
