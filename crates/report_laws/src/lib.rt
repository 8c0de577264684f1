//! Laws of what the programs answer: one answer for one input, avoidance agrees with the run, an explanation with the report, a cycle is the proof of a
//! deadlock, an explanation tells of each task, and more. Each is the contract of a function with an empty body, over the definitions by which the top calls answer.
//!
//! It stands on both top calls, and nothing stands on it.
#![tactic(auto)]

mod agreement;
mod answers;
mod clock_notes;
mod clock_origins;
mod explanations;
mod origins;
mod reports;

pub use agreement::{
    avoid_tells_as_run, explains_as_avoid, explains_as_clock, explains_as_run, replay_tells_as_run,
    steps_end_as_explained, who_gains_and_pays,
};
pub use answers::{live_tells_as_run, one_answer, printing_keeps_meaning, texts_go_by_plan};
pub use clock_notes::clock_notes_are_so;
pub use clock_origins::{
    clocks_come_from_what_is_told, pending_is_remembered, waits_are_told_where_they_stand,
    waits_come_from_what_is_told,
};
pub use explanations::{each_task_is_told, refusals_are_so};
pub use origins::{ops_come_from_what_is_told, origins_are_those_of_stages, turns_are_counted};
pub use reports::{cycle_is_proof, held_tasks_have_end, stand_as_reported};
