//! The lines of a text with a check fault: where it is, what is wrong there, the line with a caret, and the notes on it; made from the scene of the fault, that
//! is the task and the loops in which it is, and the visits that it has to do with.
//!
//! It stands on the plan's unfolding and on `explain_syntax`. Its rows are in `tests_text` (`checks`).
#![tactic(auto)]

mod around;
mod check;
mod finding;
mod frames;
mod laws;
mod matter;
mod names;
mod note;
mod notes;
mod scene;
mod seek;
mod sight;
mod statements;
mod telling;
mod whereabouts;

pub use check::check_refusal;
pub use finding::scene_of;
pub use laws::{
    fault_has_one_scene, fault_has_scene, text_has_check_refusal, text_has_one_check_refusal,
};
pub use scene::{LoopTurn, Matter, NamedPhaser, NamedTask, Scene, Verb};
pub use statements::StatementPlaces;
