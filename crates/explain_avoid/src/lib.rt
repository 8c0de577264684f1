//! The serial avoided run of a text's plan, with a paragraph for each await that is refused: who, where, and the deadlock that the await would have closed.
//!
//! It stands on `explain_deadlock`, `explain_steps` and `world_runs`. Its rows are kernels of the gallery.
#![tactic(auto)]

mod avoiding;
mod explaining;
mod known_text;
mod laws;
mod refusal;

pub use avoiding::{AvoidedRun, avoid_through};
pub use explaining::{AvoidedExplanation, avoided_explanation_of};
pub use laws::{each_is_told_once, one_avoided_explanation};
