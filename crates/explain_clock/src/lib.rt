//! What is said of a clock text: which of its activities wait for ever, where, for whom and why, or why it is refused.
//!
//! It stands on `clock_source_map` and `explain_tasks`. Its rows are kernels of the gallery.
#![tactic(auto)]

mod activity_lists;
mod circle;
mod counts;
mod explaining;
mod facts;
mod few_lines;
mod hinting;
mod hints;
mod keepers;
mod kept_lines;
mod laws;
mod notes;
mod paragraphs;
mod pending;
mod refusing;
mod stand;
mod text_facts;
mod together;
mod waits;
mod words;

pub use explaining::{ClockExplanation, clock_explanation_of};
pub use laws::{one_clock_explanation, those_behind_are_named};
pub use notes::ClockNote;
pub use refusing::{clock_fault_refusal, clock_syntax_refusal};
pub use text_facts::{ClockLayout, ClockTextFacts};
