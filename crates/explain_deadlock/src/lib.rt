//! An explanation of a run in the words of its text: which of its tasks wait for ever, where, for whom and why.
//!
//! It stands on `explain_tasks`, `adaptive` and `verdict`. Its rows are kernels of the gallery.
#![tactic(auto)]

mod circle;
mod explaining;
mod hint;
mod impeder_lines;
mod laws;
mod notes;
mod numbers;
mod outcome;
mod paragraphs;
mod verdict_line;
mod walk;

pub use explaining::{Explanation, explanation_of};
pub use laws::{
    deadlock_is_shown, deadlock_stands_first, each_has_a_paragraph, each_impeder_is_told,
    explanation_exists, held_are_not_impeded_by_dead, nobody_is_held_up_there, nobody_waits_there,
    nothing_is_said_twice, one_explanation, only_makers_are_members, says_what_is_so,
    somebody_waits, walks_end,
};
pub use outcome::WaitVerdict;
pub use paragraphs::put_paragraphs;
