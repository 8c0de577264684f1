//! The texts that the program generates: the averaging kernel, for a number of workers.
//!
//! It stands on the language and its plan. Its rows are in `tests_text` (`generated`).
#![tactic(auto)]

mod laws;
mod text;

pub use laws::gen_is_accepted;
pub use text::{MAX_GENERATED_BYTES, gen_text};
