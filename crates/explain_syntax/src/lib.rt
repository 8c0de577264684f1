//! The lines of a text with a syntax fault: where it is, what is wrong there, the line with a caret, and what may help.
//!
//! It stands on `pl_syntax` and `source_map`. Its rows are in `tests_text` (`refused_syntax`), and texts of the gallery.
#![tactic(auto)]

mod caret;
mod hint;
mod laws;
mod length;
mod notes;
mod sentence;
mod shape;
mod stand;
mod syntax;
mod walk;
mod wanted;
mod word;

pub use caret::put_line_and_caret;
pub use laws::{fault_has_one_stand, text_has_one_syntax_refusal};
pub use length::length_refusal;
pub use stand::{Behind, GrammarStand};
pub use syntax::syntax_refusal;
pub use wanted::WantedTokens;
pub use word::{put_quoted, spelled};
