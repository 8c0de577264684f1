//! What both programs need of the outside: the words of the command line, what passes between a call and its source and sink, the last write, the exit
//! status, the plan of a text, and bytes that a terminal shows.
//!
//! It stands on the language, its plan and the lines of refusals. Its rows are kernels of the gallery.
#![tactic(auto)]

mod exit_status;
mod finishing;
mod laws;
mod legible_bytes;
mod text_limit;
mod words;

pub use exit_status::{ExitStatus, status_of};
pub use finishing::finish;
pub use laws::legible_is_written;
pub use legible_bytes::{legible, told_name, written_name};
pub use text_limit::MAX_TEXT_BYTES;
pub use words::command_words;
