//! The words of the command line: their form, the values of their options by `clap`, and the command that they mean.
//!
//! It stands on `clap`. Its rows are in `tests_text` (`words`).
#![tactic(auto)]

mod command;
mod forms;
mod laws;
mod numbers;
mod reading;
mod table;
mod values;

pub use command::{Command, Graph, RunKind};
pub use laws::{words_have_a_meaning, words_mean_one_command};
pub use reading::command_in;
pub use table::{DEFAULT_WORKERS, MAX_GENERATED, POOL, RECORD};
