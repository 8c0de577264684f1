//! The top call: from words, a source and a sink to a status.
//!
//! It stands on all crates of `armus` but its main. Its rows are in `tests_programs`, and kernels of the gallery.
#![tactic(auto)]

mod checking;
mod generating;
mod laws;
mod output;
mod programs;
mod replaying;
mod requests;
mod running;
mod serving;
mod top;
mod writing;

pub use laws::{each_call_is_met, each_input_is_met, records_replay};
pub use replaying::MAX_REPLAY_BYTES;
pub use top::{armus, armus_journal, armus_plain};
