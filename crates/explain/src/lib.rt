//! The program that explains a text: which of its tasks wait for ever, where, for whom and why, or why it is refused. Its one top call.
//!
//! It stands on the crates `explain_*`, `world_runs` and `program_io`, and on no board. Its rows are in `tests_programs`, and kernels of the gallery.
#![tactic(auto)]

mod answer;
mod answering;
mod checked_clocks;
mod checked_text;
mod clocks;
mod extent;
mod language;
mod laws;
mod legible;
mod refusing;
mod request;
mod shortened;
mod top;

pub use answer::WantedOutput;
pub use laws::{
    one_avoided_output, one_clock_output, one_either_output, one_output, one_steps_output,
    shown_short,
};
pub use request::{Request, request_of};
pub use top::explain;
