//! The lines of a trace: from the bytes of a line to what it says, exactly by a grammar, without taking memory.
//! It stands on monitor_laws for what a line is.
//! The tests of the monitor stand in the gallery.
#![tactic(auto)]

mod line;
mod names;
mod parts;
mod reading;
mod words;

pub use line::{Announcement, TraceLine};
pub use reading::{one_line, read_line};
pub use words::split_word;
