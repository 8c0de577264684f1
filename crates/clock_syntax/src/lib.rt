//! The language of clocks as text: activities that signal and wait on clocks, and finishes that wait for activities.
//!
//! | statement | what the activity does |
//! |---|---|
//! | `clock x;` | makes a clock, is registered on it, and calls it x |
//! | `async(x, y) { .. }` | starts an activity with this body, which is registered on clocks x and y too |
//! | `finish { .. }` | runs this body, and waits until each activity that was started in it has ended |
//! | `resume(x);` | signals on clock x, and does not wait |
//! | `advance(x);` | signals on clock x, unless it has done so since it waited last, and waits until the clock has gone on since that signal |
//! | `drop(x);` | leaves clock x |
//! | `loop k { .. }` | runs this body k times |
//! | `skip;` | does nothing |
//!
//! It stands on `pl_syntax`. Its rows are in `tests_text` (`clock_texts`).
#![tactic(auto)]

mod laws;
mod limits;
mod name;
mod reader;
mod tree;

pub use laws::{
    clock_text_has_one_fault, clock_text_has_one_tree, clock_text_has_tree_or_fault,
    clock_texts_are_read, tree_fixes_clock_body,
};
pub use limits::MAX_CLOCK_BYTES;
pub use name::ClockName;
pub use reader::clock_parse;
pub use tree::{ClockBody, ClockProgram, ClockStmt};
