//! What rows of tests say: columns, words, numbers, bytes, events and statuses; and numbers, tasks and events as such text.
#![tactic(auto)]

mod digits;
mod parts;
mod reading;
mod signs;
mod telling;

pub use digits::{number, numbers};
pub use parts::{columns, cut, first_word, words_of};
pub use reading::{event, statuses, task_and_event};
pub use signs::{are_bytes_of, bytes_of};
pub use telling::{add_event, add_numbers, add_tasks};
