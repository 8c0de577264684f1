//! What the monitor says: the messages of a line, the answers of the guard, reports and lists, each function proved to append exactly the bytes that the
//! definitions of a message say. It stands on monitor_laws for what a state is and who is stuck in it; what the code writes it gets as values, so it depends on
//! no representation of a state.
//! The tests of the monitor stand in the gallery.
#![tactic(auto)]

mod faults;
mod keepers;
mod laws;
mod messages;
mod names;
mod placed;
mod reports;
mod rows;
mod sentences;
mod words;

pub use faults::{FaultOfLine, put_fault};
pub use keepers::{KeeperCondition, KeeperGroup, put_condition};
pub use laws::{
    numbers_ascend, one_circle, one_message, one_reason, values_are_written, worked_messages,
};
pub use messages::{put_answer, put_refusal, put_resolved, put_told};
pub use names::ShownNames;
pub use placed::PlacedTask;
pub use reports::{StateCounts, WaitStanding, put_listed, put_listed_count, put_report};
pub use rows::{ShownRows, WaitRow};
pub use sentences::{StuckReason, StuckSentence};
