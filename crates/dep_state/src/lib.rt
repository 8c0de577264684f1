//! The relations of a list of statuses: which event each task awaits, and which tasks impede each event.
//!
//! It stands on `armus_base`. Its rows are in `tests_graphs`.
#![tactic(auto)]

mod dep_state;
mod events;
mod impeders;
mod names;
mod order;
mod picks;
mod search;

pub use dep_state::DepState;
pub use order::is_in_order;
pub use picks::picked;
pub use search::task_place;
