//! An order of tasks that is kept while edges come and go: each edge goes from a smaller position to a larger one, and only what stands between the
//! ends of a new edge is moved.
//!
//! It stands on `dep_state`. Its rows are in `tests_graphs`.
#![tactic(auto)]

mod answers;
mod distances;
mod following;
pub mod laws;
mod mending;
mod order;
mod row;
mod settling;
mod waits;
mod walk;
mod words;

pub use answers::{Added, Followed};
pub use order::Order;
pub use row::TaskSet;
pub use waits::Waits;
