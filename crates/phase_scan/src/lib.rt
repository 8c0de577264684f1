//! The ascending scan by which a task passes exactly when its event is reached, and the collect of what all tasks await.
//!
//! It stands on `board`. Its rows are in `tests_board`.
#![tactic(auto)]

mod answer;
mod cells;
mod findings;
mod off_cycle;
mod phase_table;
mod scan;
mod supposed_findings;
mod supposing;

pub use answer::Look;
pub use cells::Cells;
pub use scan::look;
