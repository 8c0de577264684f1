//! A recorded run: a world beside the journal of its steps, which threads share under a lock.
//!
//! It stands on `pl_core`. Its rows are in `tests_runs`.
#![tactic(auto)]

mod laws;
mod locked;
mod logged;
mod name;

pub use laws::{journal_fixes_run, journal_leads};
pub use locked::LockedWorld;
pub use logged::Logged;
pub use name::PlanName;
