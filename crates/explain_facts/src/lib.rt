//! What is known of the tasks of a text where its run has ended: where they were drawn, forked and ended, where they wait, and what they do next to phasers.
//!
//! It stands on `source_map` and `pl_core`. Its rows are in `tests_text` (`accounts_of`).
#![tactic(auto)]

mod account;
mod accounts;
mod facts;
mod immediate;
mod laws;
mod names;
mod nexts;
mod phase_rows;
mod uses;
mod waiting;
mod words;

pub use account::{
    Account, CodeEnd, Doing, Drawn, Forked, ImmediateAwait, NextOp, TaskAccount, Turn, Waiting,
};
pub use accounts::account_of;
pub use facts::TextFacts;
pub use laws::{
    account_exists, forkers_fork, one_account, statements_have_places, tasks_are_of_text,
};
pub use names::{GivenName, GivenNames};
pub use uses::{PhaserUse, used_phasers};
pub use words::put_await;
