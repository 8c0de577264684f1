//! What is said of the tasks of a text where its run has ended: how each stands, who impedes it, who is its next, and in which words.
//!
//! It stands on `explain_facts` and `report`. Its rows are kernels of the gallery.
#![tactic(auto)]

mod facts;
mod following;
mod grouping;
mod impeders;
mod laws;
mod naming;
mod nexts;
mod parts;
mod passing;
mod saying;
mod sayings;
mod situation;
mod task_lists;
mod words;

pub use facts::{Facts, task_standing};
pub use following::{first_or, is_deadlocked, is_waiting, never_forked};
pub use grouping::Grouping;
pub use impeders::Impeder;
pub use naming::{put_phaser_words, put_task_words};
pub use parts::put_tasks_words;
pub use passing::{least_below, passing_below, push_if};
pub use saying::{ForkingWords, Saying};
pub use situation::Situation;
pub use task_lists::{Run, list_items, separator};
pub use words::{put_by_number, put_kept};
