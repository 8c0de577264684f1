//! Why a stuck task of the monitor is stuck.
//! It stands on monitor_state for the list of tasks and wildcards, on monitor_search for the stuck tasks that are known, and on monitor_words for what a reason is
//! and for the sentence that tells it.
//! The tests of the monitor stand in the gallery.
#![tactic(auto)]

mod circles;
mod distances;
mod found_reason;
mod phaser_places;
mod reaching;
mod reasons;
mod sentences;
mod stopping;
mod telling;

pub use found_reason::FoundReason;
pub use reasons::reason_of;
pub use sentences::sentence_of;
pub use telling::tells_old;
