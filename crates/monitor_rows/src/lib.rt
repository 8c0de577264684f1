//! What the monitor says of a state, as values: names, groups of keepers, rows of waiting tasks, the counts of a report, and how a waiting task stands.
//! It stands on monitor_state for the list of tasks and wildcards, on monitor_search for the stuck tasks that are known, and on monitor_words for what is written.
//! The tests of the monitor stand in the gallery.
#![tactic(auto)]

mod conditions;
mod counts;
mod keepers;
mod known_names;
mod least_phases;
mod listing;
mod names;
mod places;
mod reports;
mod rows;
mod standing;
mod waits;

pub use known_names::names_of_known;
pub use listing::put_wait_list;
pub use reports::put_state_report;
pub use rows::wait_rows_of;
pub use standing::is_anybody_kept_waiting;
