//! The state of a monitor: the list of tasks and wildcards, with their memberships and waits, and what each line of a trace makes of it, or its first fault.
//! It stands on monitor_laws for what lines mean, on trace_lines for lines as they are read, and on monitor_members for the index of phasers.
//! The tests of the monitor stand in the gallery.
#![tactic(auto)]

mod change;
mod condition;
mod faults;
mod goes;
mod listing;
mod member_index;
mod memberships;
mod numbers;
mod participant;
mod phaser_membership;
mod places;
mod players;
mod state;

pub use condition::ListedCondition;
pub use member_index::MemberIndex;
pub use memberships::Memberships;
pub use participant::ListedParticipant;
pub use phaser_membership::PhaserMembership;
pub use state::MonitorState;
