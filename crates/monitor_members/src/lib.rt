//! Numbers of tasks and wildcards by phaser and phase, so that those who stand at a phase of a phaser are found without a walk over all members.
//! It stands on nothing; monitor_state keeps in it who does not run, and who waits.
//! The tests of the monitor stand in the gallery.
#![tactic(auto)]

mod index;
mod pairs;

pub use index::PhaserIndex;
