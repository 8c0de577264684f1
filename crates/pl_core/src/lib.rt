//! The plain machine: a plan, how far each task has come in it, and the state that these places fix.
//!
//! It stands on `armus_base`. Its rows are in `tests_board` (`world_play`) and `tests_runs`.
#![tactic(auto)]

mod behind;
mod cell;
mod cursors;
mod effect;
mod enrolling;
mod highest;
mod least;
mod members;
mod phase_table;
mod place;
mod stand;
mod stop;
mod task;
mod walk;
mod world;

pub use place::Place;
pub use stand::Stand;
pub use world::World;
