//! Tests of the board, of the collects and passes by its seats, and of decisions: tasks walk along small plans.
#![tactic(auto)]

#[cfg(test)]
mod acts;
#[cfg(test)]
mod board_play;
#[cfg(test)]
mod counting;
#[cfg(test)]
mod endings;
pub mod finals;
#[cfg(test)]
mod plans;
#[cfg(test)]
mod rounds;
#[cfg(test)]
mod rows;
#[cfg(test)]
mod telling;
#[cfg(test)]
mod texts;
pub mod walker;
pub mod walks;
#[cfg(test)]
mod world_play;
