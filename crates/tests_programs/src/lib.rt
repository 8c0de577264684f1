//! Tests of `armus` of what no command line can show: sources and sinks that fail at a place, and tasks that a gate holds.
#![tactic(auto)]

#[cfg(test)]
mod called;
#[cfg(test)]
mod held;
#[cfg(test)]
mod holding;
#[cfg(test)]
mod outside;
#[cfg(test)]
mod texts;
