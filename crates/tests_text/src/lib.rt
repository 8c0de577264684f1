//! Tests of the crates of texts, plans, reports and explanations, in a crate of their own: a crate with tests is proved once more with them.
#![tactic(auto)]

#[cfg(test)]
mod accounts_of;
#[cfg(test)]
mod clock_plans;
#[cfg(test)]
mod clock_texts;
#[cfg(test)]
mod endings;
#[cfg(test)]
mod generated;
#[cfg(test)]
mod laws;
#[cfg(test)]
mod origins_of;
#[cfg(test)]
mod outside;
#[cfg(test)]
mod pieces;
#[cfg(test)]
mod plans;
#[cfg(test)]
mod printed;
#[cfg(test)]
mod program_texts;
#[cfg(test)]
mod reported;
#[cfg(test)]
mod statements;
#[cfg(test)]
mod words;
