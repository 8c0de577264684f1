//! The runs of PL as traces: what a run announces, line by line, is a legal and lasting trace that leads to the same memberships, phases and waits, so who is
//! stuck in it is dead in the run's state.
#![tactic(auto)]

mod laws;

pub use laws::{ended_runs_are_traces, runs_are_traces};
