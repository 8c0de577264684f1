//! The plan of a program: what its statements come to, task by task, or the first check fault.
//!
//! It stands on `pl_syntax`. Its rows are in `tests_text` (`plans`, `pieces`).
#![tactic(auto)]

pub mod checker;
mod fault;
pub mod flatten;
mod laws;
mod limits;
mod membership;
mod pieces;
mod planning;
pub mod statements;
mod steady;
pub mod step;
mod tasks;
mod walk;

pub use fault::{
    ALREADY_FORKED, ALREADY_MEMBER, CheckFault, NOT_DRAWN_HERE, NOT_MEMBER, OTHER_KIND, PlanEnd,
    TOO_MANY_CELLS, TOO_MANY_OPS, TOO_MANY_PHASERS, TOO_MANY_TASKS, TOO_MANY_VISITS, UNKNOWN_NAME,
};
pub use laws::{
    fault_is_of_program, left_pieces, pieces_of_codes, unfolded_is_checked, unfolding_by_visits,
    worked_pieces, worked_programs,
};
pub use limits::MAX_VISITS;
pub use membership::Membership;
pub use pieces::push_each;
pub use planning::{Unfolded, plan, unfold};
