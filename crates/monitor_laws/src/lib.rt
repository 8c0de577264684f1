//! The monitor of running programs: what the lines of a trace are, what state they lead to, who is stuck in it, and the laws of these, each the contract of a
//! function with an empty body. It stands on armus_base for events and deadlock alone.
//! The tests of the monitor stand in the gallery.
#![tactic(auto)]

mod laws;

pub use laws::{
    all_are_told, no_wait_makes_stuck, own_wait_sticks, premises_are_needed,
    same_lines_same_states, stuck_is_deadlocked, stuck_is_known, stuck_stays, stuck_were_told,
    true_and_ordered_lasts, who_is_told_is_stuck, worked_line_faults, worked_lists,
};
