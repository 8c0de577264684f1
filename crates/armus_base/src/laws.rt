// The laws over the definitions: each is the contract of a public function with an empty body.
mod agreement;
mod deadlocks;
mod decisions;
mod finals;
mod pieces;
mod places;
mod plans;
mod runs;
mod seats;
mod texts;

pub use agreement::{
    avoidance_agrees, cycle_is_deadlocked, dead_is_final, done_stays_done, held_has_end,
    refused_was_stuck,
};
pub use deadlocks::{collected_is_dead, dead_stays, nobody_is_dead, only_blocks_kill};
pub use decisions::list_decides;
pub use finals::{final_is_of_state, statuses_are_of_state};
pub use pieces::{
    folded_stand_for, unfolded_append, unfolded_straight, whole_append, whole_by_places,
    worked_pieces,
};
pub use places::{lawful_places, lock_excludes, reachable_places};
pub use plans::{checked_by_codes, phases_fit, plan_grows};
pub use runs::{next_is_legal, one_end, places_fix_state, reached_stays, serial_is_avoided};
pub use seats::{least_state, scanned_stays, seen_is_before, seen_keeps_far};
pub use texts::{
    exclusions, worked_avoided_run, worked_decisions, worked_loads, worked_offsets, worked_texts,
};
