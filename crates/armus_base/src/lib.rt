//! The types that every other crate names, the definitions of plans, runs and deadlock with the laws over them, and the outside of the program: sources,
//! sinks and the gate.
//!
//! It stands on std alone, and every other crate on it. Its rows are in `tests_text` (`outside`), and worked runs are laws here.
#![tactic(auto)]

mod code;
mod cursor;
mod ending;
mod errors;
mod event;
mod ids;
mod laws;
mod list;
mod memory;
mod nexts;
mod offset;
mod op;
mod outside;
mod piece;
mod plan;
mod read;
mod run_limits;
mod standard;
mod status;
mod status_list;
mod words;
mod write;

pub use code::Code;
pub use cursor::Cursor;
pub use ending::{Final, TaskEnd};
pub use errors::{Failed, NoMemory, ReadEnd, WantOfMemory, WriteFault};
pub use event::Event;
pub use ids::{Phase, PhaserId, TaskId};
pub use laws::{
    checked_by_codes, collected_is_dead, dead_stays, exclusions, final_is_of_state,
    folded_stand_for, lawful_places, least_state, list_decides, lock_excludes, next_is_legal,
    nobody_is_dead, one_end, only_blocks_kill, phases_fit, places_fix_state, plan_grows,
    reachable_places, reached_stays, scanned_stays, seen_is_before, seen_keeps_far,
    serial_is_avoided, statuses_are_of_state, unfolded_append, unfolded_straight, whole_append,
    whole_by_places, worked_avoided_run, worked_decisions, worked_loads, worked_offsets,
    worked_pieces, worked_texts,
};
pub use list::List;
pub use memory::{MemSink, MemSource, SafeSource};
pub use nexts::fill_nexts;
pub use offset::Offset;
pub use op::Op;
pub use outside::{Gate, Point, Sink, Source, Still};
pub use piece::{MAX_OPEN_REPEATS, MAX_TURNS, Piece};
pub use plan::{MAX_CELLS, MAX_OFFSET, MAX_OPS, MAX_PHASERS, MAX_TASKS, Plan};
pub use read::read_all;
pub use run_limits::{MAX_SITES, MAX_WORKERS};
pub use standard::{StdSink, StdSource};
pub use status::{Dead, Member, Status};
pub use status_list::{ShowsTasks, list_statuses};
pub use words::{put_number, put_words};
pub use write::{Writes, write_text};
