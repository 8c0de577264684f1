//! Where things of a text stand: its bytes by line and column, or at the place of another program that their line names; and the statements from which the
//! ops, the phasers and the tasks of its plan come.
//!
//! It stands on the language and its plan. Its rows are in `tests_text` (`program_texts`, `origins_of`).
#![tactic(auto)]

mod bodies;
mod laws;
mod lookup;
mod making;
mod named;
mod place;
mod places;
mod seeking;
mod statement;
mod table;
mod turns;
mod words;

pub use laws::{
    line_names_one_place, ops_have_origins, phasers_and_tasks_have_origins, visits_are_of_text,
};
pub use lookup::Origins;
pub use place::TextPlace;
pub use places::TextPlaces;
pub use turns::LoopTurn;
