//! The texts of results: the report of a final state, the lines of live verdicts, and the line of a refusal.
//!
//! It stands on `adaptive`, `verdict` and the faults of the language. Its rows are in `tests_text` (`reported`).
#![tactic(auto)]

mod counts;
mod laws;
mod lines;
mod live;
mod outline;
mod refusal;
mod reports;
mod standing;

pub use laws::{counts_add_up, one_report, report_exists, some_dead_extend};
pub use live::live_lines;
pub use outline::{Outline, outline_of};
pub use refusal::{Refusal, ScheduleFault, refusal_line};
pub use reports::{FinalReport, any_dead, report, report_of};
pub use standing::Standing;
