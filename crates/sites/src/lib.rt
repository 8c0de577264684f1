//! Sites: what each site stores of its tasks, and a check over what all sites have stored, at whatever moments.
//!
//! It stands on `phase_scan` and `adaptive`. Its rows are in `tests_runs`.
#![tactic(auto)]

mod checking;
mod decoding;
mod encoding;
mod ends;
mod keeper;
mod laws;
mod memory;
mod parts;
mod passing;
mod reading;
mod snapping;
mod snapshot;

pub use checking::check_sites;
pub use decoding::decode;
pub use encoding::encode;
pub use ends::{DecodeEnd, KeepEnd, SiteEnd};
pub use keeper::{Keeper, KeepsRows};
pub use laws::{
    backed_rows_name_the_dead, each_moment_is_lawful, one_list, viewers_have_one_state,
};
pub use memory::{MemKeeper, SafeKeeper};
pub use parts::put_parts;
pub use passing::{pass_over, site_pass};
pub use snapping::snap;
pub use snapshot::Snapshot;
