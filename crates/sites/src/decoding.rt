// A row as a snapshot.
ghost use Rattle.std.specs.Prelude.{◌≡◌, ◌≤◌, ◌<◌, true, All, IfOk, MatchBool};
ghost use Rattle.sites.specs.calls.Rows.{IsBadRow, IsRowOf, is_of_site};
ghost use Rattle.sites.specs.inside.Reading.{MayBeStored};
ghost use Rattle.sites.specs.declared.ends.DecodeEnd.TheVariants.{Bad};
ghost use Rattle.std.specs.Prelude.{Err};

use crate::reading::row_of;
use crate::{DecodeEnd, Snapshot};
use armus_base::{List, MAX_SITES, Status};
use dep_state::is_in_order;
use std::alloc::Global;

// one more than the largest number of statuses that a row may have
const MOST_STATUSES: usize = 1 << 28;

// Whether all statuses are of tasks of the site.
fn are_own(list: &[Status], site: u32, sites: u32) -> bool
    requires { 0 < sites }
    ensures { MatchBool result (All (λ s. is_of_site sites site s.t.0 ≡ true) list.now) (¬ All (λ s. is_of_site sites site s.t.0 ≡ true) list.now) }
{
    for status in list {
        if status.t.0 % sites != site {
            return false;
        }
    }
    true
}

// Whether the site may store these statuses.
fn may_be_stored(list: &[Status], site: u32, sites: u32) -> bool
    requires { 0 < sites }
    ensures { MatchBool result (MayBeStored sites site list.now) (¬ MayBeStored sites site list.now) }
{
    if list.len() >= MOST_STATUSES {
        return false;
    }
    if !are_own(list, site, sites) {
        return false;
    }
    is_in_order(list)
}

/// The snapshot of the site of which these bytes are the row. Bad comes exactly where they are the row of none: a row has fewer than 2^28 statuses,
/// in order, of tasks of this site alone.
pub fn decode(alloc: Global, site: u32, sites: u32, row: &[u8]) -> Result<Snapshot, DecodeEnd>
    requires some { 1 ≤ sites }
    requires few { sites ≤ MAX_SITES }
    requires site { site < sites }
    ensures site { IfOk result (λ s. s.site ≡ site) }
    ensures stored { IfOk result (λ s. IsRowOf sites site s.statuses row.now) }
    ensures bad { result ≡ Err Bad → IsBadRow sites site row.now }
{
    let statuses = row_of(alloc, row)?;
    if !may_be_stored(statuses.as_slice(), site, sites) {
        return Err(DecodeEnd::Bad);
    }
    Ok(Snapshot {
        site,
        statuses: List::from_vec(statuses),
    })
}
