// A check over the rows of all sites.
ghost use Rattle.std.specs.Prelude.{List as Seq, ◌≡◌, ◌≤◌, ◌<◌, ℕ, Err, IfErr, IfOk, IsSomeAnd, OnOk, length};
ghost use Rattle.std.specs.declared.option.Option.{Option};
ghost use Rattle.sites.specs.calls.Checks.{AreAll, IsCheck, IsSiteEnd, count_after_check};
ghost use Rattle.sites.specs.calls.Keeping.{held};
ghost use Rattle.sites.specs.calls.Rows.{IsBadRow};
ghost use Rattle.sites.specs.inside.Gathering.{AreGathered, EndsAtSite, TakesRow};
ghost use Rattle.sites.specs.declared.ends.DecodeEnd.TheVariants as decode_ends;

use crate::decoding::decode;
use crate::keeper::KeepsRows;
use crate::{DecodeEnd, KeepEnd, Keeper, SiteEnd};
use adaptive::{Analysis, Wanted, analyse};
use armus_base::{List, MAX_SITES, NoMemory, Status};
use std::alloc::Global;

// Appends the statuses that a row of the site stores.
fn take_row(
    alloc: Global,
    site: u32,
    sites: u32,
    row: Option<List<u8>>,
    all: &mut Vec<Status>,
) -> Result<(), DecodeEnd>
    requires some { 1 ≤ sites }
    requires few { sites ≤ MAX_SITES }
    requires site { site < sites }
    ensures ok { OnOk result (TakesRow sites site row all.old.items all.new.items) }
    ensures bad { result ≡ Err decode_ends.Bad → IsSomeAnd row (IsBadRow sites site) }
{
    match row {
        None => Ok(()),
        Some(row) => {
            let snapshot = decode(alloc, site, sites, row.as_slice())?;
            let mut statuses = snapshot.statuses.into_vec();
            all.append(&mut statuses)?;
            Ok(())
        }
    }
}

// Appends the statuses that a site stores.
fn take_site<K: KeepsRows>(
    alloc: Global,
    keeper: &mut K,
    site: u32,
    sites: u32,
    all: &mut Vec<Status>,
) -> Result<(), SiteEnd>
    requires some { 1 ≤ sites }
    requires few { sites ≤ MAX_SITES }
    requires site { site < sites }
    requires kept { length (K.kept keeper.old) ≡ sites }
    ensures rows { K.kept keeper.new ≡ K.kept keeper.old }
    ensures count { K.failures keeper.new ≡ count_after_check result (K.failures keeper.old) }
    ensures ok { OnOk result (TakesRow sites site (held (K.kept keeper.old) site) all.old.items all.new.items) }
    ensures end { IfErr result (EndsAtSite sites (K.kept keeper.old) site) }
{
    let row = match keeper.get_row(alloc, site) {
        Ok(row) => row,
        Err(KeepEnd::Fault) => return Err(SiteEnd::Fault),
        Err(KeepEnd::NoMemory) => return Err(SiteEnd::NoMemory),
    };
    match take_row(alloc, site, sites, row, all) {
        Ok(()) => Ok(()),
        Err(DecodeEnd::Bad) => Err(SiteEnd::Bad { site }),
        Err(DecodeEnd::NoMemory) => Err(SiteEnd::NoMemory),
    }
}

// The statuses that the sites store, site after site.
fn gather<K: KeepsRows>(alloc: Global, keeper: &mut K, sites: u32) -> Result<Vec<Status>, SiteEnd>
    requires some { 1 ≤ sites }
    requires few { sites ≤ MAX_SITES }
    requires kept { length (K.kept keeper.old) ≡ sites }
    ensures rows { K.kept keeper.new ≡ K.kept keeper.old }
    ensures count { K.failures keeper.new ≡ count_after_check result (K.failures keeper.old) }
    ensures ok { IfOk result (λ all. AreGathered sites (K.kept keeper.old) sites all.items) }
    ensures end { IfErr result (IsSiteEnd sites (K.kept keeper.old)) }
{
    let mut all = Vec::new(alloc);
    for site in 0..sites {
        take_site(alloc, keeper, site, sites, &mut all)?;
    }
    Ok(all)
}

// The statuses in order of task.
fn in_order(mut all: Vec<Status>, sites: u32) -> Result<Vec<Status>, NoMemory>
    requires some { 1 ≤ sites }
    requires few { sites ≤ MAX_SITES }
    ensures { (rows : Seq (Option (Seq ℕ))) → AreGathered sites rows sites all.items → IfOk result (λ list. AreAll sites rows list.items) }
{
    all.sort_by_key(|status| status.t.0)?;
    Ok(all)
}

/// Reads the row of each site, in order, and analyses all their statuses together, in order of task; a site without a row has none. The rows may be
/// of different moments. Bad comes with the first site whose row stores no statuses of it, and never without one: where there is one, the answer is
/// this, or Fault or `NoMemory`. No row changes; Fault comes exactly where the keeper's count of faults rises, by one.
pub fn check_sites<K: Keeper>(
    alloc: Global,
    keeper: &mut K,
    sites: u32,
    wanted: Wanted,
) -> Result<Analysis, SiteEnd>
    requires some { 1 ≤ sites }
    requires few { sites ≤ MAX_SITES }
    requires kept { length (K.rows keeper.old) ≡ sites }
    ensures rows { K.rows keeper.new ≡ K.rows keeper.old }
    ensures count { K.faults keeper.new ≡ count_after_check result (K.faults keeper.old) }
    ensures check { IfOk result (IsCheck sites (K.rows keeper.old) wanted) }
    ensures end { IfErr result (IsSiteEnd sites (K.rows keeper.old)) }
{
    check_rows(alloc, keeper, sites, wanted)
}

/// The same, wherever the rows are kept.
pub(crate) fn check_rows<K: KeepsRows>(
    alloc: Global,
    keeper: &mut K,
    sites: u32,
    wanted: Wanted,
) -> Result<Analysis, SiteEnd>
    requires some { 1 ≤ sites }
    requires few { sites ≤ MAX_SITES }
    requires kept { length (K.kept keeper.old) ≡ sites }
    ensures rows { K.kept keeper.new ≡ K.kept keeper.old }
    ensures count { K.failures keeper.new ≡ count_after_check result (K.failures keeper.old) }
    ensures check { IfOk result (IsCheck sites (K.kept keeper.old) wanted) }
    ensures end { IfErr result (IsSiteEnd sites (K.kept keeper.old)) }
{
    let all = gather(alloc, keeper, sites)?;
    let list = in_order(all, sites)?;
    let analysis = analyse(alloc, list.as_slice(), wanted)?;
    Ok(analysis)
}
