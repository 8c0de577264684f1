// Each site's part of statuses that are known as a whole.
ghost use Rattle.std.specs.Prelude.{◌≡◌, ◌≤◌, ◌<◌, ◌^◌, ◌++◌, true, false, length, IfOk, OnErr, OnOk};
ghost use Rattle.armus_base.specs.calls.Statuses.{IsInOrder};
ghost use Rattle.sites.specs.calls.Checks.{part_of};
ghost use Rattle.sites.specs.calls.Keeping.{count_after};
ghost use Rattle.sites.specs.calls.Parts.{HoldParts, PutsParts};
ghost use Rattle.sites.specs.calls.Rows.{HasNumbers, IsRowOf, is_of_site, status_bytes};
ghost use Rattle.sites.specs.inside.Putting.{PutsPart};

use crate::encoding::{put_number, put_status};
use crate::{KeepEnd, Keeper};
use armus_base::{List, MAX_SITES, NoMemory, Status};
use std::alloc::Global;

// How many of the statuses are of the site.
fn count_own(list: &[Status], site: u32, sites: u32) -> u32
    requires some { 1 ≤ sites }
    requires few { length list.now < 2 ^ 28 }
    ensures { result ≡ length (part_of sites site list.now) }
{
    list.iter()
        .filter(|status| status.t.0 % sites == site)
        .count() as u32
}

// Appends a status, if it is of the site.
fn put_own(out: &mut Vec<u8>, s: &Status, site: u32, sites: u32) -> Result<(), NoMemory>
    requires some { 1 ≤ sites }
    requires few { length s.now.phases < 2 ^ 32 }
    ensures own { is_of_site sites site s.now.t.0 ≡ true → OnOk result ((out.new.items ≡ out.old.items ++ status_bytes s.now) × HasNumbers s.now) }
    ensures other { is_of_site sites site s.now.t.0 ≡ false → OnOk result (out.new.items ≡ out.old.items) }
{
    if s.t.0 % sites == site {
        put_status(out, s)?;
    }
    Ok(())
}

// The row of the site's part of the statuses.
fn part_row(alloc: Global, list: &[Status], site: u32, sites: u32) -> Result<List<u8>, NoMemory>
    requires some { 1 ≤ sites }
    requires in_order { IsInOrder list.now }
    requires few { length list.now < 2 ^ 28 }
    ensures { IfOk result (IsRowOf sites site (part_of sites site list.now)) }
{
    let mut row = Vec::new(alloc);
    put_number(&mut row, count_own(list, site, sites))?;
    for status in list {
        put_own(&mut row, status, site, sites)?;
    }
    Ok(List::from_vec(row))
}

// Puts the row of the site's part of the statuses.
fn put_part<K: Keeper>(
    alloc: Global,
    keeper: &mut K,
    list: &[Status],
    site: u32,
    sites: u32,
) -> Result<(), KeepEnd>
    requires site { site < sites }
    requires kept { length (K.rows keeper.old) ≡ sites }
    requires in_order { IsInOrder list.now }
    requires few { length list.now < 2 ^ 28 }
    ensures count { K.faults keeper.new ≡ count_after result (K.faults keeper.old) }
    ensures ok { OnOk result (PutsPart sites site list.now (K.rows keeper.old) (K.rows keeper.new)) }
    ensures err { OnErr result (K.rows keeper.new ≡ K.rows keeper.old) }
{
    let row = part_row(alloc, list, site, sites)?;
    keeper.put(site, row.as_slice())?;
    Ok(())
}

/// For each site, in order, puts the row of its part of the statuses. After an error each site's row is as before, or the row of its part. Fault comes
/// exactly where the keeper's count of faults rises, by one.
pub fn put_parts<K: Keeper>(
    alloc: Global,
    keeper: &mut K,
    list: &[Status],
    sites: u32,
) -> Result<(), KeepEnd>
    requires sites { 1 ≤ sites × sites ≤ MAX_SITES }
    requires kept { length (K.rows keeper.old) ≡ sites }
    requires in_order { IsInOrder list.now }
    requires few { length list.now < 2 ^ 28 }
    ensures rows { PutsParts sites list.now (K.rows keeper.old) (K.rows keeper.new) }
    ensures parts { OnOk result (HoldParts sites (K.rows keeper.new) list.now) }
    ensures count { K.faults keeper.new ≡ count_after result (K.faults keeper.old) }
{
    for site in 0..sites {
        put_part(alloc, keeper, list, site, sites)?;
    }
    Ok(())
}
