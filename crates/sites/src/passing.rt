// A pass over all sites.
ghost use Rattle.std.specs.Prelude.{◌≡◌, ◌≤◌, ◌<◌, All, IfOk, OnErr, OnOk, length, map};
ghost use Rattle.board.specs.calls.Seats.{IsOf, Known};
ghost use Rattle.sites.specs.calls.Keeping.{count_after};
ghost use Rattle.sites.specs.calls.Passes.{AreBacked, ChangesRows, HaveLookedOn, IsSitePass};
ghost use Rattle.sites.specs.calls.Snaps.{HasLookedOn, IsSnapshot};
ghost use Rattle.sites.specs.inside.Passing.{HaveSnapped, PutsSnap};

use crate::checking::check_rows;
use crate::encoding::encode;
use crate::keeper::KeepsRows;
use crate::snapping::snap;
use crate::{KeepEnd, Keeper, SiteEnd, Snapshot};
use adaptive::{Analysis, Wanted};
use armus_base::{MAX_SITES, NoMemory};
use board::{Board, ViewSeat};
use std::alloc::Global;

// Who makes the snaps of a site. Contracts see what it has seen. It is a viewer's seat; the functions below are over any such type, since an element of a
// slice of seats has no place of its own in memory.
trait Snaps {
    ghost known: { Self → Known };

    // A snap of the site.
    fn snap_of(
        &mut self,
        alloc: Global,
        board: &Board,
        site: u32,
        sites: u32,
    ) -> Result<Snapshot, NoMemory>
        requires made { IsOf (known self.old) board.now }
        requires site { site < sites }
        ensures made { IsOf (known self.new) board.now }
        ensures looked { HasLookedOn (known self.old) (known self.new) }
        ensures snapshot { IfOk result (λ s. IsSnapshot board.now.plan sites site s.statuses (known self.old) (known self.new)) };
}

impl Snaps for ViewSeat {
    ghost known = { λ s. s };

    fn snap_of(
        &mut self,
        alloc: Global,
        board: &Board,
        site: u32,
        sites: u32,
    ) -> Result<Snapshot, NoMemory> {
        snap(alloc, self, board, site, sites)
    }
}

// A snap of a site, put as its row.
fn snap_site<V: Snaps, K: KeepsRows>(
    alloc: Global,
    view: &mut V,
    board: &Board,
    site: u32,
    sites: u32,
    keeper: &mut K,
) -> Result<(), KeepEnd>
    requires made { IsOf (V.known view.old) board.now }
    requires site { site < sites }
    requires kept { length (K.kept keeper.old) ≡ sites }
    ensures made { IsOf (V.known view.new) board.now }
    ensures looked { HasLookedOn (V.known view.old) (V.known view.new) }
    ensures count { K.failures keeper.new ≡ count_after result (K.failures keeper.old) }
    ensures ok { OnOk result (PutsSnap board.now.plan sites site (V.known view.old) (V.known view.new) (K.kept keeper.old) (K.kept keeper.new)) }
    ensures err { OnErr result (K.kept keeper.new ≡ K.kept keeper.old) }
{
    let snapshot = view.snap_of(alloc, board, site, sites)?;
    let row = encode(alloc, &snapshot)?;
    keeper.put_row(site, row.as_slice())?;
    Ok(())
}

// A snap of each site, in order.
fn snap_sites<V: Snaps, K: KeepsRows>(
    alloc: Global,
    views: &mut [V],
    board: &Board,
    sites: u32,
    keeper: &mut K,
) -> Result<(), KeepEnd>
    requires views { All (λ v. IsOf (V.known v) board.now) views.old }
    requires sites { length views.old ≡ sites }
    requires kept { length (K.kept keeper.old) ≡ sites }
    ensures looked { HaveLookedOn board.now (map V.known views.old) (map V.known views.new) }
    ensures rows { ChangesRows board.now.plan (K.kept keeper.old) (K.kept keeper.new) (map V.known views.new) }
    ensures count { K.failures keeper.new ≡ count_after result (K.failures keeper.old) }
    ensures ok { OnOk result (HaveSnapped board.now sites sites (map V.known views.old) (map V.known views.new) (K.kept keeper.old) (K.kept keeper.new)) }
{
    for site in 0..sites {
        snap_site(alloc, &mut views[site as usize], board, site, sites, keeper)?;
    }
    Ok(())
}

/// For each site, in order, a snap by its viewer, put as its row; and then a check of all rows. It names only tasks that are dead in every lawful state
/// as far on as what all viewers have seen after the call, and all of each set that is deadlocked and of each of whose tasks the viewer of its site knew
/// before where it stands. Rows that were backed by what their viewers have seen are backed again, after each error too; each row is then as before, or a
/// new one of this call. Fault comes exactly where the keeper's count of faults rises, by one.
pub fn site_pass<K: Keeper>(
    alloc: Global,
    views: &mut [ViewSeat],
    board: &Board,
    keeper: &mut K,
    wanted: Wanted,
) -> Result<Analysis, KeepEnd>
    requires views { All (λ k. IsOf k board.now) views.old }
    requires sites { 1 ≤ length views.old × length views.old ≤ MAX_SITES }
    requires kept { length (K.rows keeper.old) ≡ length views.old }
    ensures looked { HaveLookedOn board.now views.old views.new }
    ensures rows { ChangesRows board.now.plan (K.rows keeper.old) (K.rows keeper.new) views.new }
    ensures backed { AreBacked board.now.plan (K.rows keeper.old) views.old → AreBacked board.now.plan (K.rows keeper.new) views.new }
    ensures count { K.faults keeper.new ≡ count_after result (K.faults keeper.old) }
    ensures pass { IfOk result (IsSitePass board.now.plan board.now.mode wanted views.old views.new (K.rows keeper.new)) }
{
    pass_over(alloc, views, board, keeper, wanted)
}

/// The same, wherever the rows are kept.
pub fn pass_over<K: KeepsRows>(
    alloc: Global,
    views: &mut [ViewSeat],
    board: &Board,
    keeper: &mut K,
    wanted: Wanted,
) -> Result<Analysis, KeepEnd>
    requires views { All (λ k. IsOf k board.now) views.old }
    requires sites { 1 ≤ length views.old × length views.old ≤ MAX_SITES }
    requires kept { length (K.kept keeper.old) ≡ length views.old }
    ensures looked { HaveLookedOn board.now views.old views.new }
    ensures rows { ChangesRows board.now.plan (K.kept keeper.old) (K.kept keeper.new) views.new }
    ensures backed { AreBacked board.now.plan (K.kept keeper.old) views.old → AreBacked board.now.plan (K.kept keeper.new) views.new }
    ensures count { K.failures keeper.new ≡ count_after result (K.failures keeper.old) }
    ensures pass { IfOk result (IsSitePass board.now.plan board.now.mode wanted views.old views.new (K.kept keeper.new)) }
{
    let _ = board.tasks();
    let sites = views.len() as u32;
    snap_sites(alloc, views, board, sites, keeper)?;
    match check_rows(alloc, keeper, sites, wanted) {
        Ok(analysis) => Ok(analysis),
        Err(SiteEnd::Fault) => Err(KeepEnd::Fault),
        Err(SiteEnd::NoMemory) => Err(KeepEnd::NoMemory),
        Err(SiteEnd::Bad { .. }) => unreachable!(),
    }
}
