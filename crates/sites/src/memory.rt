// Keepers in memory: one that fails at the calls that it is told, and one that never fails.
ghost use Rattle.std.specs.Prelude.{◌≡◌, ◌≤◌, ◌<◌, length, Some, None, IfOk, OnErr, OnOk, replicate, slice_set};
ghost use Rattle.sites.specs.calls.Keeping.{count_after, held};
ghost use Rattle.sites.specs.calls.MemKeepers.{IsMemCall};

use crate::{KeepEnd, Keeper};
use armus_base::{List, MAX_SITES, NoMemory};
use std::alloc::Global;
use std::marker::Model;

// No row of any site.
fn no_rows(alloc: Global, sites: u32) -> Result<Vec<Option<List<u8>>>, NoMemory>
    ensures { IfOk result (λ rows. rows.items ≡ replicate sites None) }
{
    let mut rows = Vec::new(alloc);
    for _ in 0..sites {
        rows.push(None)?;
    }
    Ok(rows)
}

// Sets the row of a site, once the new row is whole.
fn set_row(
    alloc: Global,
    rows: &mut [Option<List<u8>>],
    site: u32,
    row: &[u8],
) -> Result<(), NoMemory>
    requires { site < length rows.old }
    ensures ok { OnOk result (rows.new ≡ slice_set rows.old site (Some row.now)) }
    ensures err { OnErr result (rows.new ≡ rows.old) }
{
    let bytes = Vec::from_slice(alloc, row)?;
    rows[site as usize] = Some(List::from_vec(bytes));
    Ok(())
}

// The row of a site.
fn row_at(alloc: Global, rows: &[Option<List<u8>>], site: u32) -> Result<Option<List<u8>>, NoMemory>
    requires { site < length rows.now }
    ensures { IfOk result (λ row. row ≡ held rows.now site) }
{
    match &rows[site as usize] {
        None => Ok(None),
        Some(row) => {
            let bytes = Vec::from_slice(alloc, row.as_slice())?;
            Ok(Some(List::from_vec(bytes)))
        }
    }
}

/// Holds its rows in memory, and fails at the calls of `put` and `get` whose numbers, counted together from 1, are listed.
#[derive(Drop)]
pub struct MemKeeper {
    alloc: Global,
    rows: Vec<Option<List<u8>>>,
    fails: List<u64>,
    calls: u64,
    faults: u64,
}

impl Model for MemKeeper {
    ghost use Rattle.sites.specs.calls.Keeping.{MemKept};

    ghost Value = { MemKept };

    ghost view = { λ k. record {
      rows = k.rows.items;
      fails = k.fails;
      calls = k.calls;
      faults = k.faults;
    } };
}

impl MemKeeper {
    /// A keeper for so many sites, without rows.
    pub fn new(alloc: Global, sites: u32, fails: List<u64>) -> Result<MemKeeper, NoMemory>
        requires some { 1 ≤ sites }
        requires few { sites ≤ MAX_SITES }
        ensures fresh { IfOk result (λ k. k ≡ record { rows = replicate sites None; fails = fails; calls = 0; faults = 0 }) }
    {
        let rows = no_rows(alloc, sites)?;
        Ok(MemKeeper {
            alloc,
            rows,
            fails,
            calls: 0,
            faults: 0,
        })
    }

    // Counts a call; it fails if it is listed.
    fn count(&mut self) -> Result<(), KeepEnd>
        ensures call { IsMemCall self.old self.new result }
        ensures rows { self.new.rows ≡ self.old.rows }
        ensures count { self.new.faults ≡ count_after result self.old.faults }
    {
        self.calls = self.calls.saturating_add(1);
        if self.fails.as_slice().contains(&self.calls) {
            self.faults = self.faults.saturating_add(1);
            return Err(KeepEnd::Fault);
        }
        Ok(())
    }
}

impl Keeper for MemKeeper {
    ghost rows = { λ k. k.rows };

    ghost faults = { λ k. k.faults };

    fn put(&mut self, site: u32, row: &[u8]) -> Result<(), KeepEnd>
        requires site { site < length self.old.rows }
        ensures ok { OnOk result (self.new.rows ≡ slice_set self.old.rows site (Some row.now)) }
        ensures err { OnErr result (self.new.rows ≡ self.old.rows) }
        ensures count { self.new.faults ≡ count_after result self.old.faults }
        ensures call { IsMemCall self.old self.new result }
    {
        self.count()?;
        set_row(self.alloc, self.rows.as_mut_slice(), site, row)?;
        Ok(())
    }

    fn get(&mut self, alloc: Global, site: u32) -> Result<Option<List<u8>>, KeepEnd>
        requires site { site < length self.old.rows }
        ensures found { IfOk result (λ row. row ≡ held self.old.rows site) }
        ensures rows { self.new.rows ≡ self.old.rows }
        ensures count { self.new.faults ≡ count_after result self.old.faults }
        ensures call { IsMemCall self.old self.new result }
    {
        self.count()?;
        let row = row_at(alloc, self.rows.as_slice(), site)?;
        Ok(row)
    }
}

/// Holds its rows in memory, and never fails.
#[derive(Drop)]
pub struct SafeKeeper {
    alloc: Global,
    rows: Vec<Option<List<u8>>>,
}

impl Model for SafeKeeper {
    ghost use Rattle.std.specs.Prelude.{List as Seq, Option, ℕ};

    ghost Value = { Seq (Option (Seq ℕ)) };

    ghost view = { λ k. k.rows.items };
}

impl SafeKeeper {
    /// A keeper for so many sites, without rows.
    pub fn new(alloc: Global, sites: u32) -> Result<SafeKeeper, NoMemory>
        requires some { 1 ≤ sites }
        requires few { sites ≤ MAX_SITES }
        ensures fresh { IfOk result (λ k. k ≡ replicate sites None) }
    {
        let rows = no_rows(alloc, sites)?;
        Ok(SafeKeeper { alloc, rows })
    }
}

impl Keeper for SafeKeeper {
    ghost rows = { λ k. k };

    ghost faults = { λ _. 0 };

    fn put(&mut self, site: u32, row: &[u8]) -> Result<(), KeepEnd> {
        set_row(self.alloc, self.rows.as_mut_slice(), site, row)?;
        Ok(())
    }

    fn get(&mut self, alloc: Global, site: u32) -> Result<Option<List<u8>>, KeepEnd> {
        let row = row_at(alloc, self.rows.as_slice(), site)?;
        Ok(row)
    }
}
