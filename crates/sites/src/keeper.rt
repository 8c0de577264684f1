// Where sites put their rows, and where any of them gets them.
ghost use Rattle.std.specs.Prelude.{◌≡◌, ◌<◌, ℕ, List as Seq, Some, length, IfOk, OnOk, OnErr, slice_set};
ghost use Rattle.std.specs.declared.option.Option.{Option};
ghost use Rattle.sites.specs.calls.Keeping.{count_after, held};

use crate::KeepEnd;
use armus_base::List;
use std::alloc::Global;

/// A store of rows, one or none for each site. It counts its faults.
///
/// `MemKeeper` and `SafeKeeper` hold rows in memory. For a store that several machines reach, implement this trait: everything above works over it as it is. `put`
/// replaces a row as a whole, so a reader finds the old row or the new one. Build the new row first, and put it in place by the step that cannot fail, or whose
/// failure leaves the old one. Only calls change `rows`, but a store that other machines write changes by itself. So let `rows` be what this keeper saw last, where
/// `get` reads the store and fails if it finds another row than it knows; or let `rows` be those of the store by agreement, and believe the clauses below of it.
pub trait Keeper: Send {
    /// For each of its sites, in order, the row that is held of it, if one is.
    ghost rows: { Self → Seq (Option (Seq ℕ)) };

    /// How often it has failed, up to 2^64 - 1.
    ghost faults: { Self → ℕ };

    /// Holds this row of the site from now on. Fault comes exactly where the count of faults rises, by one; after any error each site's row is as
    /// before.
    fn put(&mut self, site: u32, row: &[u8]) -> Result<(), KeepEnd>
        requires site { site < length (rows self.old) }
        ensures ok { OnOk result (rows self.new ≡ slice_set (rows self.old) site (Some row.now)) }
        ensures err { OnErr result (rows self.new ≡ rows self.old) }
        ensures count { faults self.new ≡ count_after result (faults self.old) };

    /// The row that is held of the site; None where there is none. No row changes. Fault comes exactly where the count of faults rises, by one.
    fn get(&mut self, alloc: Global, site: u32) -> Result<Option<List<u8>>, KeepEnd>
        requires site { site < length (rows self.old) }
        ensures found { IfOk result (λ row. row ≡ held (rows self.old) site) }
        ensures rows { rows self.new ≡ rows self.old }
        ensures count { faults self.new ≡ count_after result (faults self.old) };
}

/// Where rows are kept: each keeper. A method of a trait may not call a function over `Keeper`, which may be sent to a thread; it may call one over `KeepsRows`.
pub trait KeepsRows {
    ghost use Rattle.std.specs.Prelude.{List as Seq, ℕ};
    ghost use Rattle.std.specs.declared.option.Option.{Option};

    /// For each of its sites, in order, the row that is held of it, if one is.
    ghost kept: { Self → Seq (Option (Seq ℕ)) };

    /// How often it has failed, up to 2^64 - 1.
    ghost failures: { Self → ℕ };

    /// Holds this row of the site from now on. Fault comes exactly where the count of failures rises, by one; after any error each site's row is as
    /// before.
    fn put_row(&mut self, site: u32, row: &[u8]) -> Result<(), KeepEnd>
        requires site { site < length (kept self.old) }
        ensures ok { OnOk result (kept self.new ≡ slice_set (kept self.old) site (Some row.now)) }
        ensures err { OnErr result (kept self.new ≡ kept self.old) }
        ensures count { failures self.new ≡ count_after result (failures self.old) };

    /// The row that is held of the site; None where there is none. No row changes. Fault comes exactly where the count of failures rises, by one.
    fn get_row(&mut self, alloc: Global, site: u32) -> Result<Option<List<u8>>, KeepEnd>
        requires site { site < length (kept self.old) }
        ensures found { IfOk result (λ row. row ≡ held (kept self.old) site) }
        ensures rows { kept self.new ≡ kept self.old }
        ensures count { failures self.new ≡ count_after result (failures self.old) };
}

impl<K: Keeper> KeepsRows for K {
    ghost kept = { K.rows };

    ghost failures = { K.faults };

    fn put_row(&mut self, site: u32, row: &[u8]) -> Result<(), KeepEnd> {
        self.put(site, row)
    }

    fn get_row(&mut self, alloc: Global, site: u32) -> Result<Option<List<u8>>, KeepEnd> {
        self.get(alloc, site)
    }
}
