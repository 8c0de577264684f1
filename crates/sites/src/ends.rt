// Why a call gave no answer.
ghost use Rattle.std.specs.Prelude.{◌≡◌};
ghost use Rattle.sites.specs.declared.ends.DecodeEnd.TheVariants as decode_ends;
ghost use Rattle.sites.specs.declared.ends.KeepEnd.TheVariants as keep_ends;
ghost use Rattle.sites.specs.declared.ends.SiteEnd.TheVariants as site_ends;

use armus_base::WantOfMemory;

/// Why a keeper gave no answer.
#[derive(Clone, Copy, Debug, PartialEq, Eq)]
pub enum KeepEnd {
    /// The keeper failed, and counted that.
    Fault,
    /// Memory ran out.
    NoMemory,
}

/// Why a row gave no snapshot.
#[derive(Clone, Copy, Debug, PartialEq, Eq)]
pub enum DecodeEnd {
    /// The row stores no statuses of the site.
    Bad,
    /// Memory ran out.
    NoMemory,
}

/// Why a check of the rows of all sites gave no analysis.
#[derive(Clone, Copy, Debug, PartialEq, Eq)]
pub enum SiteEnd {
    /// The keeper failed, and counted that.
    Fault,
    /// The row of this site stores no statuses of it; no site below it has such a row.
    Bad { site: u32 },
    /// Memory ran out.
    NoMemory,
}

impl<E: WantOfMemory> From<E> for DecodeEnd {
    ghost from_gives = { λ _ e. e ≡ decode_ends.NoMemory };

    fn from(_e: E) -> DecodeEnd {
        DecodeEnd::NoMemory
    }
}

impl<E: WantOfMemory> From<E> for KeepEnd {
    ghost from_gives = { λ _ e. e ≡ keep_ends.NoMemory };

    fn from(_e: E) -> KeepEnd {
        KeepEnd::NoMemory
    }
}

impl<E: WantOfMemory> From<E> for SiteEnd {
    ghost from_gives = { λ _ e. e ≡ site_ends.NoMemory };

    fn from(_e: E) -> SiteEnd {
        SiteEnd::NoMemory
    }
}
