// The numbers of one phaser by phase: pairs of a phase and a number.
ghost use Rattle.std.specs.Prelude.{◌≡◌, ◌<◌, ◌&&◌, ◌||◌, ◌==◌, ℕ, true, false, not, IfOk, OnOk, OnErr};
ghost use Rattle.monitor_members.specs.Noted.{has_pair};

use std::alloc::{AllocError, Global};
use std::collections::BTreeSet;

/// Puts number k at phase m.
pub(crate) fn put_pair(pairs: &mut BTreeSet<(u32, u64)>, m: u32, k: u64) -> Result<(), AllocError>
    ensures put { OnOk result ((n j : ℕ) → has_pair pairs.new.keys n j ≡ (has_pair pairs.old.keys n j || (m == n && k == j))) }
    ensures kept { OnErr result (pairs.new.keys ≡ pairs.old.keys) }
{
    pairs.insert((m, k))?;
    Ok(())
}

/// Takes number k out at phase m.
pub(crate) fn take_pair(pairs: &mut BTreeSet<(u32, u64)>, m: u32, k: u64)
    ensures { (n j : ℕ) → has_pair pairs.new.keys n j ≡ (has_pair pairs.old.keys n j && not (m == n && k == j)) }
{
    pairs.remove(&(m, k));
}

/// Number k at phase m alone.
pub(crate) fn one_pair(alloc: Global, m: u32, k: u64) -> Result<BTreeSet<(u32, u64)>, AllocError>
    ensures { IfOk result (λ pairs. (n j : ℕ) → has_pair pairs.keys n j ≡ (m == n && k == j)) }
{
    let mut pairs = BTreeSet::new(alloc);
    put_pair(&mut pairs, m, k)?;
    Ok(pairs)
}

/// Whether a number stands at a phase above n.
pub(crate) fn has_above(pairs: &BTreeSet<(u32, u64)>, n: u32) -> bool
    ensures some { result ≡ true → (m : ℕ) × (k : ℕ) × (n < m) × (has_pair pairs.now.keys m k ≡ true) }
    ensures none { result ≡ false → (m k : ℕ) → n < m → has_pair pairs.now.keys m k ≡ false }
{
    match pairs.last() {
        None => false,
        Some(pair) => n < pair.0,
    }
}
