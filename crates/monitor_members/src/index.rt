// Numbers of tasks and wildcards, by phaser and phase.
ghost use Rattle.std.specs.Prelude.{◌≡◌, ◌<◌, ◌&&◌, ◌||◌, ◌==◌, ℕ, List, false, not, true, IfOk, OnOk, OnErr, bytes_eq};
ghost use Rattle.std.specs.Option.{option_copied};
ghost use Rattle.monitor_members.specs.Noted.{has_pair, is_here, is_noted, pairs_at, pairs_of};

use crate::pairs::{has_above, one_pair, put_pair, take_pair};
use std::alloc::{AllocError, Global};
use std::collections::{BTreeSet, HashMap};

/// Numbers of tasks and wildcards, each at phases of phasers.
#[derive(Drop)]
pub struct PhaserIndex {
    by_phaser: HashMap<Vec<u8>, BTreeSet<(u32, u64)>>,
}

// Takes number k out at phase m of phaser p, and tells whether nobody is left there.
fn take_out(
    by_phaser: &mut HashMap<Vec<u8>, BTreeSet<(u32, u64)>>,
    p: &[u8],
    m: u32,
    k: u64,
) -> bool
    ensures taken { (q : List ℕ) (n j : ℕ) → has_pair (pairs_at by_phaser.new q) n j ≡ (has_pair (pairs_at by_phaser.old q) n j && not (is_here p.now m k q n j)) }
    ensures nobody { result ≡ true → (n j : ℕ) → has_pair (pairs_at by_phaser.new p.now) n j ≡ false }
{
    match by_phaser.get_mut(p) {
        None => false,
        Some(pairs) => {
            take_pair(pairs, m, k);
            pairs.is_empty()
        }
    }
}

impl PhaserIndex {
    /// Nobody.
    pub fn new(alloc: Global) -> PhaserIndex
        ensures { (q : List ℕ) (n j : ℕ) → is_noted result q n j ≡ false }
    {
        PhaserIndex {
            by_phaser: HashMap::new(alloc),
        }
    }

    /// Notes number k at phase m of phaser p. Where memory is wanting, nothing is changed.
    pub fn insert(&mut self, alloc: Global, p: &[u8], m: u32, k: u64) -> Result<(), AllocError>
        ensures noted { OnOk result ((q : List ℕ) (n j : ℕ) → is_noted self.new q n j ≡ (is_noted self.old q n j || is_here p.now m k q n j)) }
        ensures kept { OnErr result ((q : List ℕ) (n j : ℕ) → is_noted self.new q n j ≡ is_noted self.old q n j) }
    {
        match self.by_phaser.get_mut(p) {
            Some(pairs) => {
                put_pair(pairs, m, k)?;
                Ok(())
            }
            None => {
                let pairs = one_pair(alloc, m, k)?;
                let name = Vec::from_slice(alloc, p)?;
                self.by_phaser.insert(name, pairs)?;
                Ok(())
            }
        }
    }

    /// Number k is not noted at phase m of phaser p any more.
    pub fn remove(&mut self, p: &[u8], m: u32, k: u64)
        ensures { (q : List ℕ) (n j : ℕ) → is_noted self.new q n j ≡ (is_noted self.old q n j && not (is_here p.now m k q n j)) }
    {
        if take_out(&mut self.by_phaser, p, m, k) {
            self.by_phaser.remove(p);
        }
    }

    /// The pairs of a phase and a number that are noted at phaser p, in their order; none where nobody is noted there.
    pub fn pairs_at(&self, p: &[u8]) -> Option<&BTreeSet<(u32, u64)>>
        ensures { pairs_of (option_copied result) ≡ pairs_at self.now.by_phaser p.now }
    {
        self.by_phaser.get(p)
    }

    /// Whether somebody is noted at a phase of phaser p above n.
    pub fn has_above(&self, p: &[u8], n: u32) -> bool
        ensures some { result ≡ true → (m : ℕ) × (k : ℕ) × (n < m) × (is_noted self.now p.now m k ≡ true) }
        ensures none { result ≡ false → (m k : ℕ) → n < m → is_noted self.now p.now m k ≡ false }
    {
        match self.pairs_at(p) {
            None => false,
            Some(pairs) => has_above(pairs, n),
        }
    }
}
