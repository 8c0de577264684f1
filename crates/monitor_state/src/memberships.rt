// The memberships of one task or wildcard.
ghost use Rattle.std.specs.Prelude.{◌≡◌, ◌&&◌, ◌||◌, ◌==◌, ℕ, List, true, false, ◌<◌, ◌≤◌, ◌+◌, ◌++◌, ◌∷◌, [], None, Some, IfSome, IfNone, OnOk, OnErr, length, bytes_eq, map, filter, not, if◌then◌else◌};
ghost use Rattle.std.specs.Map.{lookup};
ghost use Rattle.std.specs.List.{list_any};
ghost use Rattle.monitor_laws.specs.Faults.{last_phase};
ghost use Rattle.monitor_members.specs.Noted.{is_noted};
ghost use Rattle.monitor_state.specs.Indexes.{is_phase};
ghost use Rattle.monitor_state.specs.inside.FirstPlaces.{IsFirstAt};
ghost use Rattle.monitor_state.specs.inside.PhaserLists.{are_here, is_of_phaser, risen_on, without_phaser};
ghost use Rattle.monitor_state.specs.inside.Reindexing.{IsNotedAnew, IsNotedWhere, IsSameNoted};

use crate::PhaserMembership;
use crate::phaser_membership::name_ending;
use armus_base::NoMemory;
use monitor_members::PhaserIndex;
use std::alloc::{AllocError, Global};
use std::marker::Model;

/// The phasers of which a task or wildcard is a member, in the order in which it joined them, each with its phase there.
#[derive(Drop)]
pub struct Memberships {
    items: Vec<PhaserMembership>,
}

impl Model for Memberships {
    ghost use Rattle.std.specs.Prelude.{ℕ, List};
    ghost use Rattle.monitor_state.specs.inside.PhaserLists.{HasNoPhaserTwice};

    ghost Value = { List (List ℕ × ℕ) };

    ghost view = { λ m. m.items.items };

    ghost invariant = { λ m. HasNoPhaserTwice m.items.items };
}

// Where the membership of phaser p stands.
fn position_of(items: &[PhaserMembership], p: &[u8]) -> Option<usize>
    ensures at { IfSome result (IsFirstAt (is_of_phaser p.now) items.now) }
    ensures none { IfNone result (list_any (is_of_phaser p.now) items.now ≡ false) }
{
    let ending = name_ending(p);
    for (at, membership) in items.iter().enumerate() {
        if membership.is_of(p, ending) {
            return Some(at);
        }
    }
    None
}

// Makes room for the first membership, and no more, since many have only one.
fn make_room(items: &mut Vec<PhaserMembership>) -> Result<(), AllocError>
    ensures { items.new.items ≡ items.old.items }
{
    if items.is_empty() {
        items.reserve_exact(1)?;
    }
    Ok(())
}

// Notes number k at each of these phases.
fn note_each(
    items: &[PhaserMembership],
    alloc: Global,
    index: &mut PhaserIndex,
    k: u64,
) -> Result<(), NoMemory>
    ensures noted { OnOk result ((q : List ℕ) (n j : ℕ) → is_noted index.new q n j ≡ (is_noted index.old q n j || are_here items.now k q n j)) }
    ensures others { (q : List ℕ) (n j : ℕ) → are_here items.now k q n j ≡ false → is_noted index.new q n j ≡ is_noted index.old q n j }
{
    for membership in items {
        index.insert(alloc, membership.phaser(), membership.phase(), k)?;
    }
    Ok(())
}

// Number k is noted at none of these phases any more.
fn forget_each(items: &[PhaserMembership], index: &mut PhaserIndex, k: u64)
    ensures { (q : List ℕ) (n j : ℕ) → is_noted index.new q n j ≡ (is_noted index.old q n j && not (are_here items.now k q n j)) }
{
    for membership in items {
        index.remove(membership.phaser(), membership.phase(), k);
    }
}

impl Memberships {
    /// None.
    pub(crate) fn new(alloc: Global) -> Memberships
        ensures { result ≡ [] }
    {
        Memberships {
            items: Vec::new(alloc),
        }
    }

    /// All of them.
    pub fn as_slice(&self) -> &[PhaserMembership]
        ensures { result.now ≡ self.now }
    {
        &self.items
    }

    /// How many they are.
    pub fn len(&self) -> usize
        ensures { result ≡ length self.now }
    {
        self.items.len()
    }

    /// The phase on phaser p, if it is one.
    pub fn phase_on(&self, p: &[u8]) -> Option<u32>
        ensures { result ≡ lookup (bytes_eq p.now) self.now }
    {
        let at = position_of(&self.items, p)?;
        Some(self.items[at].phase())
    }

    /// Becomes a member of phaser p with phase n.
    pub(crate) fn join(&mut self, alloc: Global, p: &[u8], n: u32) -> Result<(), NoMemory>
        requires { lookup (bytes_eq p.now) self.old ≡ None }
        ensures joined { OnOk result (self.new ≡ self.old ++ (p.now, n) ∷ []) }
        ensures kept { OnErr result (self.new ≡ self.old) }
    {
        let membership = PhaserMembership::new(alloc, p, n)?;
        make_room(&mut self.items)?;
        self.items.push(membership)?;
        Ok(())
    }

    /// The phase on phaser p rises by one.
    pub(crate) fn arrive(&mut self, p: &[u8])
        requires { IfSome (lookup (bytes_eq p.now) self.old) (λ m. m < last_phase) }
        ensures { self.new ≡ risen_on p.now self.old }
    {
        if let Some(at) = position_of(&self.items, p) {
            self.items[at].arrive();
        }
    }

    /// Is no member of phaser p any more.
    pub(crate) fn leave(&mut self, p: &[u8])
        ensures { self.new ≡ without_phaser p.now self.old }
    {
        if let Some(at) = position_of(&self.items, p) {
            self.items.remove(at);
        }
    }

    /// Notes number k, which is noted nowhere, at all its phases. Where memory is wanting, nothing is changed.
    pub(crate) fn note_all(
        &self,
        alloc: Global,
        index: &mut PhaserIndex,
        k: u64,
    ) -> Result<(), NoMemory>
        requires { IsNotedWhere index.old k (λ q n. false) }
        ensures noted { OnOk result (IsNotedAnew index.old index.new k (λ q n. is_phase (lookup (bytes_eq q) self.now) n)) }
        ensures kept { OnErr result (IsSameNoted index.old index.new) }
    {
        match note_each(&self.items, alloc, index, k) {
            Ok(()) => Ok(()),
            Err(wanting) => {
                forget_each(&self.items, index, k);
                Err(wanting)
            }
        }
    }

    /// Notes number k at all its phases too.
    pub(crate) fn note_too(
        &self,
        alloc: Global,
        index: &mut PhaserIndex,
        k: u64,
    ) -> Result<(), NoMemory>
        ensures { OnOk result ((q : List ℕ) (n j : ℕ) → is_noted index.new q n j ≡ (is_noted index.old q n j || (k == j && is_phase (lookup (bytes_eq q) self.now) n))) }
    {
        note_each(&self.items, alloc, index, k)
    }

    /// Number k, which is noted at some of its phases at most, is noted nowhere any more.
    pub(crate) fn forget_all(&self, index: &mut PhaserIndex, k: u64)
        requires { (q : List ℕ) (n : ℕ) → is_noted index.old q n k ≡ true → is_phase (lookup (bytes_eq q) self.now) n ≡ true }
        ensures { IsNotedAnew index.old index.new k (λ q n. false) }
    {
        forget_each(&self.items, index, k);
    }

    /// Is a member of nothing any more.
    pub(crate) fn clear(&mut self)
        ensures { self.new ≡ [] }
    {
        self.items.clear();
    }
}
