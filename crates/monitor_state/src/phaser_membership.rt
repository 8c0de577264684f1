// A membership of a phaser.
ghost use Rattle.std.specs.Prelude.{◌≡◌};
ghost use Rattle.monitor_state.specs.inside.Endings.{name_ending};

use std::alloc::{AllocError, Global};
use std::marker::Model;

/// A membership: the name of the phaser, and the phase on it.
#[derive(Drop)]
pub struct PhaserMembership {
    phaser: Vec<u8>,
    ending: u32,
    phase: u32,
}

impl Model for PhaserMembership {
    ghost use Rattle.std.specs.Prelude.{◌≡◌, ℕ, List};
    ghost use Rattle.monitor_state.specs.inside.Endings.{name_ending};

    ghost Value = { List ℕ × ℕ };

    ghost view = { λ m. (m.phaser.items, m.phase) };

    ghost invariant = { λ m. m.ending ≡ name_ending m.phaser.items };
}

/// The last four bytes of a name as a number, 0 of a shorter one. Names that differ mostly differ there, so these are compared first.
pub(crate) fn name_ending(name: &[u8]) -> u32
    ensures { result ≡ name_ending name.now }
{
    match name.last_chunk::<4>() {
        None => 0,
        Some(last) => u32::from_le_bytes(*last),
    }
}

impl PhaserMembership {
    ghost use Rattle.std.specs.Prelude.{◌≡◌, ◌<◌, ◌+◌, IfOk, bytes_eq};
    ghost use Rattle.monitor_laws.specs.Faults.{last_phase};

    /// A membership of phaser p with phase n.
    pub(crate) fn new(alloc: Global, p: &[u8], n: u32) -> Result<PhaserMembership, AllocError>
        ensures { IfOk result (λ m. m ≡ (p.now, n)) }
    {
        let phaser = Vec::from_slice(alloc, p)?;
        Ok(PhaserMembership {
            phaser,
            ending: name_ending(p),
            phase: n,
        })
    }

    /// Whether it is of phaser p, whose name has this ending.
    pub(crate) fn is_of(&self, p: &[u8], ending: u32) -> bool
        requires { ending ≡ name_ending p.now }
        ensures { result ≡ bytes_eq p.now self.now.0 }
    {
        self.ending == ending && p == self.phaser.as_slice()
    }

    /// The phase on it rises by one.
    pub(crate) fn arrive(&mut self)
        requires { self.old.1 < last_phase }
        ensures { self.new ≡ (self.old.0, self.old.1 + 1) }
    {
        self.phase += 1;
    }

    /// The name of the phaser.
    pub fn phaser(&self) -> &[u8]
        ensures { result.now ≡ self.now.0 }
    {
        &self.phaser
    }

    /// The phase on it.
    pub fn phase(&self) -> u32
        ensures { result ≡ self.now.1 }
    {
        self.phase
    }
}
