// How far from its own phase a task awaits.
ghost use Rattle.std.specs.Prelude.{◌≡◌, ◌≤◌};
ghost use Rattle.armus_base.specs.Limits.{max_ops};
ghost use Rattle.armus_base.specs.Offsets.{target};

use crate::Phase;

/// How far from its own phase on a phaser a task awaits: at it, so many phases back, or so many ahead (PPoPP 2015 has `Here` alone; the others are this
/// project's own).
#[derive(Clone, Copy, Debug, PartialEq, Eq)]
pub enum Offset {
    /// At the own phase.
    Here,
    /// So many phases back, but at 0 at the least.
    Back(u16),
    /// So many phases ahead.
    Ahead(u16),
}

impl Offset {
    /// The phase that a member at phase `m` awaits.
    pub fn target(self, m: Phase) -> Phase
        requires { m ≤ max_ops }
        ensures { result ≡ target self m }
    {
        match self {
            Offset::Here => m,
            Offset::Back(k) => m.saturating_sub(k as u32),
            Offset::Ahead(k) => m + k as u32,
        }
    }
}
