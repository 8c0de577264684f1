// What an op makes of the phases.
ghost use Rattle.std.specs.Prelude.{◌≡◌, ℕ, ◌+◌, ◌<◌, ◌^◌, Some};
ghost use Rattle.armus_base.specs.States.{next_phase};
ghost use Rattle.pl_core.specs.inside.Effects.{HasRoomFor};
ghost use Rattle.pl_core.specs.inside.Ops.{action_of, phases_moved};
ghost use Rattle.pl_core.specs.inside.PhaseTables.{KeepsCells, phases_in};

use crate::phase_table::MemberTable;
use armus_base::{Op, Phase};

// One phase more.
fn raised(phase: Option<Phase>) -> Option<Phase>
    requires { (n : ℕ) → phase ≡ Some n → n + 1 < 2 ^ 32 }
    ensures { result ≡ next_phase phase }
{
    match phase {
        Some(n) => Some(n + 1),
        None => None,
    }
}

/// The phases after task `t` has begun the op.
pub(crate) fn move_phases(phases: &mut MemberTable, t: usize, op: Op)
    requires task { t < 2 ^ 32 }
    requires room { HasRoomFor phases.old t op }
    ensures phasers { phases.new.phasers ≡ phases.old.phasers }
    ensures cells { KeepsCells phases.old phases.new }
    ensures moved { phases_in phases.new ≡ phases_moved (phases_in phases.old) t (action_of op) }
{
    match op {
        Op::Make { p } => phases.set(t, p.0 as usize, Some(0)),
        Op::Reg { c, p } => {
            let phase = phases.get(t, p.0 as usize);
            phases.set(c.0 as usize, p.0 as usize, phase);
        }
        Op::Adv { p } => {
            let phase = phases.get(t, p.0 as usize);
            phases.set(t, p.0 as usize, raised(phase));
        }
        Op::Drop { p } => phases.set(t, p.0 as usize, None),
        Op::Fork { .. } | Op::Await { .. } => {}
    }
}
