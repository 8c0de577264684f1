// Tasks that are put at positions.
ghost use Rattle.std.specs.Prelude.{◌≡◌, ◌≤◌, ◌<◌, ◌+◌, ◌^◌, length, All, AllPairs};
ghost use Rattle.order_graph.specs.inside.Rows.{AreSettled};

use armus_base::TaskId;

/// Puts tasks at the positions from `low` on.
pub(crate) fn settle(positions: &mut [u32], at: &mut [TaskId], low: u32, ts: &[TaskId])
    requires inside { length ts.now + low ≤ length at.old }
    requires few { length at.old < 2 ^ 32 }
    requires tasks { All (λ t. t.0 < length positions.old) ts.now }
    requires two { AllPairs (λ t u. t ≡ u → ⊥) ts.now }
    ensures { AreSettled low ts.now positions.old positions.new at.old at.new }
{
    for k in 0..ts.len() {
        let t = ts[k];
        let place = low + k as u32;
        at[place as usize] = t;
        positions[t.0 as usize] = place;
    }
}
