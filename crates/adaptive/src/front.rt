// The first standing on a phaser whose task remains.
ghost use Rattle.std.specs.Prelude.{◌<◌, All, MatchBool, length};
ghost use Rattle.adaptive.specs.inside.Standings.{IsStandingBelow, IsFront, IsPassed, IsStop};

use crate::standings::PhaseStanding;
use armus_base::{Event, PhaserId};

// Whether the standing is passed over: it is on an earlier phaser, or its task does not remain.
fn is_passed(standing: PhaseStanding, remains: &[bool], p: PhaserId) -> bool
    requires { standing.status < length remains.now }
    ensures { MatchBool result (IsPassed remains.now p.0 standing) (IsPassed remains.now p.0 standing → ⊥) }
{
    standing.at.p.0 < p.0 || (standing.at.p.0 == p.0 && !remains[standing.status as usize])
}

/// The index of the first standing on phaser `p`, or on a later one, whose task remains, from one ahead of which none on `p` does.
pub(crate) fn front_from(
    standings: &[PhaseStanding],
    remains: &[bool],
    p: PhaserId,
    from: usize,
) -> usize
    requires within { All (λ x. x.status < length remains.now) standings.now }
    requires front { IsFront standings.now remains.now p.0 from }
    ensures front { IsFront standings.now remains.now p.0 result }
    ensures stop { IsStop standings.now remains.now p.0 result }
{
    let mut front = from;
    'pass: while front < standings.len() && is_passed(standings[front], remains, p) {
        front += 1;
    }
    front
}

/// Whether some task that remains stands on the event's phaser at a phase below, by the first one that does.
pub(crate) fn is_impeded_at(standings: &[PhaseStanding], front: usize, event: Event) -> bool
    ensures { MatchBool result (IsStandingBelow standings.now front event) (IsStandingBelow standings.now front event → ⊥) }
{
    front < standings.len() && standings[front].at.p == event.p && standings[front].at.n < event.n
}
