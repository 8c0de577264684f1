// What tasks wait for.
ghost use Rattle.std.specs.Prelude.{◌≡◌, ◌==◌, ◌&&◌, Some, bytes_eq};
ghost use Rattle.std.specs.Option.{option_eq};
ghost use Rattle.monitor_words.specs.Stops.{waited_for};
ghost use Rattle.monitor_words.specs.Words.{wait_alike, waited_event};

use crate::places::is_same_place;
use monitor_state::{ListedCondition, ListedParticipant};

/// The phaser and the phase for which t waits; no name and 0 where it does not wait.
pub(crate) fn waited_event(t: &ListedParticipant) -> (&[u8], u32)
    ensures phaser { result.0.now ≡ (waited_event t.now).0 }
    ensures phase { result.1 ≡ (waited_event t.now).1 }
{
    match t.condition() {
        ListedCondition::Waiting(p, n) => (p, *n),
        _ => (b"", 0),
    }
}

// Whether u waits for phase n of phaser p.
fn waits_for(u: &ListedParticipant, p: &[u8], n: u32) -> bool
    ensures { result ≡ option_eq (λ d e. bytes_eq d.0 e.0 && (d.1 == e.1)) (Some (p.now, n)) (waited_for u.now.condition) }
{
    match u.condition() {
        ListedCondition::Waiting(q, m) => p == q.as_slice() && n == *m,
        _ => false,
    }
}

// Whether two wait for the same phase of the same phaser, or both for nothing.
fn is_same_event(t: &ListedParticipant, u: &ListedParticipant) -> bool
    ensures { result ≡ option_eq (λ d e. bytes_eq d.0 e.0 && (d.1 == e.1)) (waited_for t.now.condition) (waited_for u.now.condition) }
{
    match t.condition() {
        ListedCondition::Waiting(p, n) => waits_for(u, p, *n),
        _ => !u.condition().waits(),
    }
}

/// Whether two tasks stand in one row.
pub(crate) fn wait_alike(t: &ListedParticipant, u: &ListedParticipant) -> bool
    ensures { result ≡ wait_alike t.now u.now }
{
    is_same_event(t, u) && is_same_place(t.place(), u.place())
}
