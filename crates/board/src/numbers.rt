// Events and phases as numbers in words.
ghost use Rattle.std.specs.Prelude.{◌≡◌, ◌<◌, ◌≤◌, ◌^◌, ℕ, Option};
ghost use Rattle.armus_base.specs.declared.event.Event.{Event as EventValue};
ghost use Rattle.armus_base.specs.calls.Seats.{Found, FoundRefused};
ghost use Rattle.armus_base.specs.calls.Limits.{max_awaited};
ghost use Rattle.armus_base.specs.Limits.{max_phasers};
ghost use Rattle.board.specs.calls.Words.{event_number, await_number, phase_number, IsInRange};
ghost use Rattle.board.specs.calls.Views.{found_of};

use crate::seen::Seen;
use armus_base::{Event, Phase, PhaserId};

// One more than the greatest phase that a word can say.
const PHASES: u64 = 1 << 32;

// What is added to the number of an event at which a task was refused.
const REFUSED: u64 = 1 << 63;

/// The event as a number.
pub(crate) fn event_number(event: Event) -> u64
    requires { event.p.0 < max_phasers }
    ensures { result ≡ event_number event }
{
    (u64::from(event.p.0) + 1) * PHASES + u64::from(event.n)
}

/// The number of an event at which a task is refused.
pub(crate) fn refused_number(event: Event) -> u64
    requires { event.p.0 < max_phasers }
    ensures { result ≡ await_number (FoundRefused event) }
{
    event_number(event) + REFUSED
}

/// The event with this number.
fn event_of(number: u64) -> Event
    requires { (e : EventValue) × (e.p.0 < max_phasers) × (e.n ≤ max_awaited) × (number ≡ event_number e) }
    ensures { (e : EventValue) → e.p.0 < max_phasers → e.n ≤ max_awaited → number ≡ event_number e → result ≡ e }
{
    Event {
        p: PhaserId((number / PHASES - 1) as u32),
        n: (number % PHASES) as u32,
    }
}

/// What an await word says.
pub(crate) fn seen_of(word: u64) -> Seen
    requires { (f : Found) × IsInRange f × (word ≡ await_number f) }
    ensures { (f : Found) → IsInRange f → word ≡ await_number f → found_of result ≡ f }
{
    if word == 0 {
        Seen::Idle
    } else if word < REFUSED {
        Seen::Waits(event_of(word))
    } else {
        Seen::Refused(event_of(word - REFUSED))
    }
}

/// What a phase word says.
pub(crate) fn phase_of(word: u64) -> Option<Phase>
    requires { word < 2 ^ 32 }
    ensures { (o : Option ℕ) → word ≡ phase_number o → result ≡ o }
{
    if word == 0 {
        None
    } else {
        Some((word - 1) as u32)
    }
}
