// What excludes, without a search, that the own task lies on a cycle of what was found.
ghost use Rattle.std.specs.Prelude.{◌≡◌, ℕ, ◌↔◌, ◌<◌, IsTrue, IfSome, Any, length};
ghost use Rattle.armus_base.specs.Finals.{is_event_of};
ghost use Rattle.armus_base.specs.Places.{some_before};
ghost use Rattle.board.specs.calls.Seats.{IsOf};
ghost use Rattle.board.specs.calls.Steps.{own_phase};
ghost use Rattle.phase_scan.specs.calls.Tables.{awaited_in_findings, event_for};
ghost use Rattle.phase_scan.specs.inside.Behind.{ExcludesCycle, IsBehind, IsBehindGiven};
ghost use Rattle.phase_scan.specs.inside.Phases.{phase_in};

use crate::findings::Findings;
use armus_base::{Event, Phase};
use board::{Board, TaskSeat};

// Whether a phase was found, and is below that of the event.
fn is_behind(found: Option<Phase>, event: Event) -> bool
    ensures { IsTrue result ↔ IsBehind found event }
{
    match found {
        Some(phase) => phase < event.n,
        None => false,
    }
}

// Whether a phase of the column is below that of the event.
fn has_behind(column: &[Option<Phase>], event: Event) -> bool
    ensures { IsTrue result ↔ Any (λ found. IsBehind found event) column.now }
{
    column.iter().any(|found| is_behind(*found, event))
}

// Whether the own task is behind the event, if there is one.
fn is_behind_given(seat: &mut TaskSeat, board: &Board, event: Option<Event>) -> bool
    requires made { IsOf seat.old board.now }
    requires phaser { IfSome event (λ e. e.p.0 < length board.now.plan.makers) }
    ensures seat { seat.new ≡ seat.old }
    ensures behind { IsTrue result ↔ IsBehindGiven (own_phase seat.old.view) event }
{
    match event {
        Some(event) => is_behind(seat.phase(board, event.p), event),
        None => false,
    }
}

impl Findings {
    // Whether the own task is behind an event on which a task was found waiting.
    fn own_is_behind(&self, seat: &mut TaskSeat, board: &Board) -> bool
        requires made { IsOf seat.old board.now }
        requires phasers { self.now.phasers ≡ length board.now.plan.makers }
        requires marked { (p : ℕ) → awaited_in_findings self.now p ≡ some_before (λ t. is_event_of p (event_for self.now.events.items t)) self.now.tasks }
        ensures seat { seat.new ≡ seat.old }
        ensures none { (IsTrue result → ⊥) → (u : ℕ) → u < self.now.tasks → IsBehindGiven (own_phase seat.old.view) (event_for self.now.events.items u) → ⊥ }
    {
        for number in 0..self.tasks {
            if is_behind_given(seat, board, self.events[number as usize]) {
                return true;
            }
        }
        false
    }

    /// Whether the own task, if it had published the event, would lie on no cycle of what was found, by this column of phases on the event's phaser: nobody
    /// would impede the event, or the own task no event on which a task was found waiting.
    pub(crate) fn excludes_cycle(
        &self,
        seat: &mut TaskSeat,
        board: &Board,
        event: Event,
        column: &[Option<Phase>],
    ) -> bool
        requires made { IsOf seat.old board.now }
        requires phasers { self.now.phasers ≡ length board.now.plan.makers }
        requires marked { (p : ℕ) → awaited_in_findings self.now p ≡ some_before (λ t. is_event_of p (event_for self.now.events.items t)) self.now.tasks }
        requires event { event.p.0 < length board.now.plan.makers }
        ensures seat { seat.new ≡ seat.old }
        ensures excludes { IsTrue result → ExcludesCycle (event_for self.now.events.items) self.now.tasks event (own_phase seat.old.view) (phase_in column.now) }
    {
        if is_behind_given(seat, board, Some(event)) {
            return false;
        }
        if !has_behind(column, event) {
            return true;
        }
        !self.own_is_behind(seat, board)
    }
}
