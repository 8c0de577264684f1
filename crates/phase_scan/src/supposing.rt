// What was found, with the status that a task would have.
ghost use Rattle.std.specs.Prelude.{◌≡◌, ℕ, ◌<◌, true, Some, None, IfOk, is_some, length};
ghost use Rattle.armus_base.specs.calls.StatusLists.{is_marked};
ghost use Rattle.armus_base.specs.States.{updated};
ghost use Rattle.board.specs.calls.Seats.{AnswersPhase, IsOf};
ghost use Rattle.board.specs.calls.Steps.{own_phase};
ghost use Rattle.phase_scan.specs.calls.Collects.{IfAsked};
ghost use Rattle.phase_scan.specs.calls.Tables.{event_for};
ghost use Rattle.phase_scan.specs.inside.Phases.{phase_in};
ghost use Rattle.phase_scan.specs.inside.Supposing.{KeepsColumn, awaited_too, statuses_supposed};

use crate::findings::Findings;
use crate::supposed_findings::SupposedFindings;
use armus_base::{Event, List, NoMemory, Phase, PhaserId, Status, TaskId, list_statuses};
use board::{Board, Loads, TaskSeat};
use std::alloc::Global;

// Keeps a phase in a row or a column of them.
fn keep(phases: &mut [Option<Phase>], k: usize, phase: Option<Phase>)
    requires inside { k < length phases.old }
    ensures count { length phases.new ≡ length phases.old }
    ensures set { phase_in phases.new ≡ updated (phase_in phases.old) k phase }
{
    phases[k] = phase;
}

// The own phases on the marked phasers; on the others there is none.
fn own_phases(
    alloc: Global,
    seat: &mut TaskSeat,
    board: &Board,
    marks: &[bool],
) -> Result<Vec<Option<Phase>>, NoMemory>
    requires made { IsOf seat.old board.now }
    requires phasers { length marks.now ≡ length board.now.plan.makers }
    ensures seat { seat.new ≡ seat.old }
    ensures count { IfOk result (λ own. length own.items ≡ length marks.now) }
    ensures phases { IfOk result (λ own. (p : ℕ) → is_marked marks.now p ≡ true → phase_in own.items p ≡ own_phase seat.old.view p) }
{
    let mut own = vec![in alloc; None; marks.len()]?;
    for number in 0..board.phasers() {
        if marks[number as usize] {
            let phase = seat.phase(board, PhaserId(number));
            keep(own.as_mut_slice(), number as usize, phase);
        }
    }
    Ok(own)
}

impl Findings {
    // Loads the phase of a task on `p`, if it was found waiting.
    fn load_waiting(
        &self,
        seat: &mut TaskSeat,
        board: &Board,
        t: TaskId,
        p: PhaserId,
    ) -> Option<Phase>
        requires made { IsOf seat.old board.now }
        requires tasks { self.now.tasks ≡ length board.now.plan.parents }
        requires task { t.0 < self.now.tasks }
        requires phaser { p.0 < length board.now.plan.makers }
        ensures made { IsOf seat.new board.now }
        ensures load { IfAsked (is_some (event_for self.now.events.items t.0)) (AnswersPhase t.0 p.0 result) seat.old seat.new }
    {
        if self.events[t.0 as usize].is_some() {
            seat.load_phase(board, t, p)
        } else {
            None
        }
    }

    /// Loads the phase on `p` of each task found waiting, in order, and keeps of each the phase that counts.
    pub(crate) fn load_column(
        &self,
        column: &mut [Option<Phase>],
        seat: &mut TaskSeat,
        board: &Board,
        p: PhaserId,
    )
        requires made { IsOf seat.old board.now }
        requires tasks { self.now.tasks ≡ length board.now.plan.parents }
        requires phasers { self.now.phasers ≡ length board.now.plan.makers }
        requires phaser { p.0 < length board.now.plan.makers }
        requires count { length column.old ≡ self.now.tasks }
        ensures made { IsOf seat.new board.now }
        ensures count { length column.new ≡ self.now.tasks }
        ensures keeps { KeepsColumn self.now p.0 column.new self.now.tasks seat.old seat.new }
    {
        for number in 0..self.tasks {
            let t = TaskId(number);
            let loaded = self.load_waiting(seat, board, t, p);
            let used = self.phase_used(t, p, loaded);
            keep(column, number as usize, used);
        }
    }

    // Which phasers were found awaited, and this one.
    fn awaited_too(&self, p: PhaserId) -> Result<Vec<bool>, NoMemory>
        requires phaser { p.0 < self.now.phasers }
        ensures count { IfOk result (λ marks. length marks.items ≡ self.now.phasers) }
        ensures marks { IfOk result (λ marks. is_marked marks.items ≡ awaited_too self.now p.0) }
    {
        let mut marks = self.awaited.clone()?;
        marks[p.0 as usize] = true;
        Ok(marks)
    }

    /// The statuses of what was found, where task `t` has published the event, with this column of phases on the event's phaser.
    pub(crate) fn supposed(
        &self,
        alloc: Global,
        seat: &mut TaskSeat,
        board: &Board,
        t: TaskId,
        event: Event,
        column: &[Option<Phase>],
    ) -> Result<List<Status>, NoMemory>
        requires made { IsOf seat.old board.now }
        requires phasers { self.now.phasers ≡ length board.now.plan.makers }
        requires event { event.p.0 < self.now.phasers }
        requires count { length column.now ≡ self.now.tasks }
        ensures seat { seat.new ≡ seat.old }
        ensures statuses { IfOk result (λ list. list ≡ statuses_supposed self.now t.0 event (own_phase seat.old.view) column.now) }
    {
        let marks = self.awaited_too(event.p)?;
        let own = own_phases(alloc, seat, board, &marks)?;
        let supposed = SupposedFindings {
            found: self,
            t,
            event,
            own: own.as_slice(),
            column,
        };
        list_statuses(alloc, &supposed, &marks)
    }
}
