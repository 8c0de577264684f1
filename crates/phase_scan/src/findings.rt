// What the loads of a collect found.
ghost use Rattle.std.specs.Prelude.{◌≡◌, ℕ, ◌+◌, ◌<◌, ◌*◌, ◌^◌, Some, None, false, ◌||◌, IfOk, IfSome, length, vec_len};
ghost use Rattle.armus_base.specs.CheckedPlans.{IsCheckedPlan};
ghost use Rattle.armus_base.specs.Finals.{is_event_of};
ghost use Rattle.armus_base.specs.States.{updated};
ghost use Rattle.armus_base.specs.calls.StatusLists.{AreNexts};
ghost use Rattle.board.specs.calls.Seats.{IsOf};
ghost use Rattle.board.specs.calls.Views.{found_of};
ghost use Rattle.phase_scan.specs.calls.Collects.{LoadsRows, waiting_on};

use crate::phase_table::PhaseTable;
use armus_base::{
    Event, List, NoMemory, Phase, PhaserId, ShowsTasks, Status, TaskId, fill_nexts, list_statuses,
};
use board::{Board, Loads, Seen};
use std::alloc::Global;

#[derive(Drop)]
pub(crate) struct Findings {
    pub(crate) tasks: u32,
    pub(crate) phasers: u32,
    // the event on which each task was found waiting, if it was
    pub(crate) events: Vec<Option<Event>>,
    // whether a task was found waiting on an event of each phaser
    pub(crate) awaited: Vec<bool>,
    // from each phaser on the first one found awaited
    nexts: Vec<u32>,
    phases: PhaseTable,
    ghost task_count: { vec_len events ≡ tasks },
    ghost phaser_count: { vec_len awaited ≡ phasers },
    ghost next_count: { vec_len nexts ≡ phasers + 1 },
    ghost rows: { phases.tasks ≡ tasks },
    ghost columns: { phases.phasers ≡ phasers },
}

// The event on which a task was found waiting.
fn waiting(seen: Seen) -> Option<Event>
    ensures { result ≡ waiting_on (found_of seen) }
{
    match seen {
        Seen::Waits(event) => Some(event),
        Seen::Idle | Seen::Refused(_) => None,
    }
}

impl Findings {
    ghost use Rattle.phase_scan.specs.calls.Supposed.{phase_used};
    ghost use Rattle.phase_scan.specs.calls.Tables.{awaited_in_findings, event_for, state_of_findings, statuses_of_findings};
    ghost use Rattle.phase_scan.specs.inside.Filling.{HasSameEvents, KeepsAwaits, KeepsRow};

    /// No task was found waiting.
    pub(crate) fn new(alloc: Global, tasks: u32, phasers: u32) -> Result<Findings, NoMemory>
        requires fits { tasks * phasers < 2 ^ 32 }
        ensures tasks { IfOk result (λ f. f.tasks ≡ tasks) }
        ensures phasers { IfOk result (λ f. f.phasers ≡ phasers) }
        ensures nothing { IfOk result (λ f. (t : ℕ) → (state_of_findings f).published t ≡ None) }
        ensures unmarked { IfOk result (λ f. (p : ℕ) → awaited_in_findings f p ≡ false) }
    {
        Ok(Findings {
            tasks,
            phasers,
            events: vec![in alloc; None; tasks as usize]?,
            awaited: vec![in alloc; false; phasers as usize]?,
            nexts: vec![in alloc; 0; phasers as usize + 1]?,
            phases: PhaseTable::new(alloc, tasks as usize, phasers as usize)?,
        })
    }

    /// No phaser is marked as awaited.
    pub(crate) fn unmark(&mut self)
        ensures unmarked { (p : ℕ) → awaited_in_findings self.new p ≡ false }
        ensures tasks { self.new.tasks ≡ self.old.tasks }
        ensures phasers { self.new.phasers ≡ self.old.phasers }
    {
        for p in 0..self.awaited.len() {
            self.awaited[p] = false;
        }
    }

    // Keeps what the await word of a task was found to say.
    fn keep_event(&mut self, t: TaskId, event: Option<Event>)
        requires task { t.0 < self.old.tasks }
        requires phaser { IfSome event (λ e. e.p.0 < self.old.phasers) }
        ensures tasks { self.new.tasks ≡ self.old.tasks }
        ensures phasers { self.new.phasers ≡ self.old.phasers }
        ensures events { event_for self.new.events.items ≡ updated (event_for self.old.events.items) t.0 event }
        ensures awaited { (p : ℕ) → awaited_in_findings self.new p ≡ (is_event_of p event || awaited_in_findings self.old p) }
    {
        self.events[t.0 as usize] = event;
        if let Some(event) = event {
            self.awaited[event.p.0 as usize] = true;
        }
    }

    /// Loads the await words of all tasks, in order, and notes which phasers come next among those found awaited.
    pub(crate) fn load_awaits<L: Loads>(&mut self, by: &mut L, board: &Board)
        requires made { IsOf (L.known by.old) board.now }
        requires tasks { self.old.tasks ≡ length board.now.plan.parents }
        requires phasers { self.old.phasers ≡ length board.now.plan.makers }
        requires unmarked { (p : ℕ) → awaited_in_findings self.old p ≡ false }
        ensures checked { IsCheckedPlan board.now.plan }
        ensures made { IsOf (L.known by.new) board.now }
        ensures awaits { KeepsAwaits self.old self.new (L.known by.old) (L.known by.new) }
        ensures nexts { AreNexts (awaited_in_findings self.new) self.new.phasers self.new.nexts.items }
    {
        for number in 0..board.tasks() {
            let t = TaskId(number);
            let seen = by.load_await(board, t);
            self.keep_event(t, waiting(seen));
        }
        fill_nexts(self.nexts.as_mut_slice(), self.awaited.as_slice());
    }

    // Loads the phase words of a task on the phasers found awaited, in order.
    fn load_row<L: Loads>(&mut self, by: &mut L, board: &Board, t: TaskId)
        requires made { IsOf (L.known by.old) board.now }
        requires tasks { self.old.tasks ≡ length board.now.plan.parents }
        requires phasers { self.old.phasers ≡ length board.now.plan.makers }
        requires task { t.0 < self.old.tasks }
        requires nexts { AreNexts (awaited_in_findings self.old) self.old.phasers self.old.nexts.items }
        ensures made { IsOf (L.known by.new) board.now }
        ensures same { HasSameEvents self.old self.new }
        ensures row { KeepsRow self.old self.new t.0 (L.known by.old) (L.known by.new) }
    {
        let mut p = self.nexts[0];
        'row: while p < self.phasers {
            let found = by.load_phase(board, t, PhaserId(p));
            self.phases.set(t.0 as usize, p as usize, found);
            p = self.nexts[p as usize + 1];
        }
    }

    /// Loads the phase words of each task found waiting on the phasers found awaited, in order.
    pub(crate) fn load_rows<L: Loads>(&mut self, by: &mut L, board: &Board)
        requires made { IsOf (L.known by.old) board.now }
        requires tasks { self.old.tasks ≡ length board.now.plan.parents }
        requires phasers { self.old.phasers ≡ length board.now.plan.makers }
        requires nexts { AreNexts (awaited_in_findings self.old) self.old.phasers self.old.nexts.items }
        ensures same { HasSameEvents self.old self.new }
        ensures loads { LoadsRows self.old.phasers (awaited_in_findings self.old) (state_of_findings self.new) self.old.tasks (L.known by.old) (L.known by.new) }
    {
        for number in 0..self.tasks {
            if self.events[number as usize].is_some() {
                self.load_row(by, board, TaskId(number));
            }
        }
    }

    /// How many words were loaded, up to 2^64 - 1.
    pub(crate) fn loads(&self) -> u64 {
        let rows = self.waiting_tasks();
        let columns = self.awaited_phasers();
        u64::from(self.tasks).saturating_add(rows.saturating_mul(columns))
    }

    // How many tasks were found waiting.
    fn waiting_tasks(&self) -> u64 {
        self.events.iter().filter(|event| event.is_some()).count() as u64
    }

    // How many phasers were found awaited.
    fn awaited_phasers(&self) -> u64 {
        self.awaited.iter().filter(|awaited| **awaited).count() as u64
    }

    /// The phase of a task on `p` that counts, if it was found waiting: where `p` was found awaited that which was found then, and else this one, which was
    /// loaded later.
    pub(crate) fn phase_used(&self, t: TaskId, p: PhaserId, loaded: Option<Phase>) -> Option<Phase>
        requires task { t.0 < self.now.tasks }
        requires phaser { p.0 < self.now.phasers }
        ensures { result ≡ phase_used (awaited_in_findings self.now p.0) (state_of_findings self.now) p.0 (λ u. loaded) t.0 }
    {
        if self.events[t.0 as usize].is_none() {
            return None;
        }
        if self.awaited[p.0 as usize] {
            return self.phases.get(t.0 as usize, p.0 as usize);
        }
        loaded
    }

    /// The statuses of what was found.
    pub(crate) fn statuses(&self, alloc: Global) -> Result<List<Status>, NoMemory>
        ensures { IfOk result (λ list. list ≡ statuses_of_findings self.now) }
    {
        list_statuses(alloc, self, self.awaited.as_slice())
    }
}

impl ShowsTasks for Findings {
    ghost use Rattle.phase_scan.specs.calls.Tables.{state_of_findings};

    ghost tasks = { λ f. f.tasks };

    ghost phasers = { λ f. f.phasers };

    ghost state = { state_of_findings };

    fn tasks(&self) -> u32 {
        self.tasks
    }

    fn phasers(&self) -> u32 {
        self.phasers
    }

    fn published(&self, t: TaskId) -> Option<Event> {
        self.events[t.0 as usize]
    }

    fn phase(&self, t: TaskId, p: PhaserId) -> Option<Phase> {
        self.phases.get(t.0 as usize, p.0 as usize)
    }
}
