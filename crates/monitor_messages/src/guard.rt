// The guard: a wait by which its task would be stuck is refused.
ghost use Rattle.std.specs.Prelude.{◌≡◌, ◌<◌, ◌++◌, ℕ, List, Option, true, false, IfNone, IfOk, IfSome, OnOk, length};
ghost use Rattle.std.specs.List.{list_any};
ghost use Rattle.monitor_laws.specs.Lines.{Announces, TraceLine as Line, Waits};
ghost use Rattle.monitor_laws.specs.States.{TraceState, after_line};
ghost use Rattle.monitor_reasons.specs.Found.{participant_at};
ghost use Rattle.monitor_search.specs.Known.{AreStuckAfter, AreStuckTasks, KeepsStuck};
ghost use Rattle.monitor_words.specs.Messages.{IsWaitLine};
ghost use Rattle.trace_lines.specs.Values.{line_value, place_value};
ghost use Rattle.monitor_messages.specs.inside.Changes.{IsKnownBefore};
ghost use Rattle.monitor_messages.specs.inside.Guarded.{AnswersWait, RefusesWait, StandsBack, is_stuck_as};
ghost use Rattle.monitor_messages.specs.inside.Taken.{IsTaken};

use crate::known_state::{KnownState, told_by, told_change};
use armus_base::NoMemory;
use monitor_reasons::{reason_of, sentence_of};
use monitor_search::{StuckTasks, stuck_after};
use monitor_state::MonitorState;
use monitor_words::{FaultOfLine, put_answer, put_refusal};
use std::alloc::Global;
use std::mem;
use trace_lines::{Announcement, TraceLine};

// The place in the list of a stuck task that is there with the name t.
fn stuck_place(state: &MonitorState, stuck: &StuckTasks, t: &[u8]) -> Option<usize>
    ensures at { IfSome result (λ i. (i < length state.now.list) × (is_stuck_as stuck.now t.now (participant_at state.now.list i) ≡ true)) }
    ensures none { IfNone result (list_any (is_stuck_as stuck.now t.now) state.now.list ≡ false) }
{
    let list = state.participants();
    match state.place_of(t) {
        None => None,
        Some(at) => {
            if stuck.has_number(list[at].number()) {
                Some(at)
            } else {
                None
            }
        }
    }
}

// Appends the answer that the task at this place must not wait, since it would be stuck.
fn put_refused(
    alloc: Global,
    out: &mut Vec<u8>,
    state: &MonitorState,
    stuck: &StuckTasks,
    task: usize,
) -> Result<(), NoMemory>
    requires { task < length state.now.list }
    ensures { OnOk result ((words : List ℕ) × (out.new.items ≡ out.old.items ++ words) × RefusesWait state.now stuck.now (participant_at state.now.list task) words) }
{
    let found = reason_of(alloc, state, stuck, task)?;
    let sentence = sentence_of(alloc, state, task, &found)?;
    put_refusal(alloc, out, &sentence)
}

// Appends the answer of the guard to the wait of t, and answers whether it is refused. The state is the one behind the wait, with those that are stuck in it.
fn put_wait_answer(
    alloc: Global,
    out: &mut Vec<u8>,
    state: &MonitorState,
    stuck: &StuckTasks,
    t: &[u8],
) -> Result<bool, NoMemory>
    ensures { IfOk result (λ refuses. AnswersWait state.now stuck.now t.now out.old.items out.new.items refuses) }
{
    match stuck_place(state, stuck, t) {
        None => {
            put_answer(out, t)?;
            Ok(false)
        }
        Some(task) => {
            put_refused(alloc, out, state, stuck, task)?;
            Ok(true)
        }
    }
}

// The state behind a wait of t becomes the one in which t says only that it is at this place; appends what is told of that, and answers who is stuck then.
fn stand_back(
    alloc: Global,
    out: &mut Vec<u8>,
    state: &mut MonitorState,
    was: StuckTasks,
    t: &[u8],
    place: Option<&[u8]>,
) -> Result<StuckTasks, NoMemory>
    ensures { IfOk result (λ stuck. (s : TraceState) (p : List ℕ) (n : ℕ) → IsKnownBefore s (Announces t.now (Waits p n) (place_value place.entry)) was state.old →
        StandsBack s t.now (place_value place.entry) was state.new stuck out.old.items out.new.items) }
{
    let go = TraceLine::Announces(t, Announcement::Goes, None);
    state.take_line(alloc, &go)?;
    let stands = TraceLine::Announces(t, Announcement::Stands, place);
    let (stuck, _) = told_change(alloc, out, state, &stands, was, false)?;
    Ok(stuck)
}

// Those that are stuck now: those that were found, or else the same as before.
fn stuck_now<'k>(found: &'k Option<StuckTasks>, was: &'k StuckTasks) -> &'k StuckTasks
    ensures { (s after : TraceState) (l : Line) → IfNone found.now (KeepsStuck after l was.now) → IfSome found.now (AreStuckAfter after l was.now) → IsKnownBefore s l was.now after → AreStuckTasks after result.now }
{
    match found {
        None => was,
        Some(known) => known,
    }
}

// Of a wait the name of its task and its place; nothing of another line.
fn wait_of<'a>(line: &TraceLine<'a>) -> Option<(&'a [u8], Option<&'a [u8]>)>
    ensures some { IfSome result (λ w. (p : List ℕ) × (n : ℕ) × (line_value line.now ≡ Announces w.0.now (Waits p n) (place_value w.1))) }
    ensures none { IfNone result ((t : List ℕ) → IsWaitLine (line_value line.now) t → ⊥) }
{
    match line {
        TraceLine::Announces(t, what, place) => match what {
            Announcement::Waits(_, _) => Some((t, *place)),
            Announcement::Joins(_, _)
            | Announcement::Arrives(_)
            | Announcement::Leaves(_)
            | Announcement::Goes
            | Announcement::Ends
            | Announcement::Stands => None,
        },
        TraceLine::SaysNothing
        | TraceLine::AsksReport
        | TraceLine::AsksList
        | TraceLine::AreGone(_)
        | TraceLine::PlaysAny(_)
        | TraceLine::PlaysOneOf(_, _) => None,
    }
}

impl KnownState {
    // Takes the wait of t, or refuses it, and answers whether somebody is told or refused; or its first fault.
    fn take_wait<'a>(
        &mut self,
        alloc: Global,
        out: &mut Vec<u8>,
        line: &TraceLine<'a>,
        t: &[u8],
        place: Option<&[u8]>,
    ) -> Result<Result<bool, FaultOfLine<'a>>, NoMemory>
        requires line { (p : List ℕ) × (n : ℕ) × (line_value line.now ≡ Announces t.now (Waits p n) (place_value place)) }
        ensures { IfOk result (λ end. IsTaken true self.old (line_value line.now) self.new out.old.items out.new.items end) }
    {
        let KnownState { mut state, stuck } = mem::replace(self, KnownState::new(alloc));
        if let Some(fault) = state.take_line(alloc, line)? {
            *self = KnownState { state, stuck };
            return Ok(Err(fault));
        }
        let found = stuck_after(alloc, &state, line, &stuck)?;
        let mut answer = Vec::new(alloc);
        let judged = stuck_now(&found, &stuck);
        if put_wait_answer(alloc, &mut answer, &state, judged, t)? {
            let stuck = stand_back(alloc, out, &mut state, stuck, t, place)?;
            out.extend_from_slice(&answer)?;
            *self = KnownState { state, stuck };
            return Ok(Ok(true));
        }
        let (stuck, told) = told_by(alloc, out, &state, line, stuck, found)?;
        out.extend_from_slice(&answer)?;
        *self = KnownState { state, stuck };
        Ok(Ok(told))
    }

    /// Takes a line with the guard, appends the message and the answer that it calls for, and answers whether somebody is told or refused; or its first fault.
    pub(crate) fn take_guarded<'a>(
        &mut self,
        alloc: Global,
        out: &mut Vec<u8>,
        line: &TraceLine<'a>,
    ) -> Result<Result<bool, FaultOfLine<'a>>, NoMemory>
        ensures { IfOk result (λ end. IsTaken true self.old (line_value line.now) self.new out.old.items out.new.items end) }
    {
        match wait_of(line) {
            Some((t, place)) => self.take_wait(alloc, out, line, t, place),
            None => self.take_line(alloc, out, line),
        }
    }

    /// Takes a line, with the guard or without.
    pub(crate) fn take<'a>(
        &mut self,
        alloc: Global,
        out: &mut Vec<u8>,
        guards: bool,
        line: &TraceLine<'a>,
    ) -> Result<Result<bool, FaultOfLine<'a>>, NoMemory>
        ensures { IfOk result (λ end. IsTaken guards self.old (line_value line.now) self.new out.old.items out.new.items end) }
    {
        if guards {
            self.take_guarded(alloc, out, line)
        } else {
            self.take_line(alloc, out, line)
        }
    }
}
