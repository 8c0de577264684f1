// The seat of a task.
ghost use Rattle.std.specs.Prelude.{◌≡◌, ◌+◌, ◌<◌, ◌≤◌, [], Some, None, length, IfOk, IsOk, IfErr, MatchBool, OnOk, IsSome, option_map, true, false};
ghost use Rattle.armus_base.specs.Limits.{max_tasks, max_ops};
ghost use Rattle.armus_base.specs.Offsets.{target};
ghost use Rattle.armus_base.specs.Plans.{Makes, Registers, Forks, Advances, Drops, Blocks, Refuses as RefusesAction};
ghost use Rattle.armus_base.specs.calls.Seats.{is_not_behind, seen_by_child, scanned_after};
ghost use Rattle.armus_base.specs.Runs.{first_place};
ghost use Rattle.board.specs.calls.Views.{avoids, found_of, next_action, own_place, seen, task_of};
ghost use Rattle.board.specs.calls.Rule.{first_view};
ghost use Rattle.board.specs.calls.Steps.{own_phase, viewer};
ghost use Rattle.board.specs.calls.Seats.{Known, IsOf, IsSeat, IsNewSeat, MakesStep, MayPublish, MayDrop, MakesPass, AnswersAwait, AnswersPhase, aim_at, event_of, nothing_seen};
ghost use Rattle.board.specs.inside.ByMembers.{NeedsMember};
ghost use Rattle.board.specs.inside.FirstViews.{IsFirstView};
ghost use Rattle.board.specs.calls.Locking.{FindsHeld, FreesLock, IsWithLock, MayRefuse, IsBeforeAwait, TakesLock};

use crate::board::Board;
use crate::busy::Busy;
use crate::loads::Loads;
use crate::numbers::{event_number, phase_of, refused_number};
use crate::place_loads::{load_await_by, load_phase_by};
use crate::plays::{
    Acts, Frees, Looks, Opens, Publishes, Recalls, Refuses, SeesUnforked, SplitsChild, Tries,
    Withdraws,
};
use crate::rule::TableSeat;
use crate::seen::Seen;
use armus_base::{Event, NoMemory, Offset, Phase, PhaserId, TaskId};
use std::alloc::Global;
use std::marker::Model;

/// The seat of a task: who has it makes the task's steps on the board. Contracts see of which board it is, and what it has seen.
#[derive(Drop)]
pub struct TaskSeat {
    place: TableSeat,
    task: TaskId,
    scanned: u32,
    awaited: Option<Event>,
}

impl Model for TaskSeat {
    ghost use Rattle.board.specs.calls.Seats.{Known};

    ghost Value = { Known };

    ghost use Rattle.board.specs.calls.Sitting.{known_of};
    ghost use Rattle.board.specs.inside.Sitting.{Sits};

    ghost view = { known_of };

    ghost invariant = { Sits };
}

// How many tasks are scanned after a load of the phase of `t` on `p`.
fn scanned_next(
    awaited: Option<Event>,
    scanned: u32,
    t: TaskId,
    p: PhaserId,
    found: Option<Phase>,
) -> u32
    requires { t.0 < max_tasks }
    ensures { result ≡ scanned_after awaited scanned t.0 p.0 found }
{
    let Some(event) = awaited else {
        return scanned;
    };
    let behind = match found {
        Some(phase) => phase < event.n,
        None => false,
    };
    if event.p == p && t.0 == scanned && !behind {
        t.0 + 1
    } else {
        scanned
    }
}

// Whether what was found is a phase below that of the event.
fn is_behind(found: Option<Phase>, event: Event) -> bool
    ensures { MatchBool result (is_not_behind found event ≡ false) (is_not_behind found event ≡ true) }
{
    match found {
        Some(phase) => phase < event.n,
        None => false,
    }
}

impl TaskSeat {
    // The seat of task 0, and the first viewer's place.
    pub(crate) fn begin(board: &Board, mut place: TableSeat) -> (TaskSeat, TableSeat)
        requires place { (place.table_id ≡ board.now.table) × (place.me.1 ≡ []) }
        requires first { IsFirstView board.now place.me.0 }
        ensures seat { IsNewSeat board.now (Some 0) (seen_by_child 0 nothing_seen) result.0 }
        ensures other { (result.1.table_id ≡ board.now.table) × (result.1.me ≡ (viewer place.me.0, [])) }
    {
        let other = board.cells.shared.split_seat::<Opens>(&mut place);
        let seat = TaskSeat {
            place,
            task: TaskId(0),
            scanned: 0,
            awaited: None,
        };
        (seat, other)
    }

    pub(crate) fn into_place(self) -> TableSeat
        ensures place { (result.table_id ≡ self.table) × (result.me ≡ (self.view, [])) }
        ensures seat { IsSeat self × IsSome self.view.own }
    {
        let TaskSeat {
            place,
            task: _,
            scanned: _,
            awaited: _,
        } = self;
        place
    }

    /// Its task.
    pub fn id(&self) -> TaskId
        ensures task { self.now.view.own ≡ Some result.0 }
        ensures seat { IsSeat self.now }
    {
        self.task
    }

    /// The published event, and None exactly where nothing is published. It makes no step.
    pub fn event(&self) -> Option<Event>
        ensures { result ≡ event_of self.now }
    {
        self.awaited
    }

    /// 0 where nothing is published. Else each member of the awaited phaser with a number below it is known to stand at the awaited phase or above.
    pub fn scanned(&self) -> u32
        ensures number { result ≡ (seen self.now.view).scanned }
        ensures idle { event_of self.now ≡ None → result ≡ 0 }
    {
        self.scanned
    }

    /// One load of its own word: its exact phase on `p`, or None where it is no member.
    pub fn phase(&mut self, board: &Board, p: PhaserId) -> Option<Phase>
        requires made { IsOf self.old board.now }
        requires phaser { p.0 < length board.now.plan.makers }
        ensures seat { self.new ≡ self.old }
        ensures phase { result ≡ own_phase self.old.view p.0 }
    {
        let index = board.phase_index(self.task, p);
        let word = board.cells.shared.load::<Recalls>(&mut self.place, index);
        phase_of(word)
    }

    /// The next op is Make: one store makes the phaser, of which the task is the one member, at phase 0.
    pub fn make(&mut self, board: &Board, p: PhaserId)
        requires made { IsOf self.old board.now }
        requires phaser { p.0 < length board.now.plan.makers }
        requires unlocked { self.old.view.holds ≡ false }
        requires next { next_action self.old.view ≡ Some (Makes p.0) }
        ensures step { MakesStep (Makes p.0) self.old self.new }
    {
        let index = board.phase_index(self.task, p);
        board.cells.shared.store::<Acts>(&mut self.place, index, 1);
    }

    /// The next op is Reg: one load of its own word and one store to the child's, which then is a member at the task's phase.
    pub fn reg(&mut self, board: &Board, c: TaskId, p: PhaserId)
        requires made { IsOf self.old board.now }
        requires child { c.0 < length board.now.plan.parents }
        requires phaser { p.0 < length board.now.plan.makers }
        requires unlocked { self.old.view.holds ≡ false }
        requires next { next_action self.old.view ≡ Some (Registers c.0 p.0) }
        ensures step { MakesStep (Registers c.0 p.0) self.old self.new }
    {
        let phase = self.member_phase(board, p);
        let index = board.phase_index(c, p);
        let word = u64::from(phase) + 1;
        board
            .cells
            .shared
            .store::<Acts>(&mut self.place, index, word);
    }

    /// The next op is Adv: one load and one store. It answers the new phase.
    pub fn adv(&mut self, board: &Board, p: PhaserId) -> Phase
        requires made { IsOf self.old board.now }
        requires phaser { p.0 < length board.now.plan.makers }
        requires unlocked { self.old.view.holds ≡ false }
        requires next { next_action self.old.view ≡ Some (Advances p.0) }
        ensures step { MakesStep (Advances p.0) self.old self.new }
        ensures phase { own_phase self.new.view p.0 ≡ Some result }
    {
        let phase = self.member_phase(board, p);
        let index = board.phase_index(self.task, p);
        let word = u64::from(phase) + 2;
        board
            .cells
            .shared
            .store::<Acts>(&mut self.place, index, word);
        phase + 1
    }

    /// The next op is Drop, or the seat is refused and `p` is the least phaser of which its task is a member: one store.
    pub fn drop_phaser(&mut self, board: &Board, p: PhaserId)
        requires made { IsOf self.old board.now }
        requires phaser { p.0 < length board.now.plan.makers }
        requires unlocked { self.old.view.holds ≡ false }
        requires next { MayDrop self.old p.0 }
        ensures step { MakesStep (Drops p.0) self.old self.new }
    {
        let index = board.phase_index(self.task, p);
        board.cells.shared.store::<Acts>(&mut self.place, index, 0);
    }

    /// The next op is Fork: the child's seat is split off, which has seen what this one has seen. It takes no memory, so it never answers `NoMemory`.
    pub fn fork(&mut self, alloc: Global, board: &Board, c: TaskId) -> Result<TaskSeat, NoMemory>
        requires made { IsOf self.old board.now }
        requires unlocked { self.old.view.holds ≡ false }
        requires next { next_action self.old.view ≡ Some (Forks c.0) }
        ensures step { OnOk result (MakesStep (Forks c.0) self.old self.new) }
        ensures child { IfOk result (λ child. IsNewSeat board.now (Some c.0) (seen_by_child c.0 (seen self.new.view)) child) }
        ensures first { IfOk result (λ child. own_place child.view ≡ first_place) }
        ensures always { IsOk result }
    {
        let _ = alloc;
        board.cells.shared.load::<SeesUnforked>(&mut self.place, 0);
        let place = board
            .cells
            .shared
            .split_seat::<SplitsChild>(&mut self.place);
        Ok(TaskSeat {
            place,
            task: c,
            scanned: 0,
            awaited: None,
        })
    }

    /// The next op is an Await of `p` with this offset that is not published: one load of its own phase, and one store of the event at the target of
    /// that, which it answers. On a board that avoids deadlock the seat also has the lock word, and its publication deadlocks nobody in any lawful
    /// state that has the lock with this seat and is as far on as what it has seen.
    pub fn publish(&mut self, board: &Board, p: PhaserId, off: Offset) -> Event
        requires made { IsOf self.old board.now }
        requires phaser { p.0 < length board.now.plan.makers }
        requires next { next_action self.old.view ≡ Some (Blocks (aim_at p.0 off)) }
        requires avoids { MayPublish self.old (aim_at p.0 off) }
        ensures step { MakesStep (Blocks (aim_at p.0 off)) self.old self.new }
        ensures event { event_of self.new ≡ Some result }
        ensures phase { (result.p ≡ p) × (option_map (target off) (own_phase self.old.view p.0) ≡ Some result.n) }
        ensures was { avoids self.old.view.mode ≡ true → IsWithLock self.old.view.plan (task_of self.old.view) (seen self.old.view) }
    {
        let phase = self.member_phase(board, p);
        let n = off.target(phase);
        let event = Event { p, n };
        let index = board.await_index(self.task);
        let word = event_number(event);
        board
            .cells
            .shared
            .store::<Publishes>(&mut self.place, index, word);
        self.scanned = 0;
        self.awaited = Some(event);
        event
    }

    /// An event is published and all tasks are scanned: one store withdraws it. This is Pass.
    pub fn withdraw(&mut self, board: &Board)
        requires made { IsOf self.old board.now }
        requires unlocked { self.old.view.holds ≡ false }
        requires event { IsSome (event_of self.old) }
        requires scanned { (seen self.old.view).scanned ≡ length board.now.plan.parents }
        ensures step { MakesPass self.old self.new }
        ensures event { event_of self.new ≡ None }
    {
        let index = board.await_index(self.task);
        board
            .cells
            .shared
            .store::<Withdraws>(&mut self.place, index, 0);
        self.scanned = 0;
        self.awaited = None;
    }

    /// The board avoids deadlock, the next op is an Await that is not published, and the seat does not hold the lock: one compare-and-exchange takes
    /// it. Busy exactly where another task held it, whose place is then seen as far as a holder of the lock must have come; such a try counts as a load.
    pub fn try_lock(&mut self, board: &Board) -> Result<(), Busy>
        requires made { IsOf self.old board.now }
        requires avoids { avoids self.old.view.mode ≡ true }
        requires next { IsBeforeAwait self.old }
        requires unlocked { self.old.view.holds ≡ false }
        ensures taken { OnOk result (TakesLock self.old self.new) }
        ensures busy { IfErr result (λ busy. FindsHeld busy.holder.0 self.old self.new) }
    {
        let mine = u64::from(self.task.0) + 1;
        let found = board
            .cells
            .shared
            .compare_exchange::<Tries>(&mut self.place, 0, 0, mine);
        if found == 0 {
            Ok(())
        } else {
            Err(Busy {
                holder: TaskId((found - 1) as u32),
            })
        }
    }

    /// The seat holds the lock: one store frees it.
    pub fn unlock(&mut self, board: &Board)
        requires made { IsOf self.old board.now }
        requires locked { self.old.view.holds ≡ true }
        ensures freed { FreesLock self.old self.new }
    {
        board.cells.shared.store::<Frees>(&mut self.place, 0, 0);
    }

    /// The seat holds the lock, and the next op is an Await of `p` with this offset that is not published, and that would deadlock its task in any
    /// lawful state that has the lock with this seat and is as far on as what it has seen: one load of its own phase, and one store of the refusal,
    /// whose event it answers.
    pub fn refuse(&mut self, board: &Board, p: PhaserId, off: Offset) -> Event
        requires made { IsOf self.old board.now }
        requires phaser { p.0 < length board.now.plan.makers }
        requires locked { self.old.view.holds ≡ true }
        requires next { next_action self.old.view ≡ Some (Blocks (aim_at p.0 off)) }
        requires dead { MayRefuse self.old (aim_at p.0 off) }
        ensures step { MakesStep (RefusesAction (aim_at p.0 off)) self.old self.new }
        ensures phase { (result.p ≡ p) × (option_map (target off) (own_phase self.old.view p.0) ≡ Some result.n) }
        ensures was { IsWithLock self.old.view.plan (task_of self.old.view) (seen self.old.view) }
    {
        let phase = self.member_phase(board, p);
        let index = board.await_index(self.task);
        let event = Event {
            p,
            n: off.target(phase),
        };
        let word = refused_number(event);
        board
            .cells
            .shared
            .store::<Refuses>(&mut self.place, index, word);
        event
    }

    /// The event is the published one, and `t` is the task that is scanned next: one load of the phase word of `t` on the phaser of the event.
    pub fn scan_next(&mut self, board: &Board, event: Event, t: TaskId) -> Option<Phase>
        requires made { IsOf self.old board.now }
        requires event { event_of self.old ≡ Some event }
        requires task { t.0 < length board.now.plan.parents }
        requires phaser { event.p.0 < length board.now.plan.makers }
        requires next { (seen self.old.view).scanned ≡ t.0 }
        ensures answer { AnswersPhase t.0 event.p.0 result self.old self.new }
    {
        let index = board.phase_index(t, event.p);
        let word = board.cells.shared.load::<Looks>(&mut self.place, index);
        let answer = phase_of(word);
        if is_behind(answer, event) {
            return answer;
        }
        self.scanned = t.0 + 1;
        answer
    }

    // One load of its own word: its phase on a phaser of which its task is a member.
    fn member_phase(&mut self, board: &Board, p: PhaserId) -> Phase
        requires made { IsOf self.old board.now }
        requires phaser { p.0 < length board.now.plan.makers }
        requires member { NeedsMember self.old p.0 }
        ensures seat { self.new ≡ self.old }
        ensures phase { own_phase self.old.view p.0 ≡ Some result }
        ensures small { result ≤ max_ops }
    {
        let _ = &self.task;
        self.phase(board, p).unwrap()
    }
}

impl Loads for TaskSeat {
    ghost known = { λ s. s };

    fn load_await(&mut self, board: &Board, t: TaskId) -> Seen {
        load_await_by(&mut self.place, board, t)
    }

    fn load_phase(&mut self, board: &Board, t: TaskId, p: PhaserId) -> Option<Phase> {
        let found = load_phase_by(&mut self.place, board, t, p);
        self.scanned = scanned_next(self.awaited, self.scanned, t, p, found);
        found
    }
}
