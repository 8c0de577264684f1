// One look at the tasks of a site.
ghost use Rattle.std.specs.Prelude.{◌≡◌, ◌≤◌, ◌<◌, ◌++◌, ℕ, All, false, Some, None, IfOk, OnOk, length, option_map, option_to_list, vec_len};
ghost use Rattle.armus_base.specs.CheckedPlans.{IsCheckedPlan};
ghost use Rattle.board.specs.calls.Seats.{IsOf};
ghost use Rattle.board.specs.calls.Views.{found_of};
ghost use Rattle.phase_scan.specs.calls.Collects.{FindsEvent, IfAsked, LoadsChosen, waiting_on};
ghost use Rattle.phase_scan.specs.calls.Tables.{event_for};
ghost use Rattle.sites.specs.calls.Rows.{HasNumbers, HasPhaseNumbers, is_of_site};
ghost use Rattle.sites.specs.calls.Snaps.{HasLookedOn, IsSnapshot};
ghost use Rattle.sites.specs.inside.Snapping.{FindsRow, FindsRows, FindsStatus};

use crate::Snapshot;
use armus_base::{Event, List, Member, NoMemory, Phase, PhaserId, Status, TaskId};
use board::{Board, Loads, Seen, ViewSeat};
use std::alloc::Global;

// Appends the item, if there is one.
fn keep<T: Drop>(items: &mut Vec<T>, item: Option<T>) -> Result<(), NoMemory>
    ensures { OnOk result (items.new.items ≡ items.old.items ++ option_to_list item) }
{
    match item {
        Some(item) => items.push(item)?,
        None => {}
    }
    Ok(())
}

// The event on which a task was found waiting.
fn waiting(seen: Seen) -> Option<Event>
    ensures { result ≡ waiting_on (found_of seen) }
{
    match seen {
        Seen::Waits(event) => Some(event),
        Seen::Idle | Seen::Refused(_) => None,
    }
}

// Loads the await word of a task, if it is one of the site: the event on which it was found waiting.
fn load_event(view: &mut ViewSeat, board: &Board, t: TaskId, site: u32, sites: u32) -> Option<Event>
    requires made { IsOf view.old board.now }
    requires task { t.0 < length board.now.plan.parents }
    requires some { 1 ≤ sites }
    ensures made { IsOf view.new board.now }
    ensures looked { HasLookedOn view.old view.new }
    ensures load { IfAsked (is_of_site sites site t.0) (FindsEvent t.0 result) view.old view.new }
    ensures others { is_of_site sites site t.0 ≡ false → result ≡ None }
{
    if t.0 % sites != site {
        return None;
    }
    let seen = view.load_await(board, t);
    waiting(seen)
}

// Loads the await words of the site's tasks, in order: for each task of the plan the event on which it was found waiting.
fn load_awaits(
    alloc: Global,
    view: &mut ViewSeat,
    board: &Board,
    site: u32,
    sites: u32,
) -> Result<Vec<Option<Event>>, NoMemory>
    requires made { IsOf view.old board.now }
    requires some { 1 ≤ sites }
    ensures made { IsOf view.new board.now }
    ensures looked { HasLookedOn view.old view.new }
    ensures loads { IfOk result (λ events. LoadsChosen (is_of_site sites site) (event_for events.items) (length board.now.plan.parents) view.old view.new) }
    ensures count { IfOk result (λ events. vec_len events ≡ length board.now.plan.parents) }
    ensures others { IfOk result (λ events. (t : ℕ) → is_of_site sites site t ≡ false → event_for events.items t ≡ None) }
{
    let mut events = Vec::new(alloc);
    for number in 0..board.tasks() {
        let event = load_event(view, board, TaskId(number), site, sites);
        events.push(event)?;
    }
    Ok(events)
}

// The phase that was found on a phaser.
fn member_at(p: PhaserId, found: Option<Phase>) -> Option<Member>
    ensures member { result ≡ option_map (λ n. record { p = p; n = n }) found }
    ensures numbers { All HasPhaseNumbers (option_to_list result) }
{
    match found {
        Some(n) => Some(Member { p, n }),
        None => None,
    }
}

// Loads all phase words of a task, in order: the phases that were found.
fn load_row(
    alloc: Global,
    view: &mut ViewSeat,
    board: &Board,
    t: TaskId,
) -> Result<Vec<Member>, NoMemory>
    requires made { IsOf view.old board.now }
    requires task { t.0 < length board.now.plan.parents }
    ensures made { IsOf view.new board.now }
    ensures looked { HasLookedOn view.old view.new }
    ensures row { IfOk result (λ list. FindsRow (length board.now.plan.makers) t.0 list.items view.old view.new) }
{
    let mut list = Vec::new(alloc);
    for number in 0..board.phasers() {
        let p = PhaserId(number);
        let found = view.load_phase(board, t, p);
        keep(&mut list, member_at(p, found))?;
    }
    Ok(list)
}

// A status with small numbers.
fn status_of(t: TaskId, event: Event, phases: Vec<Member>) -> Status
    requires { All HasPhaseNumbers phases.items }
    ensures status { result ≡ record { t = t; event = event; phases = phases.items } }
    ensures numbers { HasNumbers result }
{
    Status {
        t,
        event,
        phases: List::from_vec(phases),
    }
}

// Loads all phase words of a task, in order, if it was found waiting: its status.
fn load_status(
    alloc: Global,
    view: &mut ViewSeat,
    board: &Board,
    t: TaskId,
    event: Option<Event>,
) -> Result<Option<Status>, NoMemory>
    requires made { IsOf view.old board.now }
    requires task { t.0 < length board.now.plan.parents }
    ensures made { IsOf view.new board.now }
    ensures looked { HasLookedOn view.old view.new }
    ensures status { IfOk result (λ status. FindsStatus (length board.now.plan.makers) t.0 event status view.old view.new) }
{
    let Some(event) = event else {
        return Ok(None);
    };
    let phases = load_row(alloc, view, board, t)?;
    Ok(Some(status_of(t, event, phases)))
}

// The event on which a task was found waiting.
fn event_in(events: &[Option<Event>], t: TaskId) -> Option<Event>
    requires { t.0 < length events.now }
    ensures { result ≡ event_for events.now t.0 }
{
    events[t.0 as usize]
}

// Loads all phase words of each task found waiting, in order: their statuses.
fn load_rows(
    alloc: Global,
    view: &mut ViewSeat,
    board: &Board,
    events: &[Option<Event>],
) -> Result<Vec<Status>, NoMemory>
    requires made { IsOf view.old board.now }
    requires count { length events.now ≡ length board.now.plan.parents }
    ensures made { IsOf view.new board.now }
    ensures looked { HasLookedOn view.old view.new }
    ensures checked { IsCheckedPlan board.now.plan }
    ensures rows { IfOk result (λ list. FindsRows board.now.plan (event_for events.now) (length board.now.plan.parents) list.items view.old view.new) }
{
    let mut list = Vec::new(alloc);
    for number in 0..board.tasks() {
        let t = TaskId(number);
        let event = event_in(events, t);
        let status = load_status(alloc, view, board, t, event)?;
        keep(&mut list, status)?;
    }
    Ok(list)
}

/// Loads the await words of the site's tasks, in order, and then, for each found waiting, in order, its phase words on all phasers, in order: one load
/// for each task of the site, and one for each status and each phaser. After `NoMemory` the viewer may have seen more.
pub fn snap(
    alloc: Global,
    view: &mut ViewSeat,
    board: &Board,
    site: u32,
    sites: u32,
) -> Result<Snapshot, NoMemory>
    requires made { IsOf view.old board.now }
    requires site { site < sites }
    ensures made { IsOf view.new board.now }
    ensures looked { HasLookedOn view.old view.new }
    ensures site { IfOk result (λ s. s.site ≡ site) }
    ensures snapshot { IfOk result (λ s. IsSnapshot board.now.plan sites site s.statuses view.old view.new) }
{
    let events = load_awaits(alloc, view, board, site, sites)?;
    let statuses = load_rows(alloc, view, board, events.as_slice())?;
    Ok(Snapshot {
        site,
        statuses: List::from_vec(statuses),
    })
}
