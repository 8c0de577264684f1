// Rows of tasks that wait.
ghost use Rattle.std.specs.Prelude.{◌≡◌, ◌++◌, ◌∷◌, [], ℕ, suc, IfOk, OnOk, List as Seq, filter, map, not, option_to_list};
ghost use Rattle.std.specs.List.{slice_get};
ghost use Rattle.std.specs.Option.{option_copied};
ghost use Rattle.monitor_laws.specs.States.{Participant as Listed};
ghost use Rattle.monitor_words.specs.Messages.{is_kept_waiting};
ghost use Rattle.monitor_words.specs.Words.{groups_by, wait_alike};
ghost use Rattle.monitor_words.specs.calls.Values.{names_shown, row_shown, rows_shown};
ghost use Rattle.monitor_search.specs.Known.{has_stuck_number};
ghost use Rattle.monitor_rows.specs.Places.{participants_at};
ghost use Rattle.monitor_rows.specs.inside.Lent.{lent_ones};
ghost use Rattle.monitor_rows.specs.inside.Turns.{turn_groups, turns_leave};

use crate::keepers::{ShownKeepers, shown_keepers};
use crate::least_phases::{is_kept_by_least, least_awaited_in};
use crate::names::{add_name, count_left, no_names, own_name};
use crate::places::own_place;
use crate::waits::{wait_alike, waited_event};
use armus_base::{List, NoMemory};
use monitor_search::StuckTasks;
use monitor_state::{ListedParticipant, MonitorState};
use monitor_words::{ShownNames, ShownRows, WaitRow};
use std::alloc::Global;

// Who stands at a place of the list, if it has that place.
fn find_at(list: &[ListedParticipant], place: usize) -> Option<&ListedParticipant>
    ensures { option_copied result ≡ slice_get list.now place }
{
    list.get(place)
}

// One more that is lent, if there is one.
fn add_lent<'a>(
    lent: &mut Vec<&'a ListedParticipant>,
    one: Option<&'a ListedParticipant>,
) -> Result<(), NoMemory>
    ensures { OnOk result (lent_ones lent.new.items ≡ lent_ones lent.old.items ++ option_to_list (option_copied one.entry)) }
{
    match one {
        None => Ok(()),
        Some(u) => {
            lent.push(u)?;
            Ok(())
        }
    }
}

// Those who stand at these places of the list.
fn participants_at<'a>(
    alloc: Global,
    list: &'a [ListedParticipant],
    places: &[usize],
) -> Result<Vec<&'a ListedParticipant>, NoMemory>
    ensures { IfOk result (λ us. lent_ones us.items ≡ participants_at list.now places.now) }
{
    let mut found = Vec::new(alloc);
    for place in places {
        add_lent(&mut found, find_at(list, *place))?;
    }
    Ok(found)
}

// Tasks of whom those who stand in one row are told from the others.
struct PartedTasks<'a> {
    names: ShownNames,
    others: Vec<&'a ListedParticipant>,
}

// The names of those who stand in one row with first, and the others.
fn part_tasks<'a>(
    alloc: Global,
    first: &ListedParticipant,
    tasks: &[&'a ListedParticipant],
) -> Result<PartedTasks<'a>, NoMemory>
    ensures names { IfOk result (λ parted. parted.names ≡ names_shown (filter (wait_alike first.now) (lent_ones tasks.now))) }
    ensures others { IfOk result (λ parted. lent_ones parted.others.items ≡ filter (λ u. not (wait_alike first.now u)) (lent_ones tasks.now)) }
{
    let mut names = no_names(alloc);
    let mut others = Vec::new(alloc);
    for u in tasks {
        if wait_alike(first, u) {
            add_name(alloc, &mut names, u.name())?;
        } else {
            others.push(*u)?;
        }
    }
    Ok(PartedTasks { names, others })
}

// The row of first and those with these names.
fn shown_row(
    alloc: Global,
    state: &MonitorState,
    stuck: &StuckTasks,
    first: &ListedParticipant,
    names: ShownNames,
) -> Result<WaitRow, NoMemory>
    ensures { IfOk result (λ row. (us : Seq Listed) → names ≡ names_shown us → row ≡ row_shown state.now (has_stuck_number stuck.now) (first.now, us)) }
{
    let (phaser, phase) = waited_event(first);
    let ShownKeepers { groups, left } = shown_keepers(alloc, state, stuck, phaser, first)?;
    Ok(WaitRow {
        tasks: names,
        place: own_place(alloc, first.place())?,
        phaser: own_name(alloc, phaser)?,
        phase,
        keepers: groups,
        left,
    })
}

// Appends the row of first and of those of the tasks who stand in it, and gives the others.
fn take_row<'a>(
    alloc: Global,
    state: &MonitorState,
    stuck: &StuckTasks,
    rows: &mut List<WaitRow>,
    first: &ListedParticipant,
    tasks: &[&'a ListedParticipant],
) -> Result<Vec<&'a ListedParticipant>, NoMemory>
    ensures row { OnOk result (rows.new ≡ rows.old ++ row_shown state.now (has_stuck_number stuck.now) (first.now, filter (wait_alike first.now) (lent_ones tasks.now)) ∷ []) }
    ensures others { IfOk result (λ others. lent_ones others.items ≡ filter (λ u. not (wait_alike first.now u)) (lent_ones tasks.now)) }
{
    let PartedTasks { names, others } = part_tasks(alloc, first, tasks)?;
    rows.push(shown_row(alloc, state, stuck, first, names)?)?;
    Ok(others)
}

// Appends the row of the first of the tasks, if there are any, and gives those who do not stand in it.
fn next_row<'a>(
    alloc: Global,
    state: &MonitorState,
    stuck: &StuckTasks,
    rows: &mut List<WaitRow>,
    tasks: &[&'a ListedParticipant],
) -> Result<Vec<&'a ListedParticipant>, NoMemory>
    ensures rows { IfOk result (λ others. (k : ℕ) → rows.new ++ map (row_shown state.now (has_stuck_number stuck.now)) (turn_groups wait_alike k (lent_ones others.items)) ≡ rows.old ++ map (row_shown state.now (has_stuck_number stuck.now)) (turn_groups wait_alike (suc k) (lent_ones tasks.now))) }
    ensures left { IfOk result (λ others. (k : ℕ) → turns_leave wait_alike k (lent_ones others.items) ≡ turns_leave wait_alike (suc k) (lent_ones tasks.now)) }
{
    match tasks {
        [] => Ok(Vec::new(alloc)),
        [first, ..] => {
            let others = take_row(alloc, state, stuck, rows, first, tasks)?;
            Ok(others)
        }
    }
}

// So many rows of these tasks at most, behind rows that are there, and how many tasks are left.
fn rows_by_turns(
    alloc: Global,
    state: &MonitorState,
    stuck: &StuckTasks,
    rows: List<WaitRow>,
    turns: usize,
    tasks: Vec<&ListedParticipant>,
) -> Result<ShownRows, NoMemory>
    ensures rows { IfOk result (λ shown. shown.rows ≡ rows ++ map (row_shown state.now (has_stuck_number stuck.now)) (turn_groups wait_alike turns (lent_ones tasks.entry.items))) }
    ensures left { IfOk result (λ shown. shown.left ≡ turns_leave wait_alike turns (lent_ones tasks.entry.items)) }
{
    let mut rows = rows;
    let mut rest = tasks;
    for _turn in 0..turns {
        rest = next_row(alloc, state, stuck, &mut rows, &rest)?;
    }
    let left = count_left(rest.len())?;
    Ok(ShownRows { rows, left })
}

// The rows of these tasks, the row of first in front where there is one.
fn led_rows(
    alloc: Global,
    state: &MonitorState,
    stuck: &StuckTasks,
    first: Option<&ListedParticipant>,
    tasks: Vec<&ListedParticipant>,
) -> Result<ShownRows, NoMemory>
    ensures { IfOk result (λ rows. rows ≡ rows_shown state.now (has_stuck_number stuck.now) (groups_by wait_alike (option_to_list (option_copied first.entry) ++ lent_ones tasks.entry.items) (lent_ones tasks.entry.items))) }
{
    let mut rows = List::new(alloc);
    match first {
        None => {
            let shown = rows_by_turns(alloc, state, stuck, rows, 10, tasks)?;
            Ok(shown)
        }
        Some(first) => {
            let others = take_row(alloc, state, stuck, &mut rows, first, &tasks)?;
            let shown = rows_by_turns(alloc, state, stuck, rows, 9, others)?;
            Ok(shown)
        }
    }
}

/// The rows of the tasks that stand at these places of the list, ten at most, and how many tasks are left. The row of the task at the place first stands in front,
/// where there is one; else they come in the order of the places.
pub fn wait_rows_of(
    alloc: Global,
    state: &MonitorState,
    stuck: &StuckTasks,
    tasks: &[usize],
    first: Option<usize>,
) -> Result<ShownRows, NoMemory>
    ensures { IfOk result (λ rows. rows ≡ rows_shown state.now (has_stuck_number stuck.now) (groups_by wait_alike (participants_at state.now.list (option_to_list first) ++ participants_at state.now.list tasks.now) (participants_at state.now.list tasks.now))) }
{
    let list = state.participants();
    let tasks = participants_at(alloc, list, tasks)?;
    match first {
        None => {
            let rows = led_rows(alloc, state, stuck, None, tasks)?;
            Ok(rows)
        }
        Some(place) => {
            let rows = led_rows(alloc, state, stuck, find_at(list, place), tasks)?;
            Ok(rows)
        }
    }
}

// All tasks that are kept waiting.
fn kept_waiting(alloc: Global, state: &MonitorState) -> Result<Vec<&ListedParticipant>, NoMemory>
    ensures { IfOk result (λ tasks. lent_ones tasks.items ≡ filter (is_kept_waiting state.now) state.now.list) }
{
    let least = least_awaited_in(alloc, state)?;
    let mut tasks = Vec::new(alloc);
    for t in state.participants() {
        if is_kept_by_least(state, &least, t) {
            tasks.push(t)?;
        }
    }
    Ok(tasks)
}

/// The rows of all tasks that are kept waiting, in list order of their first, ten at most, and how many tasks are left.
pub(crate) fn report_rows(
    alloc: Global,
    state: &MonitorState,
    stuck: &StuckTasks,
) -> Result<ShownRows, NoMemory>
    ensures { IfOk result (λ rows. rows ≡ rows_shown state.now (has_stuck_number stuck.now) (groups_by wait_alike (filter (is_kept_waiting state.now) state.now.list) (filter (is_kept_waiting state.now) state.now.list))) }
{
    let tasks = kept_waiting(alloc, state)?;
    let rows = led_rows(alloc, state, stuck, None, tasks)?;
    Ok(rows)
}
