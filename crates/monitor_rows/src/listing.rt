// The list of waiting tasks.
ghost use Rattle.std.specs.Prelude.{◌≡◌, ◌++◌, Contains, OnOk, [], filter, flat_map, if◌then◌else◌};
ghost use Rattle.monitor_laws.specs.Faults.{waits_now};
ghost use Rattle.monitor_words.specs.Messages.{list_words_of, listed_line};
ghost use Rattle.monitor_search.specs.Known.{has_stuck_number};
ghost use Rattle.monitor_rows.specs.inside.LeastPhases.{AreLeastAwaited};

use crate::counts::count_waiting;
use crate::least_phases::least_awaited_in;
use crate::standing::standing_in;
use armus_base::NoMemory;
use monitor_search::StuckTasks;
use monitor_state::{ListedCondition, ListedParticipant, MonitorState};
use monitor_words::{put_listed, put_listed_count};
use std::alloc::Global;
use std::collections::HashMap;

// Appends the line on t, if it waits.
fn put_if_waiting(
    alloc: Global,
    out: &mut Vec<u8>,
    state: &MonitorState,
    stuck: &StuckTasks,
    least: &HashMap<&[u8], u32>,
    t: &ListedParticipant,
) -> Result<(), NoMemory>
    requires least { AreLeastAwaited state.now.list least.now }
    requires listed { Contains state.now.list t.now }
    ensures { OnOk result (out.new.items ≡ out.old.items ++ (if waits_now t.now.condition then listed_line state.now (has_stuck_number stuck.now) t.now else [])) }
{
    match t.condition() {
        ListedCondition::Waiting(p, n) => {
            put_listed(
                alloc,
                out,
                standing_in(state, stuck, least, t),
                t.name(),
                p,
                *n,
            )
        }
        _ => Ok(()),
    }
}

// Appends a line on each of the list that waits.
fn put_waiting(
    alloc: Global,
    out: &mut Vec<u8>,
    state: &MonitorState,
    stuck: &StuckTasks,
) -> Result<(), NoMemory>
    ensures { OnOk result (out.new.items ≡ out.old.items ++ flat_map (listed_line state.now (has_stuck_number stuck.now)) (filter (λ t. waits_now t.condition) state.now.list)) }
{
    let least = least_awaited_in(alloc, state)?;
    for t in state.participants() {
        put_if_waiting(alloc, out, state, stuck, &least, t)?;
    }
    Ok(())
}

/// Appends the list of a state: a line for each waiting task, in list order, and how many they are.
pub fn put_wait_list(
    alloc: Global,
    out: &mut Vec<u8>,
    state: &MonitorState,
    stuck: &StuckTasks,
) -> Result<(), NoMemory>
    ensures { OnOk result (out.new.items ≡ out.old.items ++ list_words_of state.now (has_stuck_number stuck.now)) }
{
    put_waiting(alloc, out, state, stuck)?;
    put_listed_count(alloc, out, count_waiting(state.participants()))
}
