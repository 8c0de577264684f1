// How many tasks are in which condition.
ghost use Rattle.std.specs.Prelude.{◌≡◌, ◌≤◌, ◌&&◌, not, count_by, length};
ghost use Rattle.monitor_laws.specs.Faults.{most_listed, waits_now};
ghost use Rattle.monitor_laws.specs.States.{is_live_task};
ghost use Rattle.monitor_words.specs.Reasons.{has_ended};
ghost use Rattle.monitor_words.specs.calls.Values.{state_counts};
ghost use Rattle.monitor_search.specs.Known.{has_stuck_number};

use monitor_search::StuckTasks;
use monitor_state::{ListedParticipant, MonitorState};
use monitor_words::StateCounts;

// How many are tasks that have not ended.
fn count_live(list: &[ListedParticipant]) -> u32
    requires { length list.now ≤ most_listed }
    ensures { result ≡ count_by (λ u. is_live_task u.condition) list.now }
{
    list.iter().filter(|u| u.condition().is_live_task()).count() as u32
}

// How many are tasks that run.
fn count_running(list: &[ListedParticipant]) -> u32
    requires { length list.now ≤ most_listed }
    ensures { result ≡ count_by (λ u. is_live_task u.condition && not (waits_now u.condition)) list.now }
{
    list.iter()
        .filter(|u| u.condition().is_live_task() && !u.condition().waits())
        .count() as u32
}

/// How many are tasks that wait.
pub(crate) fn count_waiting(list: &[ListedParticipant]) -> u32
    requires { length list.now ≤ most_listed }
    ensures { result ≡ count_by (λ u. waits_now u.condition) list.now }
{
    list.iter().filter(|u| u.condition().waits()).count() as u32
}

// How many are among the known stuck tasks.
fn count_stuck(list: &[ListedParticipant], stuck: &StuckTasks) -> u32
    requires { length list.now ≤ most_listed }
    ensures { result ≡ count_by (λ u. has_stuck_number stuck.now u.number) list.now }
{
    list.iter().filter(|u| stuck.has_number(u.number())).count() as u32
}

// How many have ended or are gone.
fn count_ended(list: &[ListedParticipant]) -> u32
    requires { length list.now ≤ most_listed }
    ensures { result ≡ count_by (λ u. has_ended u.condition) list.now }
{
    list.iter()
        .filter(|u| !(u.condition().is_live_task() || u.condition().is_live_wildcard()))
        .count() as u32
}

/// How many tasks run, wait, are stuck and have ended; wildcards are not counted.
pub(crate) fn counts_of_state(state: &MonitorState, stuck: &StuckTasks) -> StateCounts
    ensures { result ≡ state_counts state.now (has_stuck_number stuck.now) }
{
    let list = state.participants();
    StateCounts {
        tasks: count_live(list),
        running: count_running(list),
        waiting: count_waiting(list),
        stuck: count_stuck(list, stuck),
        ended: count_ended(list),
    }
}
