// In which condition somebody is, as it is shown.
ghost use Rattle.std.specs.Prelude.{◌≡◌, IfOk, if◌then◌else◌};
ghost use Rattle.trace_lines.specs.inside.Reading.{spaced_words};
ghost use Rattle.monitor_words.specs.Words.{keeper_words};
ghost use Rattle.monitor_words.specs.calls.Values.{condition_shown, first_names};
ghost use Rattle.monitor_search.specs.Known.{has_stuck_number};

use crate::names::{add_name, no_names};
use crate::places::own_place;
use armus_base::NoMemory;
use monitor_search::StuckTasks;
use monitor_state::{ListedCondition, ListedParticipant};
use monitor_words::{KeeperCondition, ShownNames, put_condition};
use std::alloc::Global;
use trace_lines::split_word;

// The names of who may play a wildcard; they stand one behind the other, a space between.
fn player_names(alloc: Global, names: &[u8]) -> Result<ShownNames, NoMemory>
    ensures { IfOk result (λ shown. shown ≡ first_names (spaced_words names.now)) }
{
    let mut shown = no_names(alloc);
    let mut rest = Some(names);
    while let Some(bytes) = rest {
        let (word, behind) = split_word(bytes);
        add_name(alloc, &mut shown, word)?;
        rest = behind;
    }
    Ok(shown)
}

// The condition of a task that waits.
fn waiting_condition(stuck: bool) -> KeeperCondition
    ensures { result ≡ (if stuck then KeeperCondition.Stuck else KeeperCondition.Waiting) }
{
    if stuck {
        KeeperCondition::Stuck
    } else {
        KeeperCondition::Waiting
    }
}

/// The condition of somebody who keeps others waiting.
pub(crate) fn shown_condition(
    alloc: Global,
    stuck: &StuckTasks,
    u: &ListedParticipant,
) -> Result<KeeperCondition, NoMemory>
    ensures { IfOk result (λ condition. condition ≡ condition_shown (has_stuck_number stuck.now u.now.number) u.now.condition) }
{
    match u.condition() {
        ListedCondition::Running => Ok(KeeperCondition::Running),
        ListedCondition::Waiting(_, _) => Ok(waiting_condition(stuck.has_number(u.number()))),
        ListedCondition::Ended => Ok(KeeperCondition::Ended),
        ListedCondition::AnyTask => Ok(KeeperCondition::AnyTask),
        ListedCondition::OneOf(names, _) => {
            let names = player_names(alloc, names)?;
            Ok(KeeperCondition::OneOf(names))
        }
    }
}

/// The words of the condition of somebody who keeps others waiting.
pub(crate) fn keeper_words(
    alloc: Global,
    stuck: &StuckTasks,
    u: &ListedParticipant,
) -> Result<Vec<u8>, NoMemory>
    ensures { IfOk result (λ words. words.items ≡ keeper_words (has_stuck_number stuck.now) u.now) }
{
    let condition = shown_condition(alloc, stuck, u)?;
    let place = own_place(alloc, u.place())?;
    let mut words = Vec::new(alloc);
    put_condition(alloc, &mut words, &condition, &place)?;
    Ok(words)
}
