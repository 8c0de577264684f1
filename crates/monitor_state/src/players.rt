// The tasks that may play a wildcard.
ghost use Rattle.std.specs.Prelude.{◌≡◌, ◌⊎◌, ◌↔◌, ℕ, true, false, IfOk, IfNone, IfSome, OnOk, Contains, bytes_eq, filter, map};
ghost use Rattle.monitor_laws.specs.States.{Participant as Listed, is_live_task};
ghost use Rattle.trace_lines.specs.inside.Reading.{spaced_words};
ghost use Rattle.monitor_state.specs.inside.Numbers.{HasEachNameOnce};
ghost use Rattle.monitor_state.specs.inside.Players.{NumbersClimb, is_player, participant_number};

use crate::listing::Listing;
use armus_base::NoMemory;
use std::alloc::Global;
use trace_lines::split_word;

// The number of the task that is there with the name t.
fn task_number(listing: &Listing, t: &[u8]) -> Option<u64>
    requires { HasEachNameOnce listing.now }
    ensures some { IfSome result (λ n. (u : Listed) × Contains listing.now u × (is_live_task u.condition ≡ true) × (bytes_eq t.now u.name ≡ true) × (u.number ≡ n)) }
    ensures none { IfNone result ((u : Listed) → Contains listing.now u → is_live_task u.condition ≡ true → bytes_eq t.now u.name ≡ false) }
{
    match listing.place_of(t) {
        None => None,
        Some(at) => {
            let u = listing.one_at(at);
            if u.condition().is_live_task() {
                Some(u.number())
            } else {
                None
            }
        }
    }
}

// Puts a number among numbers that climb, where it is none of them.
fn put_in_order(numbers: &mut Vec<u64>, number: u64) -> Result<(), NoMemory>
    requires { NumbersClimb numbers.old.items }
    ensures climb { NumbersClimb numbers.new.items }
    ensures put { OnOk result ((n : ℕ) → Contains numbers.new.items n ↔ (Contains numbers.old.items n ⊎ (n ≡ number))) }
{
    match numbers.binary_search(&number) {
        Ok(_) => Ok(()),
        Err(at) => {
            numbers.insert(at, number)?;
            Ok(())
        }
    }
}

/// The numbers of the tasks that are there with these names, in list order.
pub(crate) fn task_numbers(
    listing: &Listing,
    alloc: Global,
    names: &[u8],
) -> Result<Vec<u64>, NoMemory>
    requires { HasEachNameOnce listing.now }
    ensures { IfOk result (λ numbers. numbers.items ≡ map participant_number (filter (is_player (spaced_words names.now)) listing.now)) }
{
    let mut numbers = Vec::new(alloc);
    let mut rest = Some(names);
    while let Some(bytes) = rest {
        let (word, behind) = split_word(bytes);
        if let Some(number) = task_number(listing, word) {
            put_in_order(&mut numbers, number)?;
        }
        rest = behind;
    }
    Ok(numbers)
}
