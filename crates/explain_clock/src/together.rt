// Activities of which the same is said, together.
ghost use Rattle.std.specs.Prelude.{◌≡◌, ◌∷◌, [], IfOk, OnOk, count_by, filter, map, not};
ghost use Rattle.std.specs.List.{list_any};
ghost use Rattle.std.specs.Str.{bytes_eq};
ghost use Rattle.explain_clock.specs.inside.ToldTogether.{AddsSayings, activity_of, is_said_of, is_untold, says_it, words_told};

use armus_base::{NoMemory, TaskId};
use explain_tasks::push_if;
use std::alloc::Global;

/// An activity, and what is said of it.
#[derive(Drop)]
pub(crate) struct ActivityTold {
    pub(crate) said: Vec<u8>,
    pub(crate) activity: TaskId,
}

// Whether these words say it.
fn says_it(said: &[u8], words: &Vec<u8>) -> bool
    ensures { result ≡ says_it said.now words.now }
{
    said == words.as_slice()
}

// Whether this is one of the things that are said.
fn is_among(sayings: &[Vec<u8>], said: &[u8]) -> bool
    ensures { result ≡ list_any (says_it said.now) sayings.now }
{
    sayings.iter().any(|words| says_it(said, words))
}

// Adds what is said, unless it is there.
fn add_saying(alloc: Global, sayings: &mut Vec<Vec<u8>>, said: &[u8]) -> Result<(), NoMemory>
    ensures { OnOk result (AddsSayings (said.now ∷ []) sayings.old.items sayings.new.items) }
{
    if is_among(sayings.as_slice(), said) {
        return Ok(());
    }
    let words = Vec::from_slice(alloc, said)?;
    sayings.push(words)?;
    Ok(())
}

/// Adds what is said of each of these, where it is not there.
pub(crate) fn add_sayings(
    alloc: Global,
    sayings: &mut Vec<Vec<u8>>,
    told: &[ActivityTold],
) -> Result<(), NoMemory>
    ensures { OnOk result (AddsSayings (map words_told told.now) sayings.old.items sayings.new.items) }
{
    for one in told {
        add_saying(alloc, sayings, one.said.as_slice())?;
    }
    Ok(())
}

/// Those of these activities of whom this is said.
pub(crate) fn those_said(
    alloc: Global,
    told: &[ActivityTold],
    said: &[u8],
) -> Result<Vec<TaskId>, NoMemory>
    ensures { IfOk result (λ v. v.items ≡ map activity_of (filter (is_said_of said.now) told.now)) }
{
    let mut all = Vec::new(alloc);
    for one in told {
        push_if(&mut all, one.activity, says_it(said, &one.said))?;
    }
    Ok(all)
}

// Whether nothing of this is said of one.
fn is_untold(sayings: &[Vec<u8>], one: &ActivityTold) -> bool
    ensures { result ≡ is_untold sayings.now one.now }
{
    !is_among(sayings, one.said.as_slice())
}

/// How many of these nothing of this is said of.
pub(crate) fn count_others(told: &[ActivityTold], sayings: &[Vec<u8>]) -> usize
    ensures { result ≡ count_by (is_untold sayings.now) told.now }
{
    told.iter().filter(|one| is_untold(sayings, one)).count()
}
