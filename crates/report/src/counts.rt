// How many tasks stand in each way.
ghost use Rattle.std.specs.Prelude.{◌≡◌, count_by};
ghost use Rattle.report.specs.Counts.{is_done, is_dead, is_held, is_refused, is_unforked, counts_of};

use crate::standing::Standing;

// How many tasks there are, and how many of them stand in each way.
#[derive(Clone, Copy)]
pub(crate) struct StandingCounts {
    pub(crate) tasks: usize,
    pub(crate) done: usize,
    pub(crate) dead: usize,
    pub(crate) held: usize,
    pub(crate) refused: usize,
    pub(crate) unforked: usize,
}

// How many tasks are done.
fn count_done(standings: &[Standing]) -> usize
    ensures { result ≡ count_by is_done standings.now }
{
    standings
        .iter()
        .filter(|standing| matches!(standing, Standing::Done))
        .count()
}

// How many tasks are dead.
fn count_dead(standings: &[Standing]) -> usize
    ensures { result ≡ count_by is_dead standings.now }
{
    standings
        .iter()
        .filter(|standing| matches!(standing, Standing::Dead(_)))
        .count()
}

// How many tasks are held.
fn count_held(standings: &[Standing]) -> usize
    ensures { result ≡ count_by is_held standings.now }
{
    standings
        .iter()
        .filter(|standing| matches!(standing, Standing::Held(_)))
        .count()
}

// How many tasks are refused.
fn count_refused(standings: &[Standing]) -> usize
    ensures { result ≡ count_by is_refused standings.now }
{
    standings
        .iter()
        .filter(|standing| matches!(standing, Standing::Refused(_)))
        .count()
}

// How many tasks are unforked.
fn count_unforked(standings: &[Standing]) -> usize
    ensures { result ≡ count_by is_unforked standings.now }
{
    standings
        .iter()
        .filter(|standing| matches!(standing, Standing::Unforked))
        .count()
}

// The counts of all tasks.
pub(crate) fn counts_of(standings: &[Standing]) -> StandingCounts
    ensures { result ≡ counts_of standings.now }
{
    StandingCounts {
        tasks: standings.len(),
        done: count_done(standings),
        dead: count_dead(standings),
        held: count_held(standings),
        refused: count_refused(standings),
        unforked: count_unforked(standings),
    }
}
