// What each step on the table tells.
use crate::named::Named;
use crate::view::PoolView;
use atomic_table::{Join, Play, Split};
use std::marker::PhantomData;

/// A claim.
pub(crate) struct Claims<R> {
    marker: PhantomData<R>,
}

impl<R: Named> Play<Option<R>, PoolView> for Claims<R> {
    ghost use Rattle.slot_pool.specs.calls.Steps.{Claimed};

    ghost then = { Claimed R.number };
}

/// The beginning of a place.
pub(crate) struct BeginsStep;

impl<R> Play<Option<R>, PoolView> for BeginsStep {
    ghost use Rattle.slot_pool.specs.calls.Steps.{HasBegun};

    ghost then = { HasBegun };
}

/// A record is home.
pub(crate) struct GivesStep;

impl<R> Play<Option<R>, PoolView> for GivesStep {
    ghost use Rattle.slot_pool.specs.calls.Steps.{GivenBack};

    ghost then = { GivenBack };
}

/// A worker is split off.
pub(crate) struct SplitsWorker;

impl Split<PoolView> for SplitsWorker {
    ghost use Rattle.slot_pool.specs.inside.Views.{split_off, left_over};

    ghost left = { left_over };

    ghost right = { split_off };
}

/// A worker's seat is joined to another.
pub(crate) struct Joins;

impl Join<PoolView> for Joins {
    ghost use Rattle.slot_pool.specs.inside.Views.{joined, blank_view};

    ghost both = { joined };

    ghost spent = { blank_view };
}
