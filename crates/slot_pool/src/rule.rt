// The rule of the table.
use crate::named::Named;
use crate::setting::PoolSetting;
use crate::view::PoolView;
use atomic_table::{Seat, Table, TableRule};
use std::alloc::Global;
use std::marker::PhantomData;

/// The rule of a pool.
pub struct PoolRule<R> {
    marker: PhantomData<R>,
}

impl<R: Named> TableRule<Option<R>, PoolView, PoolSetting> for PoolRule<R> {
    ghost use Rattle.slot_pool.specs.inside.Rule.{PoolHolds};
    ghost use Rattle.slot_pool.specs.inside.Views.{opening_view};

    ghost holds = { PoolHolds R.number };

    ghost first = { λ key. opening_view key.workers };
}

pub type Slots<R> = Table<Option<R>, PoolView, PoolSetting, PoolRule<R>, Global>;

pub type PoolSeat<R> = Seat<Option<R>, PoolView>;
