// The rule of the table.
use crate::mode::Setting;
use crate::view::View;
use atomic_table::{Seat, Table, TableRule};
use std::alloc::Global;

/// The rule of a board.
pub struct BoardRule;

impl TableRule<(), View, Setting> for BoardRule {
    ghost use Rattle.board.specs.calls.Rule.{IsKept, first_view};

    ghost holds = { IsKept };

    ghost first = { first_view };
}

pub type BoardTable = Table<(), View, Setting, BoardRule, Global>;

pub type TableSeat = Seat<(), View>;
