// Clock programs as trees.

ghost use Rattle.std.specs.Prelude.{◌≡◌, ◌<◌, ◌^◌};
ghost use Rattle.clock_syntax.specs.Trees.{clock_count, done};
ghost use Rattle.clock_syntax.specs.calls.Bodies.{clock_followed_by, clock_tree_of};

use crate::name::ClockName;
use armus_base::List;
use std::marker::Model;

/// A list of statements, seen as the tree of them: none, or the first one with those after it.
#[cycle(tree)]
#[derive(Drop)]
pub struct ClockBody {
    items: Vec<ClockStmt>,
    // How many statements the tree has, those inside of others included.
    statements: u32,
}

/// A statement.
#[cycle(tree)]
#[derive(Drop)]
pub enum ClockStmt {
    /// `clock x;` makes a clock, on which the activity is registered, and calls it x.
    Clock {
        x: ClockName,
    },
    /// `async(x, y) { .. }` starts an activity with this body, which is registered on the clocks of these names.
    Async {
        names: List<ClockName>,
        body: ClockBody,
    },
    /// `finish { .. }` runs this body, and waits until each activity that was started in it has ended.
    Finish {
        body: ClockBody,
    },
    /// `advance(x);` signals on clock x, unless it is pending, and waits until the clock has gone on since that signal.
    Advance {
        x: ClockName,
    },
    /// `resume(x);` signals on clock x and does not wait: the clock is pending.
    Resume {
        x: ClockName,
    },
    /// `drop(x);` leaves clock x.
    Drop {
        x: ClockName,
    },
    /// `loop k { .. }` runs this body k times.
    Loop {
        k: u16,
        body: ClockBody,
    },
    /// `skip;` does nothing.
    Skip,
}

impl Model for ClockBody {
    ghost use Rattle.std.specs.Prelude.{◌≡◌};
    ghost use Rattle.clock_syntax.specs.Trees.{ClockTree, clock_count};
    ghost use Rattle.clock_syntax.specs.calls.Trees.{clock_tree_code};

    ghost Value = { ClockTree };

    ghost coded = { clock_tree_code };

    ghost use Rattle.clock_syntax.specs.calls.Bodies.{clock_tree_of};

    ghost view = { λ b. clock_tree_of b.items.items };

    ghost invariant = { λ b. b.statements ≡ clock_count (clock_tree_of b.items.items) };

    ghost size = { clock_count };

    ghost use Rattle.std.proofs.Common.{arith};
    ghost use Rattle.clock_syntax.specs.inside.Falls.{falls};

    ghost size_decreases = { λ a h. omega (arith, falls a.items.items) };
}

impl ClockBody {
    // The body of these statements, of which there are so many, those inside of others included.
    pub(crate) fn new(items: Vec<ClockStmt>, statements: u32) -> ClockBody
        requires { statements ≡ clock_count (clock_tree_of items.items) }
        ensures tree { result ≡ clock_tree_of items.items }
        ensures counted { clock_count result ≡ statements }
    {
        ClockBody { items, statements }
    }

    /// How many statements the body has, those inside of others included.
    pub fn statements(&self) -> u32
        ensures { result ≡ clock_count self.now }
    {
        self.statements
    }

    /// The statements of the body itself, in order.
    pub fn as_slice(&self) -> &[ClockStmt]
        ensures { clock_tree_of result.now ≡ self.now }
    {
        &self.items
    }
}

/// A clock program: the body of activity 0.
#[derive(Drop)]
pub struct ClockProgram {
    pub body: ClockBody,
}

impl ClockStmt {
    /// How many statements this one is, its body's included.
    pub fn statements(&self) -> u32
        requires { clock_count (clock_followed_by self.now done) < 2 ^ 32 }
        ensures { result ≡ clock_count (clock_followed_by self.now done) }
    {
        match self {
            ClockStmt::Async { names: _, body } => body.statements() + 1,
            ClockStmt::Finish { body } => body.statements() + 1,
            ClockStmt::Loop { k: _, body } => body.statements() + 1,
            _ => 1,
        }
    }
}
