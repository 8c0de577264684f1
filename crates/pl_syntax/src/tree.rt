// Programs as trees.

ghost use Rattle.std.specs.Prelude.{◌≡◌};
ghost use Rattle.pl_syntax.specs.Tree.{count};
ghost use Rattle.pl_syntax.specs.calls.Bodies.{tree_of};

use crate::name::Name;
use armus_base::Offset;
use std::marker::Model;

/// A list of statements, seen as the tree of them: none, or the first one with those after it.
#[cycle(tree)]
#[derive(Debug, Drop)]
pub struct Body {
    items: Vec<Stmt>,
    // How many statements the tree has, those inside of others included.
    statements: u32,
}

/// A statement.
#[cycle(tree)]
#[derive(Debug, Drop)]
pub enum Stmt {
    /// `x = newTid();` draws a task.
    NewTask { x: Name },
    /// `x = newPhaser();` makes a phaser.
    NewPhaser { x: Name },
    /// `fork(x) { .. }` starts task x with this body.
    Fork { x: Name, body: Body },
    /// `reg(x, y);` makes task x a member of phaser y.
    Reg { x: Name, y: Name },
    /// `dereg(x);` leaves phaser x.
    Dereg { x: Name },
    /// `adv(x);` advances on phaser x.
    Adv { x: Name },
    /// `await(x);` waits for the other members of phaser x; in PL 2 also `await(x + k);` and `await(x - k);`, which look ahead and back.
    Await { x: Name, off: Offset },
    /// `skip;` does nothing.
    Skip,
    /// `loop k { .. }` runs this body k times.
    Loop { k: u16, body: Body },
}

impl Model for Body {
    ghost use Rattle.std.specs.Prelude.{◌≡◌};
    ghost use Rattle.pl_syntax.specs.Tree.{Tree, count};
    ghost use Rattle.pl_syntax.specs.calls.Tree.{tree_code};

    ghost Value = { Tree };

    ghost coded = { tree_code };

    ghost use Rattle.pl_syntax.specs.calls.Bodies.{tree_of};

    ghost view = { λ b. tree_of b.items.items };

    ghost invariant = { λ b. b.statements ≡ count (tree_of b.items.items) };

    ghost size = { count };

    ghost use Rattle.std.proofs.Common.{arith};
    ghost use Rattle.pl_syntax.specs.inside.Falls.{falls};

    ghost size_decreases = { λ a h. omega (arith, falls a.items.items) };
}

impl Body {
    // The body of these statements, of which there are so many, those inside of others included.
    pub(crate) fn new(items: Vec<Stmt>, statements: u32) -> Body
        requires { statements ≡ count (tree_of items.items) }
        ensures tree { result ≡ tree_of items.items }
        ensures counted { count result ≡ statements }
    {
        Body { items, statements }
    }

    /// How many statements the body has, those inside of others included.
    pub fn statements(&self) -> u32
        ensures { result ≡ count self.now }
    {
        self.statements
    }

    /// The statements of the body itself, in order.
    pub fn as_slice(&self) -> &[Stmt]
        ensures { tree_of result.now ≡ self.now }
    {
        &self.items
    }
}

/// A program: whether it is one of PL 2, where tasks leave their phasers when they end and awaits may look ahead and back; and the body of task 0.
#[derive(Debug, Drop)]
pub struct Program {
    pub two: bool,
    pub body: Body,
}
