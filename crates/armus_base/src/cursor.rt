// A walk over the ops that pieces stand for.
ghost use Rattle.std.specs.Prelude.{◌≡◌, ◌∷◌, [], IfNone, IfSome, slice_get};
ghost use Rattle.armus_base.specs.calls.Pieces.{IsFolded, unfolded};
ghost use Rattle.armus_base.specs.inside.Positions.{op_of};

mod frame;
mod position;

use crate::{Op, Piece};
use position::Position;
use std::marker::Model;

/// Walks along the ops that folded pieces stand for, and takes no memory. Contracts see it as the ops that are left.
#[derive(Drop)]
pub struct Cursor<'p> {
    pieces: &'p [Piece],
    position: Position,
}

impl<'p> Model for Cursor<'p> {
    ghost use Rattle.std.specs.Prelude.{List};
    ghost use Rattle.armus_base.specs.declared.op.Op.{Op as OpValue};
    ghost use Rattle.armus_base.specs.inside.Positions.{IsSettled, ops_left};

    ghost Value = { List OpValue };

    ghost view = { λ c. ops_left c.pieces.now c.position };

    ghost invariant = { λ c. IsSettled c.pieces.now c.position };
}

// The op that this piece stands for.
fn op_at(pieces: &[Piece], at: u32) -> Option<Op>
    ensures { result ≡ op_of (slice_get pieces.now at) }
{
    match pieces.get(at as usize) {
        Some(Piece::Op(op)) => Some(*op),
        _ => None,
    }
}

impl<'p> Cursor<'p> {
    /// A cursor at the first op of these pieces.
    pub fn start(pieces: &'p [Piece]) -> Cursor<'p>
        requires folded { IsFolded pieces.now }
        ensures all { result ≡ unfolded pieces.now }
    {
        let mut position = Position::first();
        position.open(pieces);
        Cursor { pieces, position }
    }

    /// The next op, which stays the next; None exactly where no op is left.
    pub fn peek(&self) -> Option<Op>
        ensures next { result ≡ slice_get self.now 0 }
    {
        op_at(self.pieces, self.position.at)
    }

    /// Takes the next op; None exactly where no op is left, and then again each time.
    pub fn next(&mut self) -> Option<Op>
        ensures some { IfSome result (λ op. self.old ≡ op ∷ self.new) }
        ensures none { IfNone result ((self.old ≡ []) × (self.new ≡ [])) }
    {
        let op = op_at(self.pieces, self.position.at)?;
        self.position.at += 1;
        self.position.close();
        self.position.open(self.pieces);
        Some(op)
    }
}
