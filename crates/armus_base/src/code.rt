// The code of a task.
ghost use Rattle.std.specs.Prelude.{◌≡◌, length};
ghost use Rattle.armus_base.specs.calls.Pieces.{IsFolded, unfolded};

use crate::{Cursor, List, Piece};
use std::marker::Model;

/// The code of one task, kept folded. Contracts see it as the list of its pieces, which are folded.
#[derive(Drop)]
pub struct Code {
    pieces: List<Piece>,
}

impl Model for Code {
    ghost use Rattle.std.specs.Prelude.{List as Seq};
    ghost use Rattle.armus_base.specs.declared.piece.Piece.{Piece as PieceValue};
    ghost use Rattle.armus_base.specs.calls.Pieces.{IsFolded};

    ghost Value = { Seq PieceValue };

    ghost view = { λ c. c.pieces };

    ghost invariant = { λ c. IsFolded c.pieces };
}

impl Code {
    /// The code with these pieces; it takes no memory.
    pub fn from_pieces(pieces: List<Piece>) -> Code
        requires folded { IsFolded pieces }
        ensures pieces { result ≡ pieces }
    {
        Code { pieces }
    }

    // Its pieces, in order.
    pub(crate) fn pieces(&self) -> &[Piece]
        ensures pieces { result.now ≡ self.now }
        ensures folded { IsFolded self.now }
    {
        self.pieces.as_slice()
    }

    // How many ops its pieces stand for.
    pub(crate) fn ops(&self) -> usize
        ensures counted { result ≡ length (unfolded self.now) }
        ensures folded { IsFolded self.now }
    {
        let mut cursor = Cursor::start(self.pieces());
        let mut ops = 0;
        while let Some(_) = cursor.next() {
            ops += 1;
        }
        ops
    }
}
