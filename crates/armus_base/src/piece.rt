// The pieces of a code that is kept folded.
use crate::Op;

/// The most Repeats that may stand round a piece.
pub const MAX_OPEN_REPEATS: usize = 64;

/// The most turns of a Repeat: the greatest number of a text.
pub const MAX_TURNS: u32 = 65_535;

/// One piece of a folded code (this project's own).
#[derive(Clone, Copy, Debug, PartialEq, Eq)]
pub enum Piece {
    /// Stands for this op.
    Op(Op),
    /// Stands for the `len` pieces after it, run `k` times.
    Repeat { k: u32, len: u32 },
}
