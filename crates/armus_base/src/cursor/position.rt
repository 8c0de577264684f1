// Where a walk over pieces stands.
ghost use Rattle.std.specs.Prelude.{◌≡◌, ◌+◌, ◌^◌, ◌<◌, ◌≤◌, List, None, length, slice_get};
ghost use Rattle.armus_base.specs.declared.piece.Piece.{Piece as PieceValue};
ghost use Rattle.armus_base.specs.calls.Pieces.{max_open_repeats};
ghost use Rattle.armus_base.specs.inside.Positions.{IsFirst, IsInside, KeepsOps, StandsAt, entered, repeat_of};

use super::frame::OpenRepeat;
use crate::Piece;
use crate::piece::MAX_OPEN_REPEATS;

// The piece that comes next, and the Repeats that are open, the outermost first.
#[derive(Drop)]
pub(super) struct Position {
    pub(super) at: u32,
    depth: u32,
    frames: [OpenRepeat; MAX_OPEN_REPEATS],
}

// The turns and the length of the Repeat that stands at this place, if one does.
fn repeat_at(pieces: &[Piece], at: u32) -> Option<(u32, u32)>
    ensures { result ≡ repeat_of (slice_get pieces.now at) }
{
    match pieces.get(at as usize) {
        Some(Piece::Repeat { k, len }) => Some((*k, *len)),
        _ => None,
    }
}

impl Position {
    // Before the first piece, with no Repeat open.
    pub(super) fn first() -> Position
        ensures { IsFirst result }
    {
        let closed = OpenRepeat {
            from: 0,
            to: 0,
            turns: 0,
        };
        Position {
            at: 0,
            depth: 0,
            frames: [closed; MAX_OPEN_REPEATS],
        }
    }

    // Opens the Repeat of k turns that stands here, before the next len pieces.
    fn enter(&mut self, k: u32, len: u32)
        requires room { self.old.depth < max_open_repeats }
        requires turn { 1 ≤ k }
        requires fits { self.old.at + 1 + len < 2 ^ 32 }
        ensures { self.new ≡ entered k len self.old }
    {
        let from = self.at + 1;
        self.frames[self.depth as usize] = OpenRepeat {
            from,
            to: from + len,
            turns: k - 1,
        };
        self.at = from;
        self.depth += 1;
    }

    // At the end of the innermost body begins its next turn, and where it has none closes it, and so on outward.
    pub(super) fn close(&mut self)
        requires room { self.old.depth ≤ max_open_repeats }
        ensures closed { (ps : List PieceValue) → StandsAt ps self.old → KeepsOps ps self.old self.new × IsInside self.new }
    {
        while self.depth > 0 {
            let innermost = self.depth as usize - 1;
            let frame = self.frames[innermost];
            if self.at < frame.to {
                return;
            }
            if frame.turns > 0 {
                self.at = frame.from;
                self.frames[innermost] = OpenRepeat {
                    from: frame.from,
                    to: frame.to,
                    turns: frame.turns - 1,
                };
                return;
            }
            self.depth -= 1;
        }
    }

    // Opens each Repeat that stands here, up to an op or the end.
    pub(super) fn open(&mut self, pieces: &[Piece])
        requires stands { StandsAt pieces.now self.old }
        requires inside { IsInside self.old }
        requires fits { length pieces.now < 2 ^ 32 }
        ensures same { KeepsOps pieces.now self.old self.new }
        ensures inside { IsInside self.new }
        ensures op { repeat_of (slice_get pieces.now self.new.at) ≡ None }
    {
        while let Some((k, len)) = repeat_at(pieces, self.at) {
            self.enter(k, len);
        }
    }
}
