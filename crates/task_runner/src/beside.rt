// What goes beside the rounds of a run on a board, or nothing.
ghost use Rattle.std.specs.Prelude.{◌≡◌, OnOk};

use armus_base::NoMemory;
use board::Board;
use board_runs::Calls;
use std::alloc::Global;

/// Who makes passes beside the rounds of a run on a board, and works on something in them.
pub(crate) trait Beside<O> {
    ghost use Rattle.std.specs.Prelude.{Bool, Result, Ok, Err};
    ghost use Rattle.board.specs.calls.Seats.{Frame};

    /// Why a pass ends a run early.
    type Early;

    // whether there is a pass at all
    ghost there: { Bool };

    // it may make a pass beside a run on this board, with this to work on
    ghost fits: { Frame → Self → O → Type 0 };

    // what passes have made of both, of which the last one has answered this
    ghost passes: { Frame → Self → O → Self → O → Result (Unit {0}) Self.Early → Type 0 };

    // the end for want of memory
    ghost no_memory: { Self.Early };

    /// Whether there is a pass at all, for which the run stays on its board.
    fn is_there(&self) -> bool
        ensures { result ≡ there };

    /// One pass. It may call the gate.
    fn pass<C: Calls>(
        &mut self,
        alloc: Global,
        board: &Board,
        gate: &C,
        out: &mut O,
    ) -> Result<(), Self::Early>
        requires fits { fits board.now self.old out.old }
        ensures fits { OnOk result (fits board.now self.new out.new) }
        ensures passes { passes board.now self.old out.old self.new out.new result };

    /// The end of a run whose round wanted memory.
    fn early(error: NoMemory) -> Self::Early
        ensures { result ≡ no_memory };

    // no pass leaves both as they were
    ghost none: { (f : Frame) (x : Self) (a : O) → fits f x a → passes f x a x a (Ok tt) };

    // passes go on after passes
    ghost more: { (f : Frame) (x y z : Self) (a b c : O) (r : Result (Unit {0}) Self.Early) → passes f x a y b (Ok tt) → passes f y b z c r → passes f x a z c r };

    // a round may want memory beside a pass that did not
    ghost wanting: { (f : Frame) (x y : Self) (a b : O) → fits f y b → passes f x a y b (Ok tt) → passes f x a y b (Err no_memory) };
}

/// No pass at all.
#[derive(Drop)]
pub(crate) struct Nothing {}

impl<O> Beside<O> for Nothing {
    ghost use Rattle.std.specs.Prelude.{Result, Ok, Err, false, ◌≡◌};
    ghost use Rattle.std.proofs.Common.{refl, ◌∙◌};

    type Early = NoMemory;

    ghost there = { false };

    ghost fits = { λ f x a. Unit {0} };

    ghost passes = { λ f x a y b r. b ≡ a };

    ghost no_memory = { record {} };

    ghost none = { λ f x a fits. refl };

    ghost more = { λ f x y z a b c r p q. q ∙ p };

    ghost wanting = { λ f x y a b fits p. p };

    fn is_there(&self) -> bool {
        false
    }

    fn pass<C: Calls>(
        &mut self,
        alloc: Global,
        board: &Board,
        gate: &C,
        out: &mut O,
    ) -> Result<(), NoMemory> {
        let _ = alloc;
        let _ = board;
        let _ = gate;
        let _ = out;
        Ok(())
    }

    fn early(error: NoMemory) -> NoMemory {
        error
    }
}
