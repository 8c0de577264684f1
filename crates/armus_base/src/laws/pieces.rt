// Laws of pieces.
ghost use Rattle.std.specs.Prelude.{[], ◌∷◌};
ghost use Rattle.armus_base.specs.declared.piece.Piece.TheVariants.{Op as Single};
ghost use Rattle.armus_base.specs.calls.PieceLaws.{FoldedStandForUnfolded, StandForUnfoldedAlone, StraightIsFolded, UnfoldedAppend};
ghost use Rattle.armus_base.specs.calls.PieceLaws.{UnfoldedLoop, UnfoldedStraight, WholeAppend, WholeByPlaces, WholeDeeper, WholeLoop};
ghost use Rattle.armus_base.specs.calls.WorkedPieces.{AreFoldedTo, ExcludesPieces, advance, in_a_loop, in_a_loop_ops, looped_by, three_deep, three_deep_ops};

/// Folded pieces stand for the ops that they unfold to, and for nothing else.
pub fn folded_stand_for()
    ensures unfolded { FoldedStandForUnfolded }
    ensures alone { StandForUnfoldedAlone }
{}

/// Whole loops with more pieces behind them unfold to their own ops and then those of what is behind, and a loop to the ops of its body, once for each turn.
pub fn unfolded_append()
    ensures append { UnfoldedAppend }
    ensures turns { UnfoldedLoop }
{}

/// Whole loops stay whole where others are put behind them, where a loop is put round them, and where they may be nested deeper.
pub fn whole_append()
    ensures append { WholeAppend }
    ensures turns { WholeLoop }
    ensures deeper { WholeDeeper }
{}

/// One piece for each op unfolds to the ops, and is a folded code unless there are more ops than a plan may have.
pub fn unfolded_straight()
    ensures ops { UnfoldedStraight }
    ensures folded { StraightIsFolded }
{}

/// Pieces, worked out by the definitions: a loop in a loop, three loops of two turns, and loops as deep as they may be; and what is no folded code.
pub fn worked_pieces()
    ensures loops { AreFoldedTo in_a_loop in_a_loop_ops }
    ensures turns { AreFoldedTo three_deep three_deep_ops }
    ensures deep { AreFoldedTo (looped_by 64 (Single advance ∷ [])) (advance ∷ []) }
    ensures excluded { ExcludesPieces }
{}

/// Pieces are whole loops exactly where each Repeat, place by place, has its turns and its pieces, these lie in the list and among those of each Repeat
/// round it, and not too many Repeats stand round a piece.
pub fn whole_by_places()
    ensures { WholeByPlaces }
{}
