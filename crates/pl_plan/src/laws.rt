// The laws over the definition of the unfolding: each is the contract of a function with an empty body.
ghost use Rattle.pl_plan.specs.calls.Laws.{UnfoldedIsChecked, FaultIsOfProgram, PlanIsUnfolded, FaultIsFirst};
ghost use Rattle.pl_plan.specs.calls.FoldingLaws.{OneListOfPieces, PiecesOfTexts, PiecesUnfoldToCode, PlanHasPieces, PlansOfTexts};
ghost use Rattle.pl_plan.specs.calls.FoldingLaws.{LeftPiecesAreComputed, LeftPiecesUnfold, OneListLeft, SteadyLeavesFew};
ghost use Rattle.pl_plan.specs.calls.WorkedPieces.{HaveTheirPieces, folded_loops, other_loops};
ghost use Rattle.pl_plan.specs.calls.WorkedPrograms.{AreWorked, LimitsHold, worked_faults, worked_plans};

/// The plan to which a program unfolds is a checked plan, where no await looks farther than a parsed one can.
pub fn unfolded_is_checked()
    ensures { UnfoldedIsChecked }
{}

/// A check fault has one of the eleven kinds, and the number of a statement of the program; or, in PL 2 and with the kind of an op too many, the number 0:
/// the end of task 0.
pub fn fault_is_of_program()
    ensures { FaultIsOfProgram }
{}

/// What the unfolding means, in other words than its computation: the stages of the tasks come one after the other, in order of the tasks and each
/// task's as its statements stand; each passes the tests of the table in the state after those before it; and the first fault is the first failing row
/// of the table at the first stage that fails one.
pub fn unfolding_by_visits()
    ensures plan { PlanIsUnfolded }
    ensures fault { FaultIsFirst }
{}

/// Small programs with their plans, and with first faults that tell the orders of the tests; and one step more in a state at a limit.
pub fn worked_programs()
    ensures plans { AreWorked worked_plans }
    ensures faults { AreWorked worked_faults }
    ensures limits { LimitsHold }
{}

/// The pieces that a task's statements leave of the ops that they made are one list: whole loops, nested no deeper than the statements, that unfold to these
/// ops. A steady body leaves no more pieces than it has statements.
pub fn left_pieces()
    ensures folded { LeftPiecesUnfold }
    ensures one { OneListLeft }
    ensures computed { LeftPiecesAreComputed }
    ensures few { SteadyLeavesFew }
{}

/// The plan to which a program unfolds has the pieces of its codes, and each code has one list of them; they are a folded code, and unfold to the code, where
/// the program nests no deeper than that of a text and has no loop of more turns. So the plan of a text is the one whose codes are kept as these pieces.
pub fn pieces_of_codes()
    ensures have { PlanHasPieces }
    ensures one { OneListOfPieces }
    ensures folded { PiecesUnfoldToCode }
    ensures texts { PiecesOfTexts }
    ensures plans { PlansOfTexts }
{}

/// Small programs with the pieces of their codes: steady loops that leave a Repeat; and others that do not, since they are not steady, have no turn, or make
/// no op.
pub fn worked_pieces()
    ensures folded { HaveTheirPieces folded_loops }
    ensures others { HaveTheirPieces other_loops }
{}
