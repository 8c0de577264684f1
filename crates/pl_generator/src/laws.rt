// The laws over the generated texts: the contract of a function with an empty body.
ghost use Rattle.pl_generator.specs.calls.Laws.{GeneratedIsAccepted, GeneratedHasNoSyntaxFault, GeneratedHasNoCheckFault};

/// Each generated text with fewer than `MAX_TASKS` workers is in the grammar, and its program unfolds to a plan; it has no fault of either kind.
pub fn gen_is_accepted()
    ensures accepted { GeneratedIsAccepted }
    ensures no_syntax_fault { GeneratedHasNoSyntaxFault }
    ensures no_check_fault { GeneratedHasNoCheckFault }
{}
