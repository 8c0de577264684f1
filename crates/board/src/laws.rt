// Laws of the board's rule: each is the contract of a public function with an empty body.
ghost use Rattle.board.specs.calls.RuleLaws.{KnownDeadByRule, NobodyDeadByRule};

/// The rule of the board tells of deadlock at every moment: on a board that avoids deadlock nobody is dead in the state that its words show; on one that
/// detects it whoever a seat knows to be dead, as by a pass of the detector, is dead in that state.
pub fn rule_tells_the_dead()
    ensures nobody { NobodyDeadByRule }
    ensures known { KnownDeadByRule }
{}
