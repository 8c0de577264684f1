// What holds of the definitions of this crate: each law is the contract of a public function with an empty body.
ghost use Rattle.explain_check.specs.calls.Scenes.{HasOneScene, HasScene};
ghost use Rattle.explain_check.specs.calls.Laws.{HasCheckRefusal, HasOneCheckRefusal};

/// The first fault of a program is known in one way only.
pub fn fault_has_one_scene()
    ensures { HasOneScene }
{}

/// Each program with a first check fault has what is known of it.
pub fn fault_has_scene()
    ensures { HasScene }
{}

/// A text, of a file or not, is refused in one way for a check fault.
pub fn text_has_one_check_refusal()
    ensures { HasOneCheckRefusal }
{}

/// A text, of a file or not, that has a check fault has a refusal.
pub fn text_has_check_refusal()
    ensures { HasCheckRefusal }
{}
