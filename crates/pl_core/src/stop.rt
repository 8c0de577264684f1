// Where in its code a task stands after its first events.
ghost use Rattle.std.specs.Prelude.{◌≡◌, [], ◌∷◌, length};
ghost use Rattle.armus_base.specs.Plans.{actions_of};

use armus_base::Op;

// The index of its next op, and whether it has begun that op, an await.
#[derive(Clone, Copy)]
pub(crate) struct Stop {
    pub(crate) op: u32,
    pub(crate) begun: bool,
}

/// How many events an op is.
pub(crate) fn events_in(op: Op) -> u32
    ensures { result ≡ length (actions_of (op ∷ [])) }
{
    match op {
        Op::Await { .. } => 2,
        _ => 1,
    }
}
