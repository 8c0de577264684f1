// How a task stands in an explanation.
ghost use Rattle.std.specs.Prelude.{◌≡◌};
ghost use Rattle.explain_tasks.specs.Facts.{situation_by};

use explain_facts::Forked;
use report::Standing;

/// How a task stands where a run has ended.
#[derive(Clone, Copy, Debug, PartialEq, Eq)]
pub enum Situation {
    /// It waits and is dead.
    Deadlocked,
    /// It waits and is not dead.
    Held,
    /// It has come to the end of its code.
    HasEnded,
    /// It was not forked, and an op forks it.
    NotForkedYet,
    /// No op forks it.
    NeverForked,
}

// How a task stands that the report says to stand so, and that this op forks. Nobody is refused where nobody avoids.
pub(crate) fn situation_by(standing: Standing, fork: Option<Forked>) -> Situation
    ensures { result ≡ situation_by standing fork }
{
    match standing {
        Standing::Done | Standing::Refused(_) => Situation::HasEnded,
        Standing::Dead(_) => Situation::Deadlocked,
        Standing::Held(_) => Situation::Held,
        Standing::Unforked => {
            if fork.is_some() {
                Situation::NotForkedYet
            } else {
                Situation::NeverForked
            }
        }
    }
}
