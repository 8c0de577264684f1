// When a pass goes beside a round.
use armus_base::Plan;

// so many rounds have a pass, whatever happened in them
const FIRST_ROUNDS: u32 = 16;

// to load so many words takes about as long as an action
const WORDS_FOR_AN_ACTION: u64 = 16;

/// How many words a pass may load, how many rounds there were, and how many actions were made since the last one that had a pass. Where most tasks only stand
/// there a pass takes much longer than a round; so behind the first rounds one goes beside a round only where the actions since the last one took about as long.
#[derive(Drop)]
pub(crate) struct PassTimes {
    words: u64,
    rounds: u32,
    actions: u64,
}

impl PassTimes {
    /// Before the first round of a run of this plan.
    pub(crate) fn new(plan: &Plan) -> PassTimes {
        PassTimes {
            words: u64::from(plan.tasks()).saturating_mul(u64::from(plan.phasers()) + 1),
            rounds: 0,
            actions: 0,
        }
    }

    /// Whether a pass goes beside the next round.
    pub(crate) fn is_due(&self) -> bool {
        self.rounds < FIRST_ROUNDS || self.words <= self.actions.saturating_mul(WORDS_FOR_AN_ACTION)
    }

    /// Notes how many actions the next round had.
    pub(crate) fn note(&mut self, actions: u32) {
        if self.is_due() {
            self.actions = 0;
        }
        self.rounds = self.rounds.saturating_add(1);
        self.actions = self.actions.saturating_add(u64::from(actions));
    }
}
