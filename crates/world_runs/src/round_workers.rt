// How many workers a round has.
ghost use Rattle.std.specs.Prelude.{◌≤◌};

// so many rounds have all workers, whatever there is to do
const FIRST_ROUNDS: u32 = 16;

// so many actions take longer than to start a thread for them
const WORTH_A_THREAD: u32 = 20_000;

// more workers no run has
const MOST_WORKERS: u32 = 64;

/// How many rounds there were, and how many actions the last one had. To start a thread takes as long as thousands of actions, so behind the first rounds a
/// round has no more workers than the one before had work for.
#[derive(Drop)]
pub struct RoundWorkers {
    rounds: u32,
    actions: u32,
}

impl RoundWorkers {
    /// Before the first round.
    pub fn new() -> RoundWorkers {
        RoundWorkers {
            rounds: 0,
            actions: 0,
        }
    }

    // How many workers had work in the last round.
    fn had_work(&self) -> u32
        ensures few { result ≤ 64 }
    {
        (1 + self.actions / WORTH_A_THREAD).min(MOST_WORKERS)
    }

    /// Whether the next round is to start threads.
    pub fn wants_threads(&self) -> bool {
        self.rounds < FIRST_ROUNDS || self.had_work() > 1
    }

    /// How many workers the next round has, where a run has so many.
    pub fn workers(&self, most: u8) -> u8 {
        if self.rounds < FIRST_ROUNDS {
            most
        } else {
            most.min(self.had_work() as u8)
        }
    }

    /// Notes how many actions a round had.
    pub fn note(&mut self, actions: u32) {
        self.rounds = self.rounds.saturating_add(1);
        self.actions = actions;
    }
}
