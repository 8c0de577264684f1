// The first words of commands, and their options. Each word stands here once.
ghost use Rattle.std.specs.Prelude.{◌≡◌};
ghost use Rattle.command_line.specs.Words.{first_word, has_value_alone, name_of, wants_value};

/// The workers of a run where the words name no number.
pub const DEFAULT_WORKERS: u8 = 4;

/// The most workers in a generated text.
pub const MAX_GENERATED: u16 = 1000;

/// The most bytes of a value.
pub const MAX_VALUE_BYTES: usize = 16;

/// The word of `check`.
pub const CHECK: &str = "check";

/// The word of `run`.
pub const RUN: &str = "run";

/// The word of `avoid`.
pub const AVOID: &str = "avoid";

/// The word of `record`.
pub const RECORD: &str = "record";

/// The word of `replay`.
pub const REPLAY: &str = "replay";

/// The word of `gen`.
pub const GEN: &str = "gen";

/// The word of `clock`.
pub const CLOCK: &str = "clock";

/// The word of `pool`.
pub const POOL: &str = "pool";

/// The name of the option that prints.
pub const PRINT: &str = "print";

/// The name of the option for the number of workers.
pub const WORKERS: &str = "workers";

/// The name of the option for the graph.
pub const GRAPH: &str = "graph";

/// The name of the option that tells of dead tasks while others go on.
pub const LIVE: &str = "live";

/// The name of the option that keeps an order of the tasks.
pub const KEPT: &str = "kept";

/// The name of the option for the number of sites.
pub const SITES: &str = "sites";

/// The name under which `clap` keeps a value that stands by itself.
pub const ALONE: &str = "count";

/// All first words.
pub const FIRST_WORDS: [FirstWord; 8] = [
    FirstWord::Check,
    FirstWord::Run,
    FirstWord::Avoid,
    FirstWord::Record,
    FirstWord::Replay,
    FirstWord::Gen,
    FirstWord::Clock,
    FirstWord::Pool,
];

/// All options.
pub const OPTION_WORDS: [OptionWord; 6] = [
    OptionWord::Print,
    OptionWord::Workers,
    OptionWord::Graph,
    OptionWord::Live,
    OptionWord::Kept,
    OptionWord::Sites,
];

/// The first word of a command.
#[derive(Clone, Copy, Debug, PartialEq, Eq)]
pub enum FirstWord {
    Check,
    Run,
    Avoid,
    Record,
    Replay,
    Gen,
    Clock,
    Pool,
}

impl FirstWord {
    /// The word itself.
    pub fn word(self) -> &'static str
        ensures { result.now ≡ first_word self }
    {
        match self {
            FirstWord::Check => CHECK,
            FirstWord::Run => RUN,
            FirstWord::Avoid => AVOID,
            FirstWord::Record => RECORD,
            FirstWord::Replay => REPLAY,
            FirstWord::Gen => GEN,
            FirstWord::Clock => CLOCK,
            FirstWord::Pool => POOL,
        }
    }

    /// Whether a value stands by itself after its options.
    pub fn has_value_alone(self) -> bool
        ensures { result ≡ has_value_alone self }
    {
        match self {
            FirstWord::Gen => true,
            FirstWord::Check
            | FirstWord::Run
            | FirstWord::Avoid
            | FirstWord::Record
            | FirstWord::Replay
            | FirstWord::Clock
            | FirstWord::Pool => false,
        }
    }
}

/// An option of some command.
#[derive(Clone, Copy, Debug, PartialEq, Eq)]
pub enum OptionWord {
    Print,
    Workers,
    Graph,
    Live,
    Kept,
    Sites,
}

impl OptionWord {
    /// The name of the option, without its two hyphens.
    pub fn name(self) -> &'static str
        ensures { result.now ≡ name_of self }
    {
        match self {
            OptionWord::Print => PRINT,
            OptionWord::Workers => WORKERS,
            OptionWord::Graph => GRAPH,
            OptionWord::Live => LIVE,
            OptionWord::Kept => KEPT,
            OptionWord::Sites => SITES,
        }
    }

    /// Whether a value follows it.
    pub fn wants_value(self) -> bool
        ensures { result ≡ wants_value self }
    {
        match self {
            OptionWord::Print | OptionWord::Live | OptionWord::Kept => false,
            OptionWord::Workers | OptionWord::Graph | OptionWord::Sites => true,
        }
    }
}
