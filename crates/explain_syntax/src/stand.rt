// What is known of the place of a fault.
use crate::wanted::WantedTokens;

/// Which name stands before a place.
#[derive(Clone, Copy, Debug, PartialEq, Eq)]
pub enum Behind {
    /// A word with which a statement of the language of clocks begins.
    ClockWord,
    /// `pl`.
    Header,
    /// `if`, with which other languages begin a condition.
    Condition,
    /// `while` or `for`, with which other languages begin a loop.
    Repetition,
    /// Another name, no name, or nothing.
    Other,
}

/// What the grammar says of a place of a text.
#[derive(Clone, Copy, Debug, PartialEq, Eq)]
pub struct GrammarStand {
    /// Which tokens may stand there.
    pub wanted: WantedTokens,
    /// Which name stands before it.
    pub behind: Behind,
    /// Where the innermost brace stands that is open there, as the number of bytes before it.
    pub brace: Option<u32>,
}
