// How a text is read.

/// A language by whose keywords a text is read.
#[derive(Clone, Copy, Debug, PartialEq, Eq)]
pub enum Language {
    /// PL, the language of tasks and phasers.
    Phasers,
    /// The language of activities and clocks.
    Clocks,
}

/// How a text is read: how many bytes it has in all, whether `+` and `-` are signs in what is left of it, and whose keywords it has.
#[derive(Clone, Copy, Debug)]
pub struct Scan {
    pub total: usize,
    pub offsets: bool,
    pub language: Language,
}
