// How much of an explanation is shown.

/// How much of an explanation is shown.
#[derive(Clone, Copy, Debug, PartialEq, Eq)]
pub enum Extent {
    /// All of it.
    Whole,
    /// At most 60 lines, and at most 499 bytes of each.
    Usual,
    /// The lines in front of its paragraphs, and its hint.
    Short,
}
