// Where a byte stands.

/// Where a byte stands in a text.
#[derive(Clone, Copy, Debug, PartialEq, Eq)]
pub enum TextPlace {
    /// By its line and its column, both from 1. A column counts bytes.
    Here { line: u32, column: u32 },
    /// At a place of another program, which the line of the byte names: the name is what stands in the text from byte `from` up to byte `to`.
    Elsewhere { from: u32, to: u32 },
}
