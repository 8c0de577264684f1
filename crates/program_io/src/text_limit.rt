// The limit of texts.

/// The most bytes of a text.
pub const MAX_TEXT_BYTES: usize = 1_048_576;
