// The limit of a text of the language of clocks; the definitions in specs/ cite it too.

/// How many bytes of text `clock_parse` takes at most.
pub const MAX_CLOCK_BYTES: usize = 1_048_576;
