// The limit of the unfolding. Those of plans are in `armus_base`.

/// How many visits the unfolding of a program may have: each coming to a statement, a loop included, and each beginning of a loop's turn.
pub const MAX_VISITS: u32 = 4_194_304;
