// The limits of a program text, each said once: the definitions in specs/ cite them too.

/// How many braces may be open at any point of a text.
pub const MAX_OPEN_BRACES: u32 = 64;

/// How many bytes a name has at most.
pub const MAX_NAME_BYTES: usize = 32;

/// How many digits a number has at most.
pub const MAX_DIGITS: usize = 5;

/// The greatest number of a loop.
pub const MAX_NUMBER: u32 = 65_535;

/// How many bytes of text `parse` takes at most.
pub const MAX_PARSED_BYTES: usize = 8_388_608;
