// Why a text is no program.

ghost use Rattle.std.specs.Prelude.{◌≡◌};
ghost use Rattle.pl_syntax.specs.declared.fault.ParseEnd.TheVariants as ends;

use armus_base::WantOfMemory;
use thiserror::Error;

/// The kind of a byte that begins no token, and of a word with a capital letter or a first `_` that is no keyword.
pub const NO_TOKEN: u8 = 1;

/// The kind of a token that cannot stand where it stands, the end of the text included.
pub const CANNOT_STAND: u8 = 2;

/// The kind of a word that begins with a digit and is no number.
pub const NO_NUMBER: u8 = 3;

/// The kind of a `{` that would be one open brace too many.
pub const TOO_DEEP: u8 = 4;

/// The kind of a name with too many bytes.
pub const TOO_LONG: u8 = 5;

/// The first fault of a text.
#[derive(Clone, Copy, Debug, PartialEq, Eq)]
pub struct SyntaxFault {
    /// Its place, in bytes from 0. The end of the text has the text's length as its place.
    pub at: u32,
    /// Its kind, one of the five constants above, from 1 to 5.
    pub kind: u8,
}

/// Why `parse` gives no program.
#[derive(Debug, Drop, Error)]
pub enum ParseEnd {
    /// The text is not in the grammar; this is its first fault.
    #[error("syntax fault of kind {} at byte {}", .0.kind, .0.at)]
    Syntax(SyntaxFault),
    /// Memory ran out.
    #[error("want of memory")]
    NoMemory,
}

impl<E: WantOfMemory> From<E> for ParseEnd {
    ghost from_gives = { λ _ e. e ≡ ends.NoMemory };

    fn from(_e: E) -> ParseEnd {
        ParseEnd::NoMemory
    }
}

impl From<SyntaxFault> for ParseEnd {
    ghost from_gives = { λ f e. e ≡ ends.Syntax f };

    fn from(f: SyntaxFault) -> ParseEnd {
        ParseEnd::Syntax(f)
    }
}
