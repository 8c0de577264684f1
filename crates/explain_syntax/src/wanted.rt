// What is wanted at a place of a text.
ghost use Rattle.std.specs.Prelude.{◌≡◌, ◌++◌, OnOk};
ghost use Rattle.explain_syntax.specs.Wanted.{sign_words, wanted_words};

use armus_base::NoMemory;
use pl_syntax::token::Sign;

/// Which tokens may stand at a place.
#[derive(Clone, Copy, Debug, PartialEq, Eq)]
pub enum WantedTokens {
    /// The first token of a statement, or `}`.
    StatementOrBrace,
    /// The first token of a statement, or the end of the text.
    StatementOrEnd,
    /// `=` or the number 2.
    EqualsOrTwo,
    /// `)`, `+` or `-`.
    ParenOrOffset,
    /// This sign.
    Sign(Sign),
    /// A name.
    Name,
    /// A number.
    Number,
    /// `newTid` or `newPhaser`.
    Maker,
}

// The sign, between `'`.
fn sign_words(sign: Sign) -> &'static [u8]
    ensures { result.now ≡ sign_words sign }
{
    match sign {
        Sign::Equals => b"'='",
        Sign::OpenParen => b"'('",
        Sign::CloseParen => b"')'",
        Sign::Comma => b"','",
        Sign::Semicolon => b"';'",
        Sign::OpenBrace => b"'{'",
        Sign::CloseBrace => b"'}'",
        Sign::Plus => b"'+'",
        Sign::Minus => b"'-'",
    }
}

// What is wanted, in words.
fn wanted_words(wanted: WantedTokens) -> &'static [u8]
    ensures { result.now ≡ wanted_words wanted }
{
    match wanted {
        WantedTokens::StatementOrBrace => b"a statement or '}'",
        WantedTokens::StatementOrEnd => b"a statement or the end of the text",
        WantedTokens::EqualsOrTwo => b"'=' or '2'",
        WantedTokens::ParenOrOffset => b"')', '+' or '-'",
        WantedTokens::Sign(sign) => sign_words(sign),
        WantedTokens::Name => b"a name",
        WantedTokens::Number => b"a number",
        WantedTokens::Maker => b"'newTid' or 'newPhaser'",
    }
}

/// Appends what is wanted, in words.
pub(crate) fn put_wanted(out: &mut Vec<u8>, wanted: WantedTokens) -> Result<(), NoMemory>
    ensures { OnOk result (out.new.items ≡ out.old.items ++ wanted_words wanted) }
{
    out.extend_from_slice(wanted_words(wanted))?;
    Ok(())
}
