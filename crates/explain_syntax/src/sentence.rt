// What is wrong at the place of a syntax fault.
ghost use Rattle.std.specs.Prelude.{◌≡◌, ◌++◌, OnOk, codes, decimal, length};
ghost use Rattle.explain_syntax.specs.QuotedWords.{quoted, spelled};
ghost use Rattle.explain_syntax.specs.SyntaxSentences.{byte_words, found_words, no_token_words, syntax_sentence};
ghost use Rattle.explain_syntax.specs.Wanted.{wanted_words};

use crate::wanted::{WantedTokens, put_wanted};
use crate::word::{is_word_byte, put_quoted, spelled};
use armus_base::NoMemory;
use pl_syntax::{CANNOT_STAND, NO_NUMBER, NO_TOKEN, TOO_DEEP};
use std::alloc::Global;

// A word that is no name.
fn put_no_name(out: &mut Vec<u8>, rest: &[u8]) -> Result<(), NoMemory>
    ensures { OnOk result (out.new.items ≡ out.old.items ++ (quoted (spelled rest.now) ++ codes " is no name: a name has lower-case letters, digits and _, and begins with a letter")) }
{
    put_quoted(out, spelled(rest))?;
    out.extend_from_slice(
        b" is no name: a name has lower-case letters, digits and _, and begins with a letter",
    )?;
    Ok(())
}

// A byte that begins no token.
fn put_no_sign(alloc: Global, out: &mut Vec<u8>, b: u8) -> Result<(), NoMemory>
    ensures { OnOk result (out.new.items ≡ out.old.items ++ (byte_words b ++ codes " begins no token")) }
{
    if b >= 33 && b <= 126 {
        put_quoted(out, &[b])?;
    } else {
        let text = format!(in alloc; "byte {b}")?;
        out.extend_from_slice(text.as_bytes())?;
    }
    out.extend_from_slice(b" begins no token")?;
    Ok(())
}

// What begins no token.
fn put_no_token(alloc: Global, out: &mut Vec<u8>, rest: &[u8]) -> Result<(), NoMemory>
    ensures { OnOk result (out.new.items ≡ out.old.items ++ no_token_words rest.now) }
{
    match rest {
        [] => Ok(()),
        [b, ..] if is_word_byte(*b) => put_no_name(out, rest),
        [b, ..] => put_no_sign(alloc, out, *b),
    }
}

// A token as it stands in the text, or the end of the text.
fn put_found(out: &mut Vec<u8>, rest: &[u8]) -> Result<(), NoMemory>
    ensures { OnOk result (out.new.items ≡ out.old.items ++ found_words rest.now) }
{
    if rest.is_empty() {
        out.extend_from_slice(b"the end of the text")?;
        return Ok(());
    }
    put_quoted(out, spelled(rest))
}

// A token that cannot stand here.
fn put_cannot_stand(out: &mut Vec<u8>, rest: &[u8], wanted: WantedTokens) -> Result<(), NoMemory>
    ensures { OnOk result (out.new.items ≡ out.old.items ++ (wanted_words wanted ++ codes " is wanted here, not " ++ found_words rest.now)) }
{
    put_wanted(out, wanted)?;
    out.extend_from_slice(b" is wanted here, not ")?;
    put_found(out, rest)
}

// A word that is no number.
fn put_no_number(out: &mut Vec<u8>, rest: &[u8]) -> Result<(), NoMemory>
    ensures { OnOk result (out.new.items ≡ out.old.items ++ (quoted (spelled rest.now) ++ codes " is no number: a number is 0 to 65535, without leading zeros")) }
{
    put_quoted(out, spelled(rest))?;
    out.extend_from_slice(b" is no number: a number is 0 to 65535, without leading zeros")?;
    Ok(())
}

// A brace too many.
fn put_too_deep(out: &mut Vec<u8>) -> Result<(), NoMemory>
    ensures { OnOk result (out.new.items ≡ out.old.items ++ codes "this brace is the 65th that is open: at most 64 may be") }
{
    out.extend_from_slice(b"this brace is the 65th that is open: at most 64 may be")?;
    Ok(())
}

// How many bytes a name has.
fn put_length(alloc: Global, out: &mut Vec<u8>, len: usize) -> Result<(), NoMemory>
    ensures { OnOk result (out.new.items ≡ out.old.items ++ (codes " has " ++ decimal len ++ codes " bytes: a name has at most 32")) }
{
    let text = format!(in alloc; " has {len} bytes: a name has at most 32")?;
    out.extend_from_slice(text.as_bytes())?;
    Ok(())
}

// A name that is too long.
fn put_too_long(alloc: Global, out: &mut Vec<u8>, rest: &[u8]) -> Result<(), NoMemory>
    ensures { OnOk result (out.new.items ≡ out.old.items ++ (quoted (spelled rest.now) ++ codes " has " ++ decimal (length (spelled rest.now)) ++ codes " bytes: a name has at most 32")) }
{
    let word = spelled(rest);
    put_quoted(out, word)?;
    put_length(alloc, out, word.len())
}

/// Appends what is wrong at a place, from which on this is left of the text.
pub(crate) fn put_sentence(
    alloc: Global,
    out: &mut Vec<u8>,
    kind: u8,
    rest: &[u8],
    wanted: WantedTokens,
) -> Result<(), NoMemory>
    ensures { OnOk result (out.new.items ≡ out.old.items ++ syntax_sentence kind rest.now wanted) }
{
    match kind {
        NO_TOKEN => put_no_token(alloc, out, rest),
        CANNOT_STAND => put_cannot_stand(out, rest, wanted),
        NO_NUMBER => put_no_number(out, rest),
        TOO_DEEP => put_too_deep(out),
        _ => put_too_long(alloc, out, rest),
    }
}
