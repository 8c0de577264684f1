// Words of a text, as they stand in sentences.
ghost use Rattle.std.specs.Prelude.{◌≡◌, ◌≤◌, ◌++◌, OnOk, length, take};
ghost use Rattle.std.specs.List.{prefix_len};
ghost use Rattle.pl_syntax.specs.Words.{is_word_byte};
ghost use Rattle.pl_syntax.specs.Tokens.{word_of};
ghost use Rattle.explain_syntax.specs.QuotedWords.{quoted, shown_word, spelled};

use armus_base::NoMemory;

/// How many bytes of a word stand in a sentence at most.
pub const MAX_SHOWN_BYTES: usize = 40;

/// A letter, a digit or `_`.
pub(crate) fn is_word_byte(b: u8) -> bool
    ensures { result ≡ is_word_byte b }
{
    matches!(b, b'a'..=b'z' | b'A'..=b'Z' | b'0'..=b'9' | b'_')
}

// How long the run of letters, digits and _ at the front is.
fn word_len(text: &[u8]) -> usize
    ensures len { result ≡ prefix_len is_word_byte text.now }
    ensures within { result ≤ length text.now }
{
    text.iter().take_while(|b| is_word_byte(**b)).count()
}

// The longest run of letters, digits and _ at the front.
fn word_of(text: &[u8]) -> &[u8]
    ensures { result.now ≡ word_of text.now }
{
    &text[..word_len(text)]
}

/// The word at the front of a text, or its first byte where that is none of a word.
pub fn spelled(text: &[u8]) -> &[u8]
    ensures { result.now ≡ spelled text.now }
{
    match text {
        [] => text,
        [b, ..] if is_word_byte(*b) => word_of(text),
        [_, ..] => &text[..1],
    }
}

// So many first bytes of a word.
fn first_bytes(word: &[u8], count: usize) -> &[u8]
    requires { count ≤ length word.now }
    ensures { result.now ≡ take count word.now }
{
    &word[..count]
}

// Appends a word as it is shown.
fn put_shown_word(out: &mut Vec<u8>, word: &[u8]) -> Result<(), NoMemory>
    ensures { OnOk result (out.new.items ≡ out.old.items ++ shown_word word.now) }
{
    if word.len() <= MAX_SHOWN_BYTES {
        out.extend_from_slice(word)?;
        return Ok(());
    }
    out.extend_from_slice(first_bytes(word, MAX_SHOWN_BYTES))?;
    out.extend_from_slice(b"..")?;
    Ok(())
}

/// Appends a word between `'`. Of one with more than 40 bytes the first 40 and `..` are written.
pub fn put_quoted(out: &mut Vec<u8>, word: &[u8]) -> Result<(), NoMemory>
    ensures { OnOk result (out.new.items ≡ out.old.items ++ quoted word.now) }
{
    out.extend_from_slice(b"'")?;
    put_shown_word(out, word)?;
    out.extend_from_slice(b"'")?;
    Ok(())
}
