// In which language a text is, where a text of either is read.
ghost use Rattle.std.specs.Prelude.{◌≡◌, ◌≤◌, length};
ghost use Rattle.pl_syntax.specs.inside.Seen.{front_seen};
ghost use Rattle.program_io.specs.declared.text_limit.TheConstants.{MAX_TEXT_BYTES};
ghost use Rattle.explain.specs.Languages.{begins_with_clocks, is_clock_name, is_equals, is_of_clocks, is_word_of_clocks};
ghost use Rattle.explain.specs.calls.Requested.{file_bytes};

use pl_syntax::SyntaxFault;
use pl_syntax::lexer::next;
use pl_syntax::scan::{Language, Scan};
use pl_syntax::token::{Keyword, Sign, Token};

const ENDING: &[u8] = b".clock";

// Whether a statement of clocks begins with this word.
fn is_word_of_clocks(word: Keyword) -> bool
    ensures { result ≡ is_word_of_clocks word }
{
    matches!(
        word,
        Keyword::Clock
            | Keyword::Async
            | Keyword::Finish
            | Keyword::Advance
            | Keyword::Resume
            | Keyword::Drop
    )
}

// Whether this is the token `=`.
fn is_equals(found: Result<(Token<'_>, &[u8]), SyntaxFault>) -> bool
    ensures { result ≡ is_equals (front_seen found.entry) }
{
    matches!(found, Ok((Token::Sign(Sign::Equals), _)))
}

// Whether the text begins with a statement of clocks.
fn begins_with_clocks(text: &[u8]) -> bool
    requires short { length text.now ≤ MAX_TEXT_BYTES }
    ensures { result ≡ begins_with_clocks text.now }
{
    let scan = Scan {
        total: text.len(),
        offsets: false,
        language: Language::Clocks,
    };
    match next(scan, text) {
        Ok((Token::Word(word), rest)) => is_word_of_clocks(word) && !is_equals(next(scan, rest)),
        _ => false,
    }
}

// Whether the name of a file, if there is one, ends with `.clock`.
fn is_clock_name(file: Option<&[u8]>) -> bool
    ensures { result ≡ is_clock_name (file_bytes file.entry) }
{
    match file {
        None => false,
        Some(name) => {
            let (_, ending) = name.split_at(name.len().saturating_sub(ENDING.len()));
            ending == ENDING
        }
    }
}

/// Whether the text, of the file with this name or of none, is read as one of clocks.
pub(crate) fn is_of_clocks(file: Option<&[u8]>, text: &[u8]) -> bool
    requires short { length text.now ≤ MAX_TEXT_BYTES }
    ensures { result ≡ is_of_clocks (file_bytes file.entry) text.now }
{
    begins_with_clocks(text) || is_clock_name(file)
}
