// The names behind `of`.
ghost use Rattle.std.specs.Prelude.{◌≡◌, bytes_eq};
ghost use Rattle.std.specs.List.{list_any};
ghost use Rattle.std.specs.Option.{option_copied};
ghost use Rattle.trace_lines.specs.inside.Reading.{are_names, words_behind, spaced_words};

use crate::words::{behind_word, is_participant_name, word_before_space};

// Whether one of the words, which stand one behind the other, is this one.
fn has_word(bytes: &[u8], word: &[u8]) -> bool
    ensures { result ≡ list_any (bytes_eq word.now) (spaced_words bytes.now) }
{
    let mut rest = Some(bytes);
    while let Some(bytes) = rest {
        if word == word_before_space(bytes) {
            return true;
        }
        rest = behind_word(bytes);
    }
    false
}

// Whether one of the words that are left is this one.
fn is_left(rest: Option<&[u8]>, word: &[u8]) -> bool
    ensures { result ≡ list_any (bytes_eq word.now) (words_behind (option_copied rest.entry)) }
{
    match rest {
        None => false,
        Some(bytes) => has_word(bytes, word),
    }
}

/// Whether these are names of tasks, one behind the other and a space between, no two the same.
pub(crate) fn are_names(bytes: &[u8]) -> bool
    ensures { result ≡ are_names (spaced_words bytes.now) }
{
    let mut rest = Some(bytes);
    while let Some(bytes) = rest {
        let word = word_before_space(bytes);
        rest = behind_word(bytes);
        if !is_participant_name(word) {
            return false;
        }
        if is_left(rest, word) {
            return false;
        }
    }
    true
}
