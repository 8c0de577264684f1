// The form of the words: a first word, uses of its options, each at most once, and a value where the command has one.
ghost use Rattle.std.specs.Prelude.{◌≡◌, List, Option, Some, IfSome, map, string_bytes};
ghost use Rattle.std.specs.List.{list_all};
ghost use Rattle.std.specs.Str.{bytes_eq};
ghost use Rattle.program_io.specs.Texts.{Text};
ghost use Rattle.command_line.specs.Words.{AreWords, Use, dashed, is_value_byte};
ghost use Rattle.command_line.specs.inside.Form.{first_named, fits, free_at, is_free, is_value, option_named, taken_off};
ghost use Rattle.command_line.specs.declared.table.FirstWord.{FirstWord};

use crate::table::{FIRST_WORDS, FirstWord, MAX_VALUE_BYTES, OPTION_WORDS, OptionWord};

/// The options that may still be used.
#[derive(Clone, Copy, Debug, PartialEq, Eq)]
pub struct Free {
    pub print: bool,
    pub workers: bool,
    pub graph: bool,
    pub live: bool,
    pub kept: bool,
    pub sites: bool,
}

// No option may be used.
const NONE: Free = Free {
    print: false,
    workers: false,
    graph: false,
    live: false,
    kept: false,
    sites: false,
};

// The option may still be used.
fn has(free: Free, option: OptionWord) -> bool
    ensures { result ≡ is_free free option }
{
    match option {
        OptionWord::Print => free.print,
        OptionWord::Workers => free.workers,
        OptionWord::Graph => free.graph,
        OptionWord::Live => free.live,
        OptionWord::Kept => free.kept,
        OptionWord::Sites => free.sites,
    }
}

// The free options without one.
fn take_off(free: Free, option: OptionWord) -> Free
    ensures { result ≡ taken_off free option }
{
    match option {
        OptionWord::Print => Free {
            print: false,
            ..free
        },
        OptionWord::Workers => Free {
            workers: false,
            ..free
        },
        OptionWord::Graph => Free {
            graph: false,
            ..free
        },
        OptionWord::Live => Free {
            live: false,
            ..free
        },
        OptionWord::Kept => Free {
            kept: false,
            ..free
        },
        OptionWord::Sites => Free {
            sites: false,
            ..free
        },
    }
}

// Lower-case letters and digits alone.
fn is_plain(text: &str) -> bool
    ensures { result ≡ list_all is_value_byte text.now }
{
    text.as_bytes().iter().all(|b| (b'a' <= *b && *b <= b'z') || (b'0' <= *b && *b <= b'9'))
}

// Lower-case letters or digits, at least one and no more than a value has.
fn is_value_text(text: &str) -> bool
    ensures { result ≡ is_value text.now }
{
    let len = text.len();
    if len < 1 {
        return false;
    }
    if MAX_VALUE_BYTES < len {
        return false;
    }
    is_plain(text)
}

// Whether the word is that of the option.
fn is_word_of(option: OptionWord, word: &str) -> bool
    ensures { result ≡ bytes_eq (dashed option) word.now }
{
    match word.as_bytes().strip_prefix(b"--".as_slice()) {
        Some(name) => option.name().as_bytes() == name,
        None => false,
    }
}

// The option of a word.
fn option_in(word: &str) -> Option<OptionWord>
    ensures { result ≡ option_named word.now }
{
    OPTION_WORDS
        .iter()
        .copied()
        .find(|option| is_word_of(*option, word))
}

// The command of a word.
fn first_in(word: &str) -> Option<FirstWord>
    ensures { result ≡ first_named word.now }
{
    FIRST_WORDS
        .iter()
        .copied()
        .find(|first| first.word() == word)
}

// The words after the first: `waits` says that the option before them wants a value, `alone` that a value stands by itself.
fn fit(words: &[String], waits: bool, free: Free, alone: bool) -> bool
    ensures { result ≡ fits waits free alone (map string_bytes words.now) }
{
    match words {
        [] => !waits && !alone,
        [word, rest @ ..] => {
            if waits {
                return is_value_text(word.as_str()) && fit(rest, false, free, alone);
            }
            match option_in(word.as_str()) {
                Some(option) => {
                    has(free, option)
                        && fit(rest, option.wants_value(), take_off(free, option), alone)
                }
                None => alone && rest.is_empty() && is_value_text(word.as_str()),
            }
        }
    }
}

// The options of a command.
fn options_at(first: FirstWord) -> Free
    ensures { result ≡ free_at first }
{
    match first {
        FirstWord::Check => Free {
            print: true,
            ..NONE
        },
        FirstWord::Run => Free {
            workers: true,
            graph: true,
            live: true,
            sites: true,
            ..NONE
        },
        FirstWord::Avoid => Free {
            workers: true,
            graph: true,
            kept: true,
            ..NONE
        },
        FirstWord::Record => Free {
            workers: true,
            ..NONE
        },
        FirstWord::Replay | FirstWord::Gen => NONE,
        FirstWord::Clock => Free {
            workers: true,
            graph: true,
            live: true,
            ..NONE
        },
        FirstWord::Pool => Free {
            workers: true,
            graph: true,
            ..NONE
        },
    }
}

/// The first word of words that have the form of a command.
pub fn first_word_in(words: &[String]) -> Option<FirstWord>
    ensures sound { IfSome result (λ first. (uses : List Use) × (alone : Option Text) × AreWords (map string_bytes words.now) first uses alone) }
    ensures whole { (first : FirstWord) (uses : List Use) (alone : Option Text) → AreWords (map string_bytes words.now) first uses alone
        → result ≡ Some first }
{
    match words {
        [] => None,
        [word, rest @ ..] => {
            let first = first_in(word.as_str())?;
            if fit(rest, false, options_at(first), first.has_value_alone()) {
                Some(first)
            } else {
                None
            }
        }
    }
}
