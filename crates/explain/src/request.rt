// What the words ask for.
ghost use Rattle.std.specs.Prelude.{◌≡◌, [], ◌∷◌};
ghost use Rattle.explain.specs.Requests.{asked, asked_so, file_asked, names_file, word_asked};
ghost use Rattle.explain.specs.calls.Requested.{asked_for, requested, wanted_by_word};

use crate::answer::WantedOutput;
use crate::extent::Extent;
use armus_base::List;

const ALL: &[u8] = b"--all";

const SHORT: &[u8] = b"--short";

const RUN: &[u8] = b"run";

const STEPS: &[u8] = b"steps";

const AVOID: &[u8] = b"avoid";

const CLOCK: &[u8] = b"clock";

const HELP: &[u8] = b"--help";

const VERSION: &[u8] = b"--version";

/// What the words ask for.
#[derive(Clone, Copy, Debug)]
pub enum Request<'w> {
    /// This of a text.
    Text {
        /// Which output.
        wanted: WantedOutput,
        /// How much of its explanation is shown.
        extent: Extent,
        /// The name of the file with the text, which is read from standard input where there is none.
        file: Option<&'w [u8]>,
    },
    /// The lines of help.
    Help,
    /// The line of the version.
    Version,
    /// Nothing: they are no such words.
    Usage,
}

impl<'w> Request<'w> {
    // What is asked for where a word can only be the name of the file with the text of which this is wanted.
    fn of_file(extent: Extent, wanted: WantedOutput, word: &'w [u8]) -> Request<'w>
        ensures { requested result ≡ file_asked extent (asked_for wanted) word.now }
    {
        if names_file(word) {
            Request::Text {
                wanted,
                extent,
                file: Some(word),
            }
        } else {
            Request::Usage
        }
    }
}

// Whether a word can be the name of a file.
fn names_file(word: &[u8]) -> bool
    ensures { result ≡ names_file word.now }
{
    match word {
        [] => false,
        [first, ..] => *first != b'-',
    }
}

// What a word asks for of a text, if it does.
fn wanted_by_word(word: &[u8]) -> Option<WantedOutput>
    ensures { result ≡ wanted_by_word word.now }
{
    if word == RUN {
        return Some(WantedOutput::Explanation);
    }
    if word == STEPS {
        return Some(WantedOutput::Steps);
    }
    if word == AVOID {
        return Some(WantedOutput::Avoided);
    }
    if word == CLOCK {
        return Some(WantedOutput::Clocks);
    }
    None
}

// What one word asks for.
fn word_request(extent: Extent, word: &[u8]) -> Request<'_>
    ensures { requested result ≡ word_asked extent word.now }
{
    if let Some(wanted) = wanted_by_word(word) {
        return Request::Text {
            wanted,
            extent,
            file: None,
        };
    }
    if word == HELP {
        return Request::Help;
    }
    if word == VERSION {
        return Request::Version;
    }
    Request::of_file(extent, WantedOutput::Explanation, word)
}

// What two words ask for.
fn words_request<'w>(extent: Extent, word: &'w [u8], file: &'w [u8]) -> Request<'w>
    ensures { requested result ≡ asked_so extent (word.now ∷ file.now ∷ []) }
{
    match wanted_by_word(word) {
        Some(wanted) => Request::of_file(extent, wanted, file),
        None => Request::Usage,
    }
}

// What the words ask for, behind `--all` or `--short`, or without them.
fn request_so(extent: Extent, words: &[List<u8>]) -> Request<'_>
    ensures { requested result ≡ asked_so extent words.now }
{
    match words {
        [] => Request::Text {
            wanted: WantedOutput::Explanation,
            extent,
            file: None,
        },
        [word] => word_request(extent, word.as_slice()),
        [word, file] => words_request(extent, word.as_slice(), file.as_slice()),
        _ => Request::Usage,
    }
}

/// What the words ask for.
pub fn request_of(words: &[List<u8>]) -> Request<'_>
    ensures asked { requested result ≡ asked words.now }
{
    match words {
        [] => request_so(Extent::Usual, words),
        [first, rest @ ..] => {
            if first.as_slice() == ALL {
                request_so(Extent::Whole, rest)
            } else if first.as_slice() == SHORT {
                request_so(Extent::Short, rest)
            } else {
                request_so(Extent::Usual, words)
            }
        }
    }
}
