// What the words ask for.
ghost use Rattle.std.specs.Prelude.{◌≡◌, [], ◌∷◌, map, string_bytes};
ghost use Rattle.monitor.specs.MonitorRequests.{asked_behind_guard, may_name_trace, monitor_asked, monitor_asked_of, trace_asked, word_asked_of_monitor};
ghost use Rattle.monitor.specs.calls.Requested.{monitor_requested};

const GUARD: &str = "--guard";

const KEEP_GOING: &str = "--keep-going";

const HELP: &str = "--help";

const VERSION: &str = "--version";

/// What the words ask for.
#[derive(Clone, Copy, Debug)]
pub enum MonitorRequest<'w> {
    /// To monitor the trace of the file with this name, or of standard input: with the guard or without, and passing over lines at fault or not.
    Trace(bool, bool, Option<&'w str>),
    /// The lines of help.
    Help,
    /// The line of the version.
    Version,
    /// Nothing: they are no such words.
    Usage,
}

// Whether a word can be the name of a file.
fn may_name_trace(word: &str) -> bool
    ensures { result ≡ may_name_trace word.now }
{
    match word.as_bytes() {
        [] => false,
        [first, ..] => *first != b'-',
    }
}

// What the words behind the options ask for.
fn trace_request(guards: bool, keeps_going: bool, words: &[String]) -> MonitorRequest<'_>
    ensures { monitor_requested result ≡ trace_asked (record { guards = guards; keeps_going = keeps_going }) (map string_bytes words.now) }
{
    match words {
        [] => MonitorRequest::Trace(guards, keeps_going, None),
        [word] => {
            if may_name_trace(word.as_str()) {
                MonitorRequest::Trace(guards, keeps_going, Some(word.as_str()))
            } else {
                MonitorRequest::Usage
            }
        }
        _ => MonitorRequest::Usage,
    }
}

// What the words behind `--guard` ask for, or behind where it would stand.
fn request_behind_guard(guards: bool, words: &[String]) -> MonitorRequest<'_>
    ensures { monitor_requested result ≡ asked_behind_guard guards (map string_bytes words.now) }
{
    match words {
        [] => trace_request(guards, false, words),
        [word, more @ ..] => {
            if word.as_str() == KEEP_GOING {
                trace_request(guards, true, more)
            } else {
                trace_request(guards, false, words)
            }
        }
    }
}

// What the words ask for that are not one of help or of the version alone.
fn trace_request_of(words: &[String]) -> MonitorRequest<'_>
    ensures { monitor_requested result ≡ monitor_asked_of (map string_bytes words.now) }
{
    match words {
        [] => request_behind_guard(false, words),
        [word, more @ ..] => {
            if word.as_str() == GUARD {
                request_behind_guard(true, more)
            } else {
                request_behind_guard(false, words)
            }
        }
    }
}

// What one word asks for.
fn word_request<'w>(word: &'w str, words: &'w [String]) -> MonitorRequest<'w>
    requires { map string_bytes words.now ≡ word.now ∷ [] }
    ensures { monitor_requested result ≡ word_asked_of_monitor word.now }
{
    if word == HELP {
        return MonitorRequest::Help;
    }
    if word == VERSION {
        return MonitorRequest::Version;
    }
    trace_request_of(words)
}

/// What the words ask for.
pub fn monitor_request_of(words: &[String]) -> MonitorRequest<'_>
    ensures asked { monitor_requested result ≡ monitor_asked (map string_bytes words.now) }
{
    match words {
        [word] => word_request(word.as_str(), words),
        _ => trace_request_of(words),
    }
}
