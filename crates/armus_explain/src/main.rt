//! The program that explains a text: the words of the command line, a file or standard input, and standard output, through the top call.
#![tactic(auto)]

use armus_base::{List, NoMemory, StdSink, StdSource};
use explain::{Request, explain, request_of};
use program_io::written_name;
use std::alloc::Global;
use std::env::FillError;
use std::fs::File;
use std::io::{Eprint, ErrorKind, Read};
use std::process::ExitCode;
use std::rt::Env;
use std::str;

// The room for one word: more bytes than the system passes on.
const MOST_WORD: usize = 131_072;

// The words behind the program's name, byte for byte. One that has no room is the empty one, with which no command begins.
fn command_words<R: Env>(rt: &R, alloc: Global) -> Result<Vec<List<u8>>, NoMemory> {
    let mut room = Vec::with_capacity(alloc, MOST_WORD)?;
    for _ in 0..MOST_WORD {
        room.push(0)?;
    }
    let mut words = Vec::new(alloc);
    for i in 1..usize::MAX {
        let length = match rt.arg(i, &mut room) {
            Ok(length) => length,
            Err(FillError::TooLong) => 0,
            Err(FillError::NotPresent) => break,
        };
        let word = Vec::from_slice(alloc, &room[..length])?;
        words.push(List::from_vec(word))?;
    }
    Ok(words)
}

// Explains a text that is read from here, and tells on standard error where that fails.
fn explain_from<I: Read + Drop>(rt: &HostRuntime, words: &[List<u8>], name: &[u8], input: I) -> u8 {
    let mut src = StdSource::new(input);
    let mut out = StdSink::new(rt.stdout());
    let status = explain(rt.alloc(), words, &mut src, &mut out);
    if status == 4 {
        tell(rt, name);
    }
    status
}

// Tells on standard error that this cannot be read.
fn tell(rt: &HostRuntime, name: &[u8]) {
    if let Ok(name) = written_name(rt.alloc(), name) {
        if let Ok(name) = str::from_utf8(name.as_slice()) {
            let _ = eprintln!(rt; "armus_explain: cannot read {name}");
        }
    }
}

// Explains the text of a file. None with a name that is not UTF-8 can be opened.
fn explain_file(rt: &HostRuntime, words: &[List<u8>], name: &[u8]) -> u8 {
    let Ok(path) = str::from_utf8(name) else {
        tell(rt, name);
        return 4;
    };
    match File::open(rt, path) {
        Ok(file) => explain_from(rt, words, name, file),
        Err(e) if e.kind() == ErrorKind::OutOfMemory => 6,
        Err(_) => {
            tell(rt, name);
            4
        }
    }
}

fn main(rt: HostRuntime) -> ExitCode {
    let words = match command_words(&rt, rt.alloc()) {
        Ok(words) => words,
        Err(NoMemory) => return ExitCode::from(6),
    };
    let words = words.as_slice();
    let status = match request_of(words) {
        Request::Text {
            file: Some(name),
            ..
        } => explain_file(&rt, words, name),
        _ => explain_from(&rt, words, b"standard input", rt.stdin()),
    };
    ExitCode::from(status)
}
