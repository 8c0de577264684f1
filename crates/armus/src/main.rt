//! The program: the words of the command line, standard input and standard output, through the top call.
#![tactic(auto)]

use armus_base::{NoMemory, StdSink, StdSource, Still};
use armus_top::armus;
use program_io::command_words;
use std::process::ExitCode;

fn main(rt: HostRuntime) -> ExitCode {
    let alloc = rt.alloc();
    let words = match command_words(&rt, alloc) {
        Ok(words) => words,
        Err(NoMemory) => return ExitCode::from(6),
    };
    let mut src = StdSource::new(rt.stdin());
    let mut out = StdSink::new(rt.stdout());
    let status = armus(&rt, alloc, words.as_slice(), &mut src, &mut out, &Still);
    ExitCode::from(status)
}
