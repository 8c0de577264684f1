//! The monitor of running programs: the words of the command line, a file or standard input, and standard output, through the top call.
#![tactic(auto)]

use armus_base::NoMemory;
use monitor::{MonitorRequest, StdPort, monitor, monitor_request_of};
use program_io::{command_words, written_name};
use std::fs::File;
use std::io::{Eprint, ErrorKind, Read};
use std::process::ExitCode;
use std::str;

// Monitors a trace that is read from here, and tells on standard error where reading failed.
fn monitor_from<I: Read + Drop>(rt: &HostRuntime, words: &[String], name: &str, input: I) -> u8 {
    let mut port = StdPort::new(input, rt.stdout());
    let status = monitor(rt.alloc(), words, &mut port);
    if status == 4 {
        tell(rt, name);
    }
    status
}

// Tells on standard error that this cannot be read.
fn tell(rt: &HostRuntime, name: &str) {
    if let Ok(name) = written_name(rt.alloc(), name.as_bytes()) {
        if let Ok(name) = str::from_utf8(name.as_slice()) {
            let _ = eprintln!(rt; "armus_monitor: cannot read {name}");
        }
    }
}

// Monitors the trace of a file.
fn monitor_file(rt: &HostRuntime, words: &[String], name: &str) -> u8 {
    match File::open(rt, name) {
        Ok(file) => monitor_from(rt, words, name, file),
        Err(e) if e.kind() == ErrorKind::OutOfMemory => 6,
        Err(_) => {
            tell(rt, name);
            4
        }
    }
}

fn main(rt: HostRuntime) -> ExitCode {
    let words = match command_words(&rt, rt.alloc()) {
        Ok(words) => words,
        Err(NoMemory) => return ExitCode::from(6),
    };
    let words = words.as_slice();
    let status = match monitor_request_of(words) {
        MonitorRequest::Trace(_, _, Some(name)) => monitor_file(&rt, words, name),
        _ => monitor_from(&rt, words, "standard input", rt.stdin()),
    };
    ExitCode::from(status)
}
