// The lines of a schedule.
ghost use Rattle.std.specs.Prelude.{◌≡◌, ◌<◌, ◌≤◌, ◌^◌, ℕ, List as Seq, Some, None, IfOk, IsTrue, ◌↔◌, MatchOption, length, take, slice_index};
ghost use Rattle.std.specs.Fmt.{decimal};
ghost use Rattle.schedule.specs.Lines.{line_end, HasNoEnd, IsFirstLine, IsSchedule, Says};
ghost use Rattle.schedule.specs.inside.Numbers.{MayBeNumber};

use armus_base::{List, NoMemory};
use std::alloc::Global;
use std::str;

/// What one line of a schedule says.
#[derive(Clone, Copy, Debug, PartialEq, Eq)]
pub enum Line {
    /// The one next step of this task.
    Step(u32),
    /// A pass starts.
    Pass,
    /// The next load of the open pass.
    Load,
    /// None of these.
    Unreadable,
}

// How many digits the number of a task has at most.
const MOST_DIGITS: usize = 9;

// How many bytes stand before the end of the first line.
fn line_length(bytes: &[u8]) -> usize
    ensures within { result ≤ length bytes.now }
    ensures no_end { HasNoEnd (take result bytes.now) }
    ensures ended { result < length bytes.now → slice_index bytes.now result ≡ line_end }
{
    for (at, byte) in bytes.iter().enumerate() {
        if *byte == b'\n' {
            return at;
        }
    }
    bytes.len()
}

/// The first line, and what stands behind its end.
pub fn first_line(bytes: &[u8]) -> (&[u8], &[u8])
    requires some { 0 < length bytes.now }
    ensures cut { IsFirstLine bytes.now result.0.now result.1.now }
    ensures shorter { length result.1.now < length bytes.now }
{
    let length = line_length(bytes);
    if length < bytes.len() {
        (&bytes[..length], &bytes[length + 1..])
    } else {
        (bytes, &[])
    }
}

// Whether these bytes are 1 to 9, with neither a leading zero nor a sign.
fn may_be_number(bytes: &[u8]) -> bool
    ensures { IsTrue result ↔ MayBeNumber bytes.now }
{
    match bytes.first() {
        None => false,
        Some(first) => {
            *first != b'+' && bytes.len() <= MOST_DIGITS && (*first != b'0' || bytes.len() == 1)
        }
    }
}

// The number whose decimal these bytes are, where it has at most 9 digits.
#[tactic(auto, using(crate::proofs::Numbers::not_number, crate::proofs::Numbers::not_text))]
fn number(bytes: &[u8]) -> Option<u32>
    ensures { MatchOption result ((n : ℕ) → n < 10 ^ MOST_DIGITS → bytes.now ≡ decimal n → ⊥) (λ n. n < 10 ^ MOST_DIGITS × bytes.now ≡ decimal n) }
{
    if !may_be_number(bytes) {
        return None;
    }
    match str::from_utf8(bytes) {
        Ok(text) => match text.parse::<u32>() {
            Ok(n) => Some(n),
            Err(_) => None,
        },
        Err(_) => None,
    }
}

// What a line says.
fn line_of(bytes: &[u8]) -> Line
    ensures { Says bytes.now result }
{
    if bytes == b"pass".as_slice() {
        return Line::Pass;
    }
    if bytes == b"l".as_slice() {
        return Line::Load;
    }
    if bytes.len() < 2 || bytes[0] != b't' || bytes[1] != b' ' {
        return Line::Unreadable;
    }
    match number(&bytes[2..]) {
        Some(n) => Line::Step(n),
        None => Line::Unreadable,
    }
}

// How many line ends there are.
fn feeds(bytes: &[u8]) -> usize
    ensures { result ≤ length bytes.now }
{
    bytes.iter().filter(|byte| **byte == b'\n').count()
}

/// Reads each line of a schedule. A line is ended by LF or by the end of the bytes, and an empty rest is no line.
pub fn read_lines(alloc: Global, bytes: &[u8]) -> Result<List<Line>, NoMemory>
    requires short { length bytes.now < 2 ^ 32 }
    ensures lines { IfOk result (λ lines. IsSchedule bytes.now lines) }
{
    let mut lines = Vec::with_capacity(alloc, feeds(bytes) + 1)?;
    let mut rest = bytes;
    while !rest.is_empty() {
        let (line, more) = first_line(rest);
        lines.push(line_of(line))?;
        rest = more;
    }
    Ok(List::from_vec(lines))
}
