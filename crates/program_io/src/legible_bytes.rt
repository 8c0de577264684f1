// What is written of an output: no control characters, and no bytes that spell no character.
ghost use Rattle.std.specs.Prelude.{◌≡◌, IfOk, if◌then◌else◌};
ghost use Rattle.std.specs.Str.{continuation_len};
ghost use Rattle.std.specs.Str.Lossy.{second_byte_max};
ghost use Rattle.program_io.specs.Legible.{begins_character, is_continued, is_further, is_second, least_second, legible, may_begin, told_name};
ghost use Rattle.program_io.specs.inside.LegibleBytes.{behind_byte, legible_byte, told_byte};

use armus_base::{List, NoMemory};
use std::alloc::Global;

// Whether a character may begin with this byte that a terminal shows, or that is a tab or the end of a line.
fn may_begin(first: u8) -> bool
    ensures { result ≡ may_begin first }
{
    first == 9 || first == 10 || (32 <= first && first <= 126) || (194 <= first && first <= 244)
}

// The least byte that may stand behind this first one.
fn least_second(first: u8) -> u8
    ensures { result ≡ least_second first }
{
    if first == 194 {
        return 160;
    }
    if first == 224 {
        return 160;
    }
    if first == 240 { 144 } else { 128 }
}

// The greatest byte that may stand behind this first one.
fn greatest_second(first: u8) -> u8
    ensures { result ≡ second_byte_max first }
{
    if first == 237 {
        return 159;
    }
    if first == 244 { 143 } else { 191 }
}

// Whether this byte, if there is one, may stand behind this first one.
fn is_second(first: u8, byte: Option<u8>) -> bool
    ensures { result ≡ is_second first byte }
{
    match byte {
        None => false,
        Some(byte) => least_second(first) <= byte && byte <= greatest_second(first),
    }
}

// Whether this byte, if there is one, may stand behind a second one.
fn is_further(byte: Option<u8>) -> bool
    ensures { result ≡ is_further byte }
{
    match byte {
        None => false,
        Some(byte) => 128 <= byte && byte <= 191,
    }
}

// Whether with these bytes a character goes on that begins with this one.
fn is_continued(first: u8, rest: &[u8]) -> bool
    ensures { result ≡ is_continued first rest.now }
{
    (first < 128 || is_second(first, rest.get(0).copied()))
        && (first < 224 || is_further(rest.get(1).copied()))
        && (first < 240 || is_further(rest.get(2).copied()))
}

// Whether with this byte, and these behind it, a character begins that is written.
fn begins_character(first: u8, rest: &[u8]) -> bool
    ensures { result ≡ begins_character first rest.now }
{
    may_begin(first) && is_continued(first, rest)
}

// How many bytes go on a character that begins so.
fn continuation_len(first: u8) -> usize
    ensures { result ≡ continuation_len first }
{
    if first < 128 {
        return 0;
    }
    if first < 224 {
        return 1;
    }
    if first < 240 { 2 } else { 3 }
}

// What is written of a byte with which a character may begin, before these.
fn legible_first(byte: u8, rest: &[u8]) -> u8
    ensures { result ≡ (if begins_character byte rest.now then byte else 63) }
{
    if begins_character(byte, rest) {
        byte
    } else {
        b'?'
    }
}

// What is written of a byte before these, where so many bytes go on a character.
fn legible_byte(left: usize, byte: u8, rest: &[u8]) -> u8
    ensures { result ≡ legible_byte left byte rest.now }
{
    if left > 0 {
        return byte;
    }
    legible_first(byte, rest)
}

// How many bytes go on a character behind a byte with which one may begin.
fn behind_first(byte: u8, rest: &[u8]) -> usize
    ensures { result ≡ (if begins_character byte rest.now then continuation_len byte else 0) }
{
    if begins_character(byte, rest) {
        continuation_len(byte)
    } else {
        0
    }
}

// How many bytes go on a character behind this byte, with which so many do.
fn behind_byte(left: usize, byte: u8, rest: &[u8]) -> usize
    ensures { result ≡ behind_byte left byte rest.now }
{
    if left > 0 {
        return left - 1;
    }
    behind_first(byte, rest)
}

/// What is written of a text: itself, with `?` for each byte that is of no character that a terminal shows, tabs and ends of lines apart. The only error is want of
/// memory.
pub fn legible(alloc: Global, text: &[u8]) -> Result<List<u8>, NoMemory>
    ensures { IfOk result (λ lines. lines ≡ legible text.now) }
{
    let mut out = Vec::with_capacity(alloc, text.len())?;
    let mut left = 0;
    for (index, byte) in text.iter().enumerate() {
        let rest = &text[index + 1..];
        out.push(legible_byte(left, *byte, rest))?;
        left = behind_byte(left, *byte, rest);
    }
    Ok(List::from_vec(out))
}

// What is told of a byte of the name of a file.
fn told_byte(byte: u8) -> u8
    ensures { result ≡ told_byte byte }
{
    if byte < 32 { b'?' } else { byte }
}

/// The name of a file as it is told: `?` stands for each byte below 32. The only error is want of memory.
pub fn told_name(alloc: Global, name: &[u8]) -> Result<List<u8>, NoMemory>
    ensures { IfOk result (λ told. told ≡ told_name name.now) }
{
    let mut told = Vec::with_capacity(alloc, name.len())?;
    for byte in name {
        told.push(told_byte(*byte))?;
    }
    Ok(List::from_vec(told))
}

/// What is written of the name of a file: `?` stands for each control character, and for each byte that is of no character of UTF-8. The only error is want of
/// memory.
pub fn written_name(alloc: Global, name: &[u8]) -> Result<List<u8>, NoMemory>
    ensures { IfOk result (λ lines. lines ≡ legible (told_name name.now)) }
{
    let told = told_name(alloc, name)?;
    legible(alloc, told.as_slice())
}
