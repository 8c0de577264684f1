// How much of an explanation is shown.
ghost use Rattle.std.specs.Prelude.{◌≡◌, suc, string_bytes, ◌==◌, ◌≤◌, ◌<◌, ◌&&◌, ◌++◌, IfOk, OnOk, if◌then◌else◌, length, nat_lt};
ghost use Rattle.explain.specs.Shortened.{begins_line, displayed, displayed_bytes, displayed_byte, displayed_up_to, ends_paragraph, is_hint, last_line_begin, left_out_line, line_total, narrowed_from, paragraph_bytes, room_behind, shortened, shortened_long, shortened_to, summary};

use crate::extent::Extent;
use armus_base::{List, NoMemory};
use std::alloc::Global;

// How many lines an explanation has at most that is shown as it is.
const MOST_LINES: usize = 60;

/// So many lines stand in front of the paragraphs of an explanation.
pub(crate) const HEADS: usize = 2;

/// So many lines stand in front of the paragraphs of one of the run that avoids deadlock.
pub(crate) const AVOIDED_HEADS: usize = 3;

// Of a line of so many bytes and more the last one that is shown is none: two dots stand for it and for all behind it.
const MOST_BYTES: usize = 500;

// How many lines these bytes have.
fn line_total(text: &[u8]) -> usize
    ensures { result ≡ line_total text.now }
{
    text.iter().filter(|byte| **byte == b'\n').count()
}

// Whether the byte at this index is the last one of a paragraph.
fn ends_paragraph(text: &[u8], index: usize) -> bool
    requires { index < length text.now }
    ensures { result ≡ ends_paragraph text.now (suc index) }
{
    if text[index] != b'\n' {
        return false;
    }
    match text.get(index + 1) {
        Some(next) => *next != b' ',
        None => true,
    }
}

// How many lines the byte ends.
fn line_feed(byte: u8) -> usize
    ensures { result ≡ (if byte == 10 then 1 else 0) }
{
    if byte == b'\n' { 1 } else { 0 }
}

// How many bytes are shown of those up to this index, before which so many are, and with which so many lines have ended, where so many have no room.
fn displayed_with(room: usize, text: &[u8], index: usize, lines: usize, before: usize) -> usize
    requires { index < length text.now }
    ensures { result ≡ (if ends_paragraph text.now (suc index) && nat_lt lines room then suc index else before) }
{
    if ends_paragraph(text, index) && lines < room {
        index + 1
    } else {
        before
    }
}

// How many bytes are shown of the paragraphs of a long explanation, where so many lines have no room.
fn displayed_bytes(room: usize, text: &[u8]) -> usize
    ensures value { result ≡ displayed_bytes room text.now }
    ensures within { result ≤ length text.now }
{
    let mut lines = 0;
    let mut shown = 0;
    for (index, byte) in text.iter().enumerate() {
        lines += line_feed(*byte);
        shown = displayed_with(room, text, index, lines, shown);
    }
    shown
}

// The line that counts the lines that are left out.
fn left_out_line(alloc: Global, count: usize) -> Result<String, NoMemory>
    ensures { IfOk result (λ text. string_bytes text ≡ left_out_line count) }
{
    let text = format!(in alloc; "and {count} more lines: --all shows them\n")?;
    Ok(text)
}

// Where the last line begins up to this index, before which it begins there.
fn last_begin_with(text: &[u8], index: usize, before: usize) -> usize
    requires { index < length text.now }
    ensures { result ≡ (if begins_line text.now (suc index) then suc index else before) }
{
    if text[index] == b'\n' && index + 1 < text.len() {
        index + 1
    } else {
        before
    }
}

// How many bytes stand before the last line.
fn last_line_begin(text: &[u8]) -> usize
    ensures value { result ≡ last_line_begin text.now }
    ensures within { result ≤ length text.now }
{
    let mut begin = 0;
    for (index, _) in text.iter().enumerate() {
        begin = last_begin_with(text, index, begin);
    }
    begin
}

// Whether a line begins as a hint does.
fn is_hint(text: &[u8]) -> bool
    ensures { result ≡ is_hint text.now }
{
    text.starts_with(b"hint: ") && line_total(text) < 2
}

// How many bytes of an explanation are its paragraphs.
fn paragraph_bytes(whole: &[u8]) -> usize
    ensures value { result ≡ paragraph_bytes whole.now }
    ensures within { result ≤ length whole.now }
{
    let begin = last_line_begin(whole);
    if is_hint(&whole[begin..]) && begin > 0 {
        begin
    } else {
        whole.len()
    }
}

// What is shown of a long explanation with these paragraphs and this hint, if it has one.
fn shortened_to(alloc: Global, paragraphs: &[u8], hint: &[u8]) -> Result<Vec<u8>, NoMemory>
    ensures { IfOk result (λ lines. lines.items ≡ shortened_to paragraphs.now hint.now) }
{
    let room = MOST_LINES.saturating_sub(line_total(hint));
    let (shown, left) = paragraphs.split_at(displayed_bytes(room, paragraphs));
    let mut out = Vec::from_slice(alloc, shown)?;
    out.extend_from_slice(left_out_line(alloc, line_total(left))?.as_bytes())?;
    out.extend_from_slice(hint)?;
    Ok(out)
}

// What is shown of a long explanation.
fn shortened_long(alloc: Global, whole: &[u8]) -> Result<Vec<u8>, NoMemory>
    ensures { IfOk result (λ lines. lines.items ≡ shortened_long whole.now) }
{
    let (paragraphs, hint) = whole.split_at(paragraph_bytes(whole));
    shortened_to(alloc, paragraphs, hint)
}

// The lines of an explanation that are shown.
fn shortened(alloc: Global, whole: List<u8>) -> Result<Vec<u8>, NoMemory>
    ensures { IfOk result (λ lines. lines.items ≡ shortened whole) }
{
    if line_total(whole.as_slice()) <= MOST_LINES {
        return Ok(whole.into_vec());
    }
    shortened_long(alloc, whole.as_slice())
}

// Appends what is shown of a byte of a line, of which so many bytes have room.
fn put_displayed(out: &mut Vec<u8>, byte: u8, room: usize) -> Result<(), NoMemory>
    ensures { OnOk result (out.new.items ≡ out.old.items ++ displayed_byte room byte) }
{
    if byte == b'\n' || room > 1 {
        out.push(byte)?;
        return Ok(());
    }
    if room == 1 {
        out.extend_from_slice(b"..")?;
    }
    Ok(())
}

// How many bytes have room behind this one.
fn room_behind(byte: u8, room: usize) -> usize
    ensures { result ≡ room_behind room byte }
{
    if byte == b'\n' {
        MOST_BYTES
    } else {
        room.saturating_sub(1)
    }
}

// What is shown of lines that may be long.
fn narrowed(alloc: Global, lines: &[u8]) -> Result<List<u8>, NoMemory>
    ensures { IfOk result (λ shown. shown ≡ narrowed_from 500 lines.now) }
{
    let mut out = Vec::new(alloc);
    let mut room = MOST_BYTES;
    for byte in lines {
        put_displayed(&mut out, *byte, room)?;
        room = room_behind(*byte, room);
    }
    Ok(List::from_vec(out))
}

// The lines in front of the paragraphs of an explanation, which are so many, and its hint.
fn summary(alloc: Global, heads: usize, whole: &[u8]) -> Result<Vec<u8>, NoMemory>
    requires { heads < 60 }
    ensures { IfOk result (λ lines. lines.items ≡ summary heads whole.now) }
{
    let (paragraphs, hint) = whole.split_at(paragraph_bytes(whole));
    let (front, _) = paragraphs.split_at(displayed_bytes(heads + 1, paragraphs));
    let mut out = Vec::from_slice(alloc, front)?;
    out.extend_from_slice(hint)?;
    Ok(out)
}

/// What is shown of an explanation, to this extent, which has so many lines in front of its paragraphs. The time is linear in its bytes; the only error is want of
/// memory.
pub(crate) fn displayed(
    alloc: Global,
    heads: usize,
    extent: Extent,
    whole: List<u8>,
) -> Result<List<u8>, NoMemory>
    requires { heads < 60 }
    ensures { IfOk result (λ lines. lines ≡ displayed heads extent whole) }
{
    match extent {
        Extent::Whole => Ok(whole),
        Extent::Usual => {
            let lines = shortened(alloc, whole)?;
            narrowed(alloc, &lines)
        }
        Extent::Short => {
            let lines = summary(alloc, heads, whole.as_slice())?;
            narrowed(alloc, &lines)
        }
    }
}
