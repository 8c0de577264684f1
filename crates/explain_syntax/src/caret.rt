// The line of a text in which a place stands, with a caret below.
ghost use Rattle.std.specs.Prelude.{◌≡◌, ◌+◌, ◌≤◌, ◌++◌, OnOk, drop, length, map, not, reverse, take};
ghost use Rattle.std.specs.List.{prefix_len, suffix_len};
ghost use Rattle.source_map.specs.TextPlaces.{is_line_feed, line_at, line_before};
ghost use Rattle.explain_syntax.specs.CaretLines.{below_byte, both_lines, caret_lines, is_return, shown_byte, without_returns};

use armus_base::NoMemory;

/// How many bytes a line has at most that is shown.
const MAX_LINE_BYTES: usize = 200;

// How many bytes of its line stand before a place.
fn column_of(text: &[u8], at: usize) -> usize
    requires { at ≤ length text.now }
    ensures columns { result ≡ prefix_len (λ b. not (is_line_feed b)) (reverse (take at text.now)) }
    ensures within { result ≤ at }
{
    text[..at].iter().rev().take_while(|b| **b != b'\n').count()
}

// The bytes of its line that stand before a place.
fn line_front(text: &[u8], at: usize) -> &[u8]
    requires { at ≤ length text.now }
    ensures { result.now ≡ reverse (line_before text.now at) }
{
    &text[at - column_of(text, at)..at]
}

// How many bytes stand before the first LF.
fn line_len(text: &[u8]) -> usize
    ensures bytes { result ≡ prefix_len (λ b. not (is_line_feed b)) text.now }
    ensures within { result ≤ length text.now }
{
    text.iter().take_while(|b| **b != b'\n').count()
}

// The line in which a place stands.
fn line_at(text: &[u8], at: usize) -> &[u8]
    requires { at ≤ length text.now }
    ensures { result.now ≡ line_at text.now at }
{
    let rest = line_len(&text[at..]);
    &text[at - column_of(text, at)..at + rest]
}

// How many CRs stand at the end.
fn returns_at_end(line: &[u8]) -> usize
    ensures returns { result ≡ suffix_len is_return line.now }
    ensures within { result ≤ length line.now }
{
    line.iter().rev().take_while(|b| **b == b'\r').count()
}

// The line without the CRs at its end.
fn without_returns(line: &[u8]) -> &[u8]
    ensures { result.now ≡ without_returns line.now }
{
    &line[..line.len() - returns_at_end(line)]
}

// A byte of the line as it is shown.
fn shown_byte(b: u8) -> u8
    ensures { result ≡ shown_byte b }
{
    match b {
        b'\t' => b,
        0..=31 | 127 => b'?',
        _ => b,
    }
}

// What stands below a byte of the line, before the caret.
fn below_byte(b: u8) -> u8
    ensures { result ≡ below_byte b }
{
    if b == b'\t' { b } else { b' ' }
}

// Appends a line as it is shown.
fn put_shown(out: &mut Vec<u8>, line: &[u8]) -> Result<(), NoMemory>
    ensures { OnOk result (out.new.items ≡ out.old.items ++ map shown_byte line.now) }
{
    for b in line {
        out.push(shown_byte(*b))?;
    }
    Ok(())
}

// Appends what stands below a line, before the caret.
fn put_below(out: &mut Vec<u8>, front: &[u8]) -> Result<(), NoMemory>
    ensures { OnOk result (out.new.items ≡ out.old.items ++ map below_byte front.now) }
{
    for b in front {
        out.push(below_byte(*b))?;
    }
    Ok(())
}

// Appends a line, and the caret below the byte behind its front.
fn put_both(out: &mut Vec<u8>, line: &[u8], front: &[u8]) -> Result<(), NoMemory>
    ensures { OnOk result (out.new.items ≡ out.old.items ++ both_lines line.now front.now) }
{
    out.extend_from_slice(b"    ")?;
    put_shown(out, line)?;
    out.extend_from_slice(b"\n    ")?;
    put_below(out, front)?;
    out.extend_from_slice(b"^\n")?;
    Ok(())
}

/// Appends the line of a text in which a place stands, and a caret below it. Both are left out where the line is empty or longer than 200 bytes.
pub fn put_line_and_caret(out: &mut Vec<u8>, text: &[u8], at: usize) -> Result<(), NoMemory>
    requires { at ≤ length text.now }
    ensures { OnOk result (out.new.items ≡ out.old.items ++ caret_lines text.now at) }
{
    let line = without_returns(line_at(text, at));
    if line.is_empty() || line.len() > MAX_LINE_BYTES {
        return Ok(());
    }
    put_both(out, line, line_front(text, at))
}
