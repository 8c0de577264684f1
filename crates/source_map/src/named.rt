// The place of another program that a line names.
ghost use Rattle.std.specs.Prelude.{◌≡◌, ◌+◌, ◌<◌, ◌≤◌, ◌^◌, None, length};
ghost use Rattle.std.specs.List.{list_all, prefix_len};
ghost use Rattle.source_map.specs.NamedPlaces.{comment_of, is_gap, is_gap_and_name, is_place_byte, is_trailing, moved_span, name_behind, name_in_comment, named_in};

// Bytes of a text, from one up to another.
#[derive(Clone, Copy)]
pub(crate) struct Span {
    pub(crate) from: u32,
    pub(crate) to: u32,
}

// How many bytes a name has at most.
const MAX_PLACE_BYTES: usize = 255;

// A space or a tab.
fn is_gap(b: u8) -> bool
    ensures { result ≡ is_gap b }
{
    matches!(b, b' ' | b'\t')
}

// A byte of a name.
fn is_place_byte(b: u8) -> bool
    ensures { result ≡ is_place_byte b }
{
    b >= 33 && b != 127
}

// A space, a tab or a CR.
fn is_trailing(b: u8) -> bool
    ensures { result ≡ is_trailing b }
{
    is_gap(b) || b == b'\r'
}

// From the first `//` of a line on.
fn comment_of(line: &[u8]) -> &[u8]
    ensures comment { result.now ≡ comment_of line.now }
    ensures no_longer { length result.now ≤ length line.now }
{
    let mut rest = line;
    loop {
        match rest {
            [b'/', b'/', ..] => return rest,
            [_, tail @ ..] => rest = tail,
            [] => return rest,
        }
    }
}

// How long the gap at the front is.
fn gap_length(text: &[u8]) -> usize
    ensures length { result ≡ prefix_len is_gap text.now }
    ensures within { result ≤ length text.now }
{
    text.iter().take_while(|b| is_gap(**b)).count()
}

// How long the name at the front is.
fn name_length(text: &[u8]) -> usize
    ensures length { result ≡ prefix_len is_place_byte text.now }
    ensures within { result ≤ length text.now }
{
    text.iter().take_while(|b| is_place_byte(**b)).count()
}

// Whether nothing but blanks stands here.
fn are_trailing(text: &[u8]) -> bool
    ensures { result ≡ list_all is_trailing text.now }
{
    text.iter().all(|b| is_trailing(*b))
}

// The name behind the sign `//@`, by the place of the first byte behind it.
fn name_behind(text: &[u8], at: u32) -> Option<Span>
    requires { at + length text.now < 2 ^ 32 }
    ensures { result ≡ moved_span at (name_behind text.now) }
{
    let gap = gap_length(text);
    let name = name_length(&text[gap..]);
    let to = gap + name;
    if gap >= 1 && name >= 1 && name <= MAX_PLACE_BYTES && are_trailing(&text[to..]) {
        Some(Span {
            from: at + gap as u32,
            to: at + to as u32,
        })
    } else {
        None
    }
}

// The name in a comment of which the first byte stands at this place.
fn name_in(comment: &[u8], at: u32) -> Option<Span>
    requires { at + length comment.now < 2 ^ 32 }
    ensures { result ≡ moved_span at (name_in_comment comment.now) }
{
    match comment {
        [_, _, b'@', text @ ..] => name_behind(text, at + 3),
        _ => None,
    }
}

/// The place that a line names, of which the first byte stands at this place of the text.
pub(crate) fn named_in(line: &[u8], at: u32) -> Option<Span>
    requires { at + length line.now < 2 ^ 32 }
    ensures { result ≡ moved_span at (named_in line.now) }
{
    let comment = comment_of(line);
    name_in(comment, at + (line.len() - comment.len()) as u32)
}
