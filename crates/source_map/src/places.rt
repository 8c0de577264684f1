// The places of a text's bytes.
ghost use Rattle.std.specs.Prelude.{◌≡◌, ◌+◌, ◌-◌, ◌<◌, ◌≤◌, ◌^◌, ◌++◌, IfOk, OnOk, length, count_by, not, option_map};
ghost use Rattle.std.specs.List.{prefix_len};
ghost use Rattle.source_map.specs.PlaceWords.{front_words, place_words};
ghost use Rattle.armus_base.specs.Finals.{list_below};
ghost use Rattle.source_map.specs.NamedPlaces.{moved_span, named_in};
ghost use Rattle.source_map.specs.TextPlaces.{is_line_feed, line_from, place_by, text_place};
ghost use Rattle.source_map.specs.inside.Rows.{begin_of, line_count, line_row, line_rows};

use crate::named::{Span, named_in};
use crate::place::TextPlace;
use crate::words::span_of;
use armus_base::NoMemory;
use std::alloc::Global;
use std::marker::Model;

// A line of a text.
#[derive(Clone, Copy)]
pub(crate) struct TextLine {
    // How many bytes stand before it.
    pub(crate) begin: u32,
    // The place of another program that it names.
    pub(crate) named: Option<Span>,
}

/// The places of a text's bytes: of each line its first byte, and the place of another program that it names. Contracts see it as the text.
#[derive(Drop)]
pub struct TextPlaces<'t> {
    text: &'t [u8],
    lines: Vec<TextLine>,
}

impl<'t> Model for TextPlaces<'t> {
    ghost use Rattle.std.specs.Prelude.{◌≡◌, List, ℕ, ◌<◌, ◌-◌, ◌^◌, length};
    ghost use Rattle.source_map.specs.inside.Rows.{line_rows};

    ghost Value = { List ℕ };

    ghost view = { λ p. p.text.now };

    ghost invariant = { λ p. (p.lines.items ≡ line_rows p.text.now) × (length p.text.now < 2 ^ 32 - 1) };
}

// How many lines a text has.
fn line_count(text: &[u8]) -> usize
    requires { length text.now < 2 ^ 32 - 1 }
    ensures { result ≡ line_count text.now }
{
    text.iter().filter(|b| **b == b'\n').count() + 1
}

// How many bytes stand before the first line feed.
fn line_length(text: &[u8]) -> usize
    ensures length { result ≡ prefix_len (λ b. not (is_line_feed b)) text.now }
    ensures within { result ≤ length text.now }
{
    text.iter().take_while(|b| **b != b'\n').count()
}

// The line that begins at this byte.
fn line_from(text: &[u8], begin: usize) -> &[u8]
    requires { begin ≤ length text.now }
    ensures line { result.now ≡ line_from text.now begin }
    ensures within { begin + length result.now ≤ length text.now }
{
    let (_, rest) = text.split_at(begin);
    let (line, _) = rest.split_at(line_length(rest));
    line
}

// The lines of a text.
fn lines_of(alloc: Global, text: &[u8]) -> Result<Vec<TextLine>, NoMemory>
    requires { length text.now < 2 ^ 32 - 1 }
    ensures { IfOk result (λ lines. lines.items ≡ line_rows text.now) }
{
    let mut lines = Vec::with_capacity(alloc, line_count(text))?;
    let mut begin = 0;
    loop {
        let line = line_from(text, begin);
        let named = named_in(line, begin as u32);
        lines.push(TextLine {
            begin: begin as u32,
            named,
        })?;
        let end = begin + line.len();
        if end == text.len() {
            return Ok(lines);
        }
        begin = end + 1;
    }
}

impl TextLine {
    // The place of a byte that stands in it, where it has this number, from 0.
    fn place(self, index: u32, offset: u32) -> TextPlace
        requires number { index < 2 ^ 32 - 1 }
        requires column { offset < 2 ^ 32 - 1 }
        requires behind { self.begin ≤ offset }
        ensures { result ≡ place_by self.named (index + 1) (offset - self.begin + 1) }
    {
        match self.named {
            None => TextPlace::Here {
                line: index + 1,
                column: offset - self.begin + 1,
            },
            Some(span) => TextPlace::Elsewhere {
                from: span.from,
                to: span.to,
            },
        }
    }
}

impl<'t> TextPlaces<'t> {
    /// The places of the bytes of a text; the text is gone through once.
    pub fn new(alloc: Global, text: &'t [u8]) -> Result<TextPlaces<'t>, NoMemory>
        requires short { length text.now < 2 ^ 32 - 1 }
        ensures text { IfOk result (λ places. places ≡ text.now) }
    {
        let lines = lines_of(alloc, text)?;
        Ok(TextPlaces { text, lines })
    }

    /// Where this byte of the text stands; where the text has no such byte, its end. The line is found by halving.
    pub fn at(&self, offset: u32) -> TextPlace
        ensures place { result ≡ text_place self.now offset }
    {
        let offset = offset.min(self.text.len() as u32);
        let index = self.lines.partition_point(|line| line.begin <= offset) - 1;
        self.lines[index].place(index as u32, offset)
    }

    /// Where the end of the text stands.
    pub fn end(&self) -> TextPlace
        ensures place { result ≡ text_place self.now (length self.now) }
    {
        self.at(self.text.len() as u32)
    }

    /// The text.
    pub fn text(&self) -> &'t [u8]
        ensures text { result.now ≡ self.now }
        ensures short { length self.now < 2 ^ 32 - 1 }
    {
        self.text
    }

    /// Appends a place of the text as it is written: `20:7`, or the name of a place of another program.
    pub fn put(&self, alloc: Global, out: &mut Vec<u8>, place: TextPlace) -> Result<(), NoMemory>
        ensures written { OnOk result (out.new.items ≡ out.old.items ++ place_words self.now place) }
    {
        match place {
            TextPlace::Here { line, column } => {
                let words = format!(in alloc; "{line}:{column}")?;
                out.extend_from_slice(words.as_bytes())?;
            }
            TextPlace::Elsewhere { from, to } => {
                out.extend_from_slice(span_of(self.text, from, to))?;
            }
        }
        Ok(())
    }

    /// Appends a place with which a line of output begins: in front of a place by line and column stands the name of the text's file, where it has one.
    pub fn put_front(
        &self,
        alloc: Global,
        out: &mut Vec<u8>,
        file: Option<&[u8]>,
        place: TextPlace,
    ) -> Result<(), NoMemory>
        ensures written { OnOk result (out.new.items ≡ out.old.items ++ front_words self.now (option_map (λ f. f.now) file.entry) place) }
    {
        if let (Some(file), TextPlace::Here { line: _, column: _ }) = (file, place) {
            out.extend_from_slice(file)?;
            out.extend_from_slice(b":")?;
        }
        self.put(alloc, out, place)
    }
}
