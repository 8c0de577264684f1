// Where the statements of a text stand.
ghost use Rattle.std.specs.Prelude.{◌≡◌, slice_index_or};
ghost use Rattle.explain_check.specs.StatementPlaces.{statement_offset, place_of_statement};

use armus_base::List;
use source_map::{TextPlace, TextPlaces};

/// The places of a text; how many bytes stand before each of its statements, in the order of their numbers; and how many bytes it has.
#[derive(Drop)]
pub struct StatementPlaces<'t> {
    pub places: TextPlaces<'t>,
    pub offsets: List<u32>,
    pub end: u32,
}

// The offset at this index, or the end.
fn offset_or(offsets: &[u32], index: u32, end: u32) -> u32
    ensures { result ≡ slice_index_or offsets.now index end }
{
    match offsets.get(index as usize) {
        Some(offset) => *offset,
        None => end,
    }
}

impl<'t> StatementPlaces<'t> {
    /// How many bytes stand before statement n; all bytes of the text for 0.
    pub(crate) fn offset(&self, n: u32) -> u32
        ensures { result ≡ statement_offset self.now.offsets self.now.end n }
    {
        if n == 0 {
            self.end
        } else {
            offset_or(self.offsets.as_slice(), n - 1, self.end)
        }
    }

    /// The place of statement n; of the end of the text for 0.
    pub(crate) fn place(&self, n: u32) -> TextPlace
        ensures { result ≡ place_of_statement self.now.places self.now.offsets self.now.end n }
    {
        self.places.at(self.offset(n))
    }
}
