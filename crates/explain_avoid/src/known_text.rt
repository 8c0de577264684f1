// What is known of a text whose run is explained.
use explain_facts::TextFacts;

/// What is known of a text, and the name of its file, if it comes from one.
#[derive(Drop)]
pub(crate) struct KnownText<'a> {
    pub(crate) facts: &'a TextFacts<'a>,
    pub(crate) file: Option<&'a [u8]>,
}
