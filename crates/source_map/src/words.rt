// Bytes of a text.
ghost use Rattle.std.specs.Prelude.{◌≡◌, ◌-◌, take, drop};

/// The bytes of a text from one up to another, as far as it has them.
pub(crate) fn span_of(text: &[u8], from: u32, to: u32) -> &[u8]
    ensures { result.now ≡ take (to - from) (drop from text.now) }
{
    let rest = match text.get(from as usize..) {
        Some(rest) => rest,
        None => &[],
    };
    match rest.get(..to.saturating_sub(from) as usize) {
        Some(span) => span,
        None => rest,
    }
}
