// A Repeat that is open.
// Its first piece, the piece behind its last one, and how many turns follow this one.
#[derive(Clone, Copy)]
pub(super) struct OpenRepeat {
    pub(super) from: u32,
    pub(super) to: u32,
    pub(super) turns: u32,
}
