// How a bounded build ends without a graph.

/// Why `build_bounded` gave no graph.
#[derive(Clone, Copy, Debug, PartialEq, Eq)]
pub enum SgEnd {
    /// `k` is the first number of tasks over which the graph has more than `2 * k` edges, and `edges` is their number there.
    Left { k: u32, edges: u64 },
    /// Want of memory.
    NoMemory,
}
