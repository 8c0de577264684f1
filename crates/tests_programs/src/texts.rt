// Calls of the program.
use armus_base::{Gate, List, MemSink, MemSource, NoMemory};
use armus_top::armus;
use std::alloc::Global;
use std::sync::Wait;
use std::thread::Threads;
use tests_rows::words_of;

pub(crate) const CROSSED: &str =
    "a = newPhaser();\nb = newPhaser();\nt = newTid();\nreg(t, a);\nreg(t, b);\nfork(t) { adv(b); await(b); }\nadv(a);\nawait(a);\n";

// How much passes in one call, at which call reading and writing fail, and how much the sink takes.
#[derive(Clone, Copy)]
pub(crate) struct Outside {
    pub(crate) cut: usize,
    pub(crate) reads: u64,
    pub(crate) writes: u64,
    pub(crate) room: usize,
}

// No call fails.
pub(crate) const AMPLE: Outside = Outside {
    cut: 4000,
    reads: 0,
    writes: 0,
    room: 200_000,
};

fn call(alloc: Global, number: u64) -> Result<List<u64>, NoMemory> {
    Ok(List::from_vec(vec![in alloc; number]?))
}

// What the words write on this input, and their status.
pub(crate) fn ended<R: Threads + Wait + Sync, G: Gate>(
    rt: &R,
    alloc: Global,
    words: &str,
    input: Vec<u8>,
    outside: Outside,
    gate: &G,
) -> Result<(Vec<u8>, u8), NoMemory> {
    let words = words_of(alloc, words)?;
    let cut = outside.cut.max(1);
    let mut src = MemSource::new(List::from_vec(input), cut, call(alloc, outside.reads)?);
    let mut out = MemSink::new(alloc, outside.room, cut, call(alloc, outside.writes)?)?;
    let status = armus(rt, alloc, words.as_slice(), &mut src, &mut out, gate);
    Ok((out.taken().to_vec(alloc)?, status))
}
