// The top call.
ghost use Rattle.std.specs.Prelude.{◌≡◌, ◌↔◌, ◌||◌, IsTrue, false, map, string_bytes};
ghost use Rattle.std.specs.Str.{bytes_eq};
ghost use Rattle.command_line.specs.declared.table.TheConstants.{POOL, RECORD};
ghost use Rattle.armus_top.specs.calls.Meanings.{BeginsRecordOrPool};
ghost use Rattle.armus_top.specs.Replayable.{WritesReplayable};
ghost use Rattle.armus_top.specs.Headline.{IsServed};
ghost use Rattle.program_io.specs.calls.Passages.{passage};

use crate::requests::{CommandInput, request_of};
use crate::running::CallSetting;
use armus_base::{Gate, Sink, Source};
use command_line::{POOL, RECORD};
use std::alloc::Global;
use std::sync::Wait;
use std::thread::Threads;

/// The program where the first word is neither `record` nor `pool`: every command that waits for no thread.
///
/// It reads its input from `src` where the words are a command that reads, writes its output to `out`, and
/// answers the status: 0 where no task is dead or refused, 1 where one is, 2 where the words are no command,
/// 3 where the input is refused, 4 and 5 where the source or the sink failed, 6 for want of memory.
pub fn armus_plain<R: Threads + Sync, S: Source, K: Sink, G: Gate>(
    rt: &R,
    alloc: Global,
    words: &[String],
    src: &mut S,
    out: &mut K,
    gate: &G,
) -> u8
    requires plain { BeginsRecordOrPool (map string_bytes words.now) → ⊥ }
    ensures served { IsServed (map string_bytes words.now) (passage S.left S.faults src.old src.new) (passage K.taken K.faults out.old out.new)
        (src.new ≡ src.old) (out.new ≡ out.old) result }
{
    match request_of(alloc, words, src, out) {
        Ok(request) => {
            let CommandInput { command, input } = request;
            let setting = CallSetting { rt, alloc, gate };
            setting.serve(&command, input.as_slice(), out).code()
        }
        Err(status) => status.code(),
    }
}

/// The program where the first word is `record` or `pool`, whose commands wait for threads: as `armus_plain` says, if it returns. What `record` writes is
/// an input of `replay`.
pub fn armus_journal<R: Threads + Wait + Sync, S: Source, K: Sink, G: Gate>(
    rt: &R,
    alloc: Global,
    words: &[String],
    src: &mut S,
    out: &mut K,
    gate: &G,
) -> u8
    requires waiting { BeginsRecordOrPool (map string_bytes words.now) }
    ensures served { IsServed (map string_bytes words.now) (passage S.left S.faults src.old src.new) (passage K.taken K.faults out.old out.new)
        (src.new ≡ src.old) (out.new ≡ out.old) result }
    ensures replays { WritesReplayable (map string_bytes words.now) (passage S.left S.faults src.old src.new) (passage K.taken K.faults out.old out.new) result }
{
    match request_of(alloc, words, src, out) {
        Ok(request) => {
            let CommandInput { command, input } = request;
            let setting = CallSetting { rt, alloc, gate };
            setting
                .serve_waiting(&command, input.as_slice(), out)
                .code()
        }
        Err(status) => status.code(),
    }
}

// Whether the word is `record` or `pool`.
fn is_record_or_pool(word: &str) -> bool
    ensures { result ≡ (bytes_eq word.now RECORD.now || bytes_eq word.now POOL.now) }
{
    if word == RECORD {
        return true;
    }
    word == POOL
}

// Whether the first word is `record` or `pool`.
fn begins_record_or_pool(words: &[String]) -> bool
    ensures { IsTrue result ↔ BeginsRecordOrPool (map string_bytes words.now) }
{
    match words {
        [] => false,
        [word, ..] => is_record_or_pool(word.as_str()),
    }
}

/// The program: `armus_journal` where the first word is `record` or `pool`, and `armus_plain` otherwise.
pub fn armus<R: Threads + Wait + Sync, S: Source, K: Sink, G: Gate>(
    rt: &R,
    alloc: Global,
    words: &[String],
    src: &mut S,
    out: &mut K,
    gate: &G,
) -> u8
    ensures served { IsServed (map string_bytes words.now) (passage S.left S.faults src.old src.new) (passage K.taken K.faults out.old out.new)
        (src.new ≡ src.old) (out.new ≡ out.old) result }
    ensures replays { WritesReplayable (map string_bytes words.now) (passage S.left S.faults src.old src.new) (passage K.taken K.faults out.old out.new) result }
{
    if begins_record_or_pool(words) {
        armus_journal(rt, alloc, words, src, out, gate)
    } else {
        armus_plain(rt, alloc, words, src, out, gate)
    }
}
