// Sources and a sink in memory, which cut what passes and fail at the calls that they are told.
ghost use Rattle.std.specs.Prelude.{◌≡◌, ◌≤◌, ◌<◌, ◌+◌, ◌-◌, [], ◌++◌, length, drop, take, min, Some, IfOk, OnErr, Contains};
ghost use Rattle.std.specs.Io.{ReadsAtMost};
ghost use Rattle.std.specs.Io.KnownBytes.{ReadConsumes, WriteAppends};
ghost use Rattle.armus_base.specs.calls.Causes.{HasCause};
ghost use Rattle.armus_base.specs.calls.Outside.{TakesSome};
ghost use Rattle.armus_base.specs.calls.Fakes.{MemReads, MemWrites};

use crate::{Failed, List, NoMemory, Sink, Source};
use std::alloc::Global;
use std::marker::Model;

// Copies what is left from `at` on to the front of the buffer, at most `most` bytes.
fn give(bytes: &[u8], at: usize, most: usize, buf: &mut [u8]) -> usize
    requires { at ≤ length bytes.now }
    ensures count { result ≡ min (min (length bytes.now - at) most) (length buf.old) }
    ensures front { drop at bytes.now ≡ take result buf.new ++ drop (at + result) bytes.now }
    ensures end { result ≡ 0 → 0 < most → 0 < length buf.old → drop (at + result) bytes.now ≡ [] }
{
    let left = &bytes[at..];
    let count = left.len().min(most).min(buf.len());
    buf[..count].copy_from_slice(&left[..count]);
    count
}

/// Gives its bytes, at most `cut` in one call, and fails at the calls whose numbers, from 1, are listed.
#[derive(Drop)]
pub struct MemSource {
    bytes: List<u8>,
    at: usize,
    cut: usize,
    fails: List<u64>,
    calls: u64,
    faults: u64,
}

impl Model for MemSource {
    ghost use Rattle.std.specs.Prelude.{◌≤◌, length, drop};
    ghost use Rattle.armus_base.specs.calls.Fakes.{MemRead};

    ghost Value = { MemRead };

    ghost view = { λ s. record {
      left = drop s.at s.bytes;
      cut = s.cut;
      fails = s.fails;
      calls = s.calls;
      faults = s.faults;
    } };

    ghost invariant = { λ s. (s.at ≤ length s.bytes) × (1 ≤ s.cut) };
}

impl MemSource {
    /// A source of these bytes, at most `cut` of them in a call, that fails at the calls listed in `fails`.
    pub fn new(bytes: List<u8>, cut: usize, fails: List<u64>) -> MemSource
        requires cut { 1 ≤ cut }
        ensures fresh { result ≡ record { left = bytes; cut = cut; fails = fails; calls = 0; faults = 0 } }
    {
        MemSource {
            bytes,
            at: 0,
            cut,
            fails,
            calls: 0,
            faults: 0,
        }
    }
}

impl Source for MemSource {
    ghost left = { λ s. Some s.left };

    ghost faults = { λ s. s.faults };

    fn read(&mut self, buf: &mut [u8]) -> Result<usize, Failed>
        ensures bound { ReadsAtMost result buf.new }
        ensures bytes { ReadConsumes (Some self.old.left) (Some self.new.left) result buf.new }
        ensures cause { HasCause self.old.faults self.new.faults result }
        ensures call { MemReads self.old self.new result (length buf.old) }
    {
        self.calls = self.calls.saturating_add(1);
        if self.fails.as_slice().contains(&self.calls) {
            self.faults = self.faults.saturating_add(1);
            return Err(Failed);
        }
        let count = give(self.bytes.as_slice(), self.at, self.cut, buf);
        self.at += count;
        Ok(count)
    }
}

/// Gives its bytes and never fails.
#[derive(Drop)]
pub struct SafeSource {
    bytes: List<u8>,
    at: usize,
}

impl Model for SafeSource {
    ghost use Rattle.std.specs.Prelude.{List as Seq, ◌≤◌, ℕ, length, drop};

    ghost Value = { Seq ℕ };

    ghost view = { λ s. drop s.at s.bytes };

    ghost invariant = { λ s. s.at ≤ length s.bytes };
}

impl SafeSource {
    /// A source of these bytes.
    pub fn new(bytes: List<u8>) -> SafeSource
        ensures fresh { result ≡ bytes }
    {
        SafeSource { bytes, at: 0 }
    }
}

impl Source for SafeSource {
    ghost left = { λ s. Some s };

    ghost faults = { λ _. 0 };

    fn read(&mut self, buf: &mut [u8]) -> Result<usize, Failed> {
        let count = give(self.bytes.as_slice(), self.at, usize::MAX, buf);
        self.at += count;
        Ok(count)
    }
}

/// Takes bytes, at most `cut` in one call, and fails at the calls whose numbers, from 1, are listed, and where it is full.
#[derive(Drop)]
pub struct MemSink {
    taken: Vec<u8>,
    room: usize,
    cut: usize,
    fails: List<u64>,
    calls: u64,
    faults: u64,
}

impl Model for MemSink {
    ghost use Rattle.std.specs.Prelude.{◌≤◌, length, vec_len, vec_capacity};
    ghost use Rattle.armus_base.specs.calls.Fakes.{MemWrite};

    ghost Value = { MemWrite };

    ghost view = { λ s. record {
      taken = s.taken.items;
      room = s.room;
      cut = s.cut;
      fails = s.fails;
      calls = s.calls;
      faults = s.faults;
    } };

    ghost invariant = { λ s. (vec_len s.taken ≤ s.room) × (s.room ≤ vec_capacity s.taken) × (1 ≤ s.cut) };
}

impl MemSink {
    /// Takes its memory here, so that no write does.
    pub fn new(
        alloc: Global,
        room: usize,
        cut: usize,
        fails: List<u64>,
    ) -> Result<MemSink, NoMemory>
        requires cut { 1 ≤ cut }
        ensures fresh { IfOk result (λ s. s ≡ record { taken = []; room = room; cut = cut; fails = fails; calls = 0; faults = 0 }) }
    {
        let taken = Vec::with_capacity(alloc, room)?;
        Ok(MemSink {
            taken,
            room,
            cut,
            fails,
            calls: 0,
            faults: 0,
        })
    }

    /// What it has taken.
    pub fn taken(&self) -> &[u8]
        ensures taken { result.now ≡ self.now.taken }
    {
        self.taken.as_slice()
    }
}

impl Sink for MemSink {
    ghost taken = { λ s. Some s.taken };

    ghost faults = { λ s. s.faults };

    fn write(&mut self, piece: &[u8]) -> Result<usize, Failed>
        ensures bound { TakesSome result piece.now }
        ensures bytes { WriteAppends (Some self.old.taken) (Some self.new.taken) result piece.now }
        ensures cause { HasCause self.old.faults self.new.faults result }
        ensures call { MemWrites self.old self.new result piece.now }
    {
        self.calls = self.calls.saturating_add(1);
        let space = self.room - self.taken.len();
        let is_full = !piece.is_empty() && space == 0;
        if self.fails.as_slice().contains(&self.calls) || is_full {
            self.faults = self.faults.saturating_add(1);
            return Err(Failed);
        }
        let count = piece.len().min(self.cut).min(space);
        self.taken.extend_from_slice(&piece[..count]).unwrap();
        Ok(count)
    }
}
