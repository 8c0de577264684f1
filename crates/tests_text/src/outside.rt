// The outside: what no clause says of the number of calls, and each call once on its happy path.
use armus_base::{
    Failed, List, MemSink, MemSource, NoMemory, ReadEnd, Sink, Source, StdSink, StdSource,
    read_all, write_text,
};
use std::alloc::Global;
use std::io;
use std::test::Fail;

const TEXT: &str = "adv(p);";

// What is read of the text from a source that gives one byte in a call and fails at one: as many bytes, 100 where it failed, 200 where it is too long.
fn read(alloc: Global, limit: usize, fails: u64) -> Result<usize, NoMemory> {
    let bytes = List::from_vec(TEXT.as_bytes().to_vec(alloc)?);
    let mut src = MemSource::new(bytes, 1, List::from_vec(vec![in alloc; fails]?));
    match read_all(alloc, &mut src, limit) {
        Ok(read) if read.as_slice() == TEXT.as_bytes() => Ok(read.as_slice().len()),
        Ok(_) => Ok(300),
        Err(ReadEnd::Fault) => Ok(100),
        Err(ReadEnd::TooLong) => Ok(200),
        Err(ReadEnd::NoMemory) => Err(NoMemory),
    }
}

// A source that gives one byte in a call needs one call more, which finds the end. No call comes after that.
#[test]
fn a_text_is_read_byte_by_byte(rt: HostRuntime) -> Result<(), Fail> {
    for fails in 1..10 {
        let wanted = if fails < 9 { 100 } else { 7 };
        assert!(rt; read(rt.alloc(), 7, fails)? == wanted, "{fails}");
    }
    for (limit, wanted) in [(6, 200), (7, 7), (8, 7), (0, 200)] {
        assert!(rt; read(rt.alloc(), limit, 0)? == wanted, "{limit}");
    }
    Ok(())
}

// What a sink takes of the text, and ! where it failed.
fn written(
    alloc: Global,
    room: usize,
    cut: usize,
    fails: u64,
    text: &str,
) -> Result<Vec<u8>, NoMemory> {
    let fails = List::from_vec(vec![in alloc; fails]?);
    let mut out = MemSink::new(alloc, room, cut.max(1), fails)?;
    let done = write_text(&mut out, text.as_bytes());
    let mut taken = out.taken().to_vec(alloc)?;
    if done.is_err() {
        taken.push(b'!')?;
    }
    Ok(taken)
}

// A sink that takes one byte in a call needs one call for each byte. No call comes after the last. A full sink fails, and an empty text makes no call.
#[test]
fn a_text_is_written_byte_by_byte(rt: HostRuntime) -> Result<(), Fail> {
    for (room, cut, fails, text, wanted) in [
        (100, 1, 1, TEXT, "!"),
        (100, 1, 2, TEXT, "a!"),
        (100, 1, 5, TEXT, "adv(!"),
        (100, 1, 7, TEXT, "adv(p)!"),
        (100, 1, 8, TEXT, "adv(p);"),
        (3, 2, 0, TEXT, "adv!"),
        (3, 2, 1, "", ""),
    ] {
        let taken = written(rt.alloc(), room, cut, fails, text)?;
        assert!(rt; taken.as_slice() == wanted.as_bytes(), "{wanted}");
    }
    Ok(())
}

// A reader and a writer that fail at one call, and tell the number of each call: the reader by the byte that it gives,
// the writer by how much it takes, one byte less.
#[derive(Drop)]
struct Counting {
    calls: u8,
    fails: u8,
}

impl Counting {
    fn new(fails: u8) -> Counting {
        Counting { calls: 0, fails }
    }

    fn call(&mut self) -> io::Result<u8> {
        self.calls = self.calls.saturating_add(1);
        if self.calls == self.fails {
            return Err(io::Error::from(io::ErrorKind::Other));
        }
        Ok(self.calls)
    }
}

impl io::Read for Counting {
    fn read(&mut self, buf: &mut [u8]) -> io::Result<usize> {
        let number = self.call()?;
        match buf {
            [first, ..] => {
                *first = number;
                Ok(1)
            }
            [] => Ok(0),
        }
    }
}

impl io::Write for Counting {
    fn write(&mut self, piece: &[u8]) -> io::Result<usize> {
        let number = self.call()?;
        Ok(piece.len().min(usize::from(number.saturating_sub(1))))
    }

    fn flush(&mut self) -> io::Result<()> {
        Ok(())
    }
}

fn reads_so(src: &mut StdSource<Counting>, call: u8, fails: u8) -> bool {
    let mut buf = [0u8; 8];
    match src.read(&mut buf) {
        Ok(count) => call != fails && count == 1 && buf[0] == call,
        Err(Failed) => call == fails,
    }
}

// A writer that takes nothing of a piece, as at its first call, has failed too.
fn writes_so(out: &mut StdSink<Counting>, call: u8, fails: u8) -> bool {
    match out.write(&[0; 8]) {
        Ok(count) => call != fails && count + 1 == usize::from(call),
        Err(Failed) => call == fails || call == 1,
    }
}

#[test]
fn the_adapters_make_one_call_each_and_tell_each_failure(rt: HostRuntime) {
    for fails in 1..6u8 {
        let mut src = StdSource::new(Counting::new(fails));
        let mut out = StdSink::new(Counting::new(fails));
        for call in 1..6u8 {
            assert!(rt; reads_so(&mut src, call, fails), "{call}");
            assert!(rt; writes_so(&mut out, call, fails), "{call}");
        }
    }
}
