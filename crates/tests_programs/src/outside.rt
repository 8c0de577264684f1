// Sources and sinks that fail at a call, and a sink that is full.
use crate::texts::{CROSSED, Outside, ended};
use armus_base::{NoMemory, Still};
use std::alloc::Global;
use std::sync::Wait;
use std::test::Fail;
use std::thread::Threads;

// The lines of two tasks that wait for each other.
const BOTH_DEAD: &str =
    "dead t0 p0@1\ndead t1 p1@1\ntasks 2 done 0 dead 2 held 0 refused 0 unforked 0\nt0 dead p0@1\nt1 dead p1@1\ncycle t0 t1\ngraph sg 2\n";

// The words of a call, and its text.
const LIVE: (&str, &str) = ("run --live", CROSSED);

// Whether the words on the text end with this output and this status.
fn is_met<R: Threads + Wait + Sync>(
    rt: &R,
    alloc: Global,
    call: (&str, &str),
    outside: Outside,
    output: &str,
    status: u8,
) -> Result<bool, NoMemory> {
    let (words, text) = call;
    let input = text.as_bytes().to_vec(alloc)?;
    let (found, end) = ended(rt, alloc, words, input, outside, &Still)?;
    Ok(found.as_slice() == output.as_bytes() && end == status)
}

fn failing(reads: u64, writes: u64) -> Outside {
    Outside {
        cut: 1,
        reads,
        writes,
        room: 1000,
    }
}

// A source that fails at any of its calls leaves nothing written; one call later it has told its end.
#[test]
fn each_read_that_fails_ends_the_call(rt: HostRuntime) -> Result<(), Fail> {
    let last = CROSSED.len() as u64 + 1;
    for call in 1..=last + 1 {
        let (output, status) = if call <= last {
            ("", 4)
        } else {
            (BOTH_DEAD, 1)
        };
        let outside = failing(call, 0);
        let met = is_met(&rt, rt.alloc(), LIVE, outside, output, status)?;
        assert!(rt; met, "{call}");
    }
    Ok(())
}

// A sink that fails at any of its calls, within the live lines too, has taken what stands before; one call later it has taken all.
#[test]
fn each_write_that_fails_ends_the_call(rt: HostRuntime) -> Result<(), Fail> {
    let last = BOTH_DEAD.len() as u64 + 1;
    for call in 1..=last {
        let outside = failing(0, call);
        let taken = BOTH_DEAD.get(..call as usize - 1).unwrap_or("");
        let status = if call < last { 5 } else { 1 };
        let met = is_met(&rt, rt.alloc(), LIVE, outside, taken, status)?;
        assert!(rt; met, "{call}");
    }
    Ok(())
}

// A sink that fails at its second call, and one that is full.
#[test]
fn a_sink_takes_a_part(rt: HostRuntime) -> Result<(), Fail> {
    for (room, cut, writes, output) in [
        (1000, 16, 2, "tasks 1 done 1 d"),
        (40, 64, 0, "tasks 1 done 1 dead 0 held 0 refused 0 u"),
    ] {
        let outside = Outside {
            cut,
            reads: 0,
            writes,
            room,
        };
        assert!(rt;
            is_met(&rt, rt.alloc(), ("run", ""), outside, output, 5)?,
            "{output}"
        );
    }
    Ok(())
}
