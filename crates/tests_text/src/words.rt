// Words that are commands: a line for each, the words and what they mean.
use command_line::command_in;
use std::test::Fail;
use tests_rows::words_of;

const ROWS: &str = "\
check => Some(Check { print: false })\n\
check --print => Some(Check { print: true })\n\
run => Some(Run { workers: 4, graph: Auto, kind: Plain })\n\
run --workers 1 => Some(Run { workers: 1, graph: Auto, kind: Plain })\n\
run --workers 64 => Some(Run { workers: 64, graph: Auto, kind: Plain })\n\
run --workers 0000000000000064 => Some(Run { workers: 64, graph: Auto, kind: Plain })\n\
run --graph auto => Some(Run { workers: 4, graph: Auto, kind: Plain })\n\
run --graph wfg => Some(Run { workers: 4, graph: Wfg, kind: Plain })\n\
run --graph sg => Some(Run { workers: 4, graph: Sg, kind: Plain })\n\
run --graph grg --workers 3 => Some(Run { workers: 3, graph: Grg, kind: Plain })\n\
run --workers 3 --graph grg => Some(Run { workers: 3, graph: Grg, kind: Plain })\n\
gen 1 => Some(Gen { count: 1 })\n\
gen 1000 => Some(Gen { count: 1000 })\n\
gen 0000000000000999 => Some(Gen { count: 999 })\n\
run --live => Some(Run { workers: 4, graph: Auto, kind: Live })\n\
run --graph sg --live --workers 2 => Some(Run { workers: 2, graph: Sg, kind: Live })\n\
avoid => Some(Avoid { workers: 4, graph: Auto, kept: false })\n\
avoid --graph wfg --workers 2 => Some(Avoid { workers: 2, graph: Wfg, kept: false })\n\
avoid --kept => Some(Avoid { workers: 4, graph: Auto, kept: true })\n\
avoid --graph wfg --kept --workers 2 => Some(Avoid { workers: 2, graph: Wfg, kept: true })\n\
record => Some(Record { workers: 4 })\n\
record --workers 2 => Some(Record { workers: 2 })\n\
replay => Some(Replay)\n\
run --sites 1 => Some(Run { workers: 4, graph: Auto, kind: Sites { sites: 1 } })\n\
run --sites 8 => Some(Run { workers: 4, graph: Auto, kind: Sites { sites: 8 } })\n\
run --sites 0000000000000003 --graph sg --workers 2 => Some(Run { workers: 2, graph: Sg, kind: Sites { sites: 3 } })\n\
pool => Some(Pool { workers: 4, graph: Auto })\n\
pool --workers 64 => Some(Pool { workers: 64, graph: Auto })\n\
pool --graph wfg --workers 2 => Some(Pool { workers: 2, graph: Wfg })\n\
clock => Some(Clock { workers: 4, graph: Auto, live: false })\n\
clock --live => Some(Clock { workers: 4, graph: Auto, live: true })\n\
clock --graph grg --live --workers 64 => Some(Clock { workers: 64, graph: Grg, live: true })\n\
clock --workers 2 --graph wfg => Some(Clock { workers: 2, graph: Wfg, live: false })\n\
";

#[test]
fn words_and_their_commands(rt: HostRuntime) -> Result<(), Fail> {
    let alloc = rt.alloc();
    for row in ROWS.lines() {
        let (words, wanted) = row.split_once("=> ").unwrap_or(("", ""));
        let words = words_of(alloc, words)?;
        let found = command_in(alloc, words.as_slice())?;
        let found = format!(in alloc; "{found:?}")?;
        assert!(rt; found.as_str() == wanted, "{row}");
    }
    Ok(())
}
