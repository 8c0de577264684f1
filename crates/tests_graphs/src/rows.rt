// Rows: a kind, statuses, what else is asked, and the answer.
use crate::answers::{choices, cycle, dead, graphs, picks, relations};
use armus_base::NoMemory;
use std::alloc::Global;
use std::test::Fail;
use tests_rows::{columns, cut, statuses};

const ROWS: &str = "\
relations | 0 2@1 2@1, 1 0@1 0@1 1@0 2@0, 2 1@1 0@0 1@1 | | 2@1 1 ; 0@1 2 ; 1@1 1 ; ; 0@1 2 ; 1@1 1 ; 2@1 1 ;\n\
relations | 1 0@1 0@1, 1 0@1 0@1 | | no order\n\
relations | 1 0@1 1@1 0@1 | | no order\n\
picks | | | 1 2\n\
dead | | | ;\n\
dead | 0 1@1 0@0 1@1, 1 0@1 0@1 1@0, 2 0@1 0@1 1@0, 3 0@1 0@1 1@0 | | 0 1 2 3 ; 0 1 2 3\n\
dead | 1 0@1 0@1 1@0 2@0, 2 1@1 0@0 1@1 2@0, 3 2@1 0@0 1@0 2@1 | | 1 2 3 ; 1 2 3\n\
dead | 0 2@1 2@1, 1 0@1 0@1 1@0 2@0, 2 1@1 0@0 1@1 | | 0 1 2 ; 0 1 2\n\
dead | 1 0@3 0@3, 2 0@2 0@2, 3 1@1 0@1 1@1 | | ;\n\
dead | 1 0@2 0@1, 2 0@2 0@2, 3 0@1 0@3 | | 1 2 ; 1 2\n\
graphs | 0 1@1 0@0 1@1, 1 0@1 0@1 1@0, 2 0@1 0@1 1@0, 3 0@1 0@1 1@0 | | wfg 6 0 1 2 3 sg 2 0 1 2 3 grg 8 0 1 2 3 2\n\
graphs | 1 0@1 0@1 1@0 2@0, 2 1@1 0@0 1@1 2@0, 3 2@1 0@0 1@0 2@1 | | wfg 6 1 2 3 sg 6 1 2 3 grg 9 1 2 3 6\n\
graphs | 0 2@1 2@1, 1 0@1 0@1 1@0 2@0, 2 1@1 0@0 1@1 | | wfg 3 0 1 2 sg 3 0 1 2 grg 6 0 1 2 3\n\
graphs | 1 0@2 0@1, 2 0@2 0@2 | | wfg 2 1 2 sg 1 1 2 grg 3 1 2 1\n\
graphs | 0 1@1 0@0 1@1, 1 0@3 0@1 1@0 | | wfg 3 0 1 sg 3 0 1 grg 5 0 1 3\n\
graphs | 1 0@1 0@1 1@0 2@0 3@0, 2 1@1 0@0 1@1 2@0 3@0, 3 2@1 0@0 1@0 2@1 3@0, 4 3@1 0@0 1@0 2@0 3@1 | | wfg 12 1 2 3 4 sg 12 1 2 3 4 grg 16 1 2 3 4 left 4 12\n\
choices | 0 1@1 0@0 1@1, 1 0@1 0@1 1@0, 2 0@1 0@1 1@0, 3 0@1 0@1 1@0 | | sg 2 0 1 2 3 ; wfg 6 0 1 2 3 ; sg 2 0 1 2 3 ; grg 8 0 1 2 3 ;\n\
choices | 1 0@1 0@1 1@0 2@0 3@0, 2 1@1 0@0 1@1 2@0 3@0, 3 2@1 0@0 1@0 2@1 3@0, 4 3@1 0@0 1@0 2@0 3@1 | | wfg 12 1 2 3 4 ; wfg 12 1 2 3 4 ; sg 12 1 2 3 4 ; grg 16 1 2 3 4 ;\n\
choices | 1 0@1 0@1 1@0 2@0, 2 1@1 0@0 1@1 2@0, 3 2@1 0@0 1@0 2@1 | | sg 6 1 2 3 ; wfg 6 1 2 3 ; sg 6 1 2 3 ; grg 9 1 2 3 ;\n\
choices | 0 2@1 2@1, 1 0@1 0@1 1@0 2@0, 2 1@1 0@0 1@1 | | sg 3 0 1 2 ; wfg 3 0 1 2 ; sg 3 0 1 2 ; grg 6 0 1 2 ;\n\
choices | 0 1@1 0@0 1@1, 1 0@3 0@1 1@0 | | sg 3 0 1 ; wfg 3 0 1 ; sg 3 0 1 ; grg 5 0 1 ;\n\
cycle | 0 1@1 0@0 1@1, 1 0@1 0@1 1@0, 2 0@1 0@1 1@0, 3 0@1 0@1 1@0 | 0 1@1, 1 0@1 | yes\n\
cycle | 0 1@1 0@0 1@1, 1 0@1 0@1 1@0, 2 0@1 0@1 1@0, 3 0@1 0@1 1@0 | 3 0@1, 0 1@1 | yes\n\
cycle | 0 1@1 0@0 1@1, 1 0@1 0@1 1@0, 2 0@1 0@1 1@0, 3 0@1 0@1 1@0 | 0 0@1, 1 0@1 | no\n\
cycle | 0 1@1 0@0 1@1, 1 0@1 0@1 1@0, 2 0@1 0@1 1@0, 3 0@1 0@1 1@0 | 1 0@1, 2 0@1 | no\n\
cycle | 0 1@1 0@0 1@1, 1 0@1 0@1 1@0, 2 0@1 0@1 1@0, 3 0@1 0@1 1@0 | 0 1@1, 0 1@1 | no\n\
cycle | 0 2@1 2@1, 1 0@1 0@1 1@0 2@0, 2 1@1 0@0 1@1 | 1 0@1, 2 1@1 | yes\n\
cycle | 0 2@1 2@1, 1 0@1 0@1 1@0 2@0, 2 1@1 0@0 1@1 | 0 2@1, 1 0@1, 2 1@1 | no\n\
cycle | 0 2@1 2@1, 1 0@1 0@1 1@0 2@0, 2 1@1 0@0 1@1 | | no\n\
cycle | 1 0@2 0@1, 2 0@2 0@2 | 1 0@2 | yes\n\
cycle | 1 0@2 0@1, 2 0@2 0@2 | 2 0@2 | no\n\
";

fn answer(alloc: Global, kind: &str, text: &str, more: &str) -> Result<String, NoMemory> {
    let list = statuses(alloc, text)?;
    let list = list.as_slice();
    match kind.trim() {
        "relations" => relations(alloc, list),
        "picks" => picks(alloc),
        "dead" => dead(alloc, list),
        "graphs" => graphs(alloc, list),
        "choices" => choices(alloc, list),
        _ => cycle(alloc, list, more),
    }
}

fn found(alloc: Global, row: &str) -> Result<bool, NoMemory> {
    let (kind, text, rest) = columns(row, "|");
    let (more, wanted) = cut(rest, "|");
    let answer = answer(alloc, kind, text, more)?;
    Ok(answer.as_str().trim() == wanted.trim())
}

#[test]
fn rows_of_statuses(rt: HostRuntime) -> Result<(), Fail> {
    for row in ROWS.lines() {
        assert!(rt; found(rt.alloc(), row)?, "{row}");
    }
    Ok(())
}
