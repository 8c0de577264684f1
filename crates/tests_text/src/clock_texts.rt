// The tree of a text of the language of clocks.
use armus_base::NoMemory;
use clock_syntax::{ClockBody, ClockName, ClockProgram, ClockStmt, MAX_CLOCK_BYTES, clock_parse};
use std::alloc::{AllocError, Global};
use std::test::Fail;
use tests_rows::are_bytes_of;

// The statements of each body behind their number, those inside of others counted too; outer bodies stand first.
const TREE: &str = "6 clock c, finish; 4 loop 3, drop c; 2 async c d2; 1 advance c; ";

const TEXT: &str = "clock c; finish { loop 3 { async(c, d2) { advance(c); } } drop(c); }";

fn add_name(all: &mut Vec<u8>, word: &str, name: &ClockName) -> Result<(), AllocError> {
    all.extend_from_slice(word.as_bytes())?;
    all.extend_from_slice(name.as_bytes())
}

fn add_names(all: &mut Vec<u8>, names: &[ClockName]) -> Result<(), AllocError> {
    all.extend_from_slice(b"async")?;
    for name in names {
        add_name(all, " ", name)?;
    }
    Ok(())
}

fn add_number(alloc: Global, all: &mut Vec<u8>, word: &str, n: u32) -> Result<(), AllocError> {
    let text = format!(in alloc; "{word}{n}")?;
    all.extend_from_slice(text.as_bytes())
}

fn add_statement(alloc: Global, all: &mut Vec<u8>, stmt: &ClockStmt) -> Result<(), AllocError> {
    match stmt {
        ClockStmt::Clock { x } => add_name(all, "clock ", x),
        ClockStmt::Async { names, body: _ } => add_names(all, names.as_slice()),
        ClockStmt::Finish { body: _ } => all.extend_from_slice(b"finish"),
        ClockStmt::Advance { x } => add_name(all, "advance ", x),
        ClockStmt::Resume { x } => add_name(all, "resume ", x),
        ClockStmt::Drop { x } => add_name(all, "drop ", x),
        ClockStmt::Loop { k, body: _ } => add_number(alloc, all, "loop ", u32::from(*k)),
        ClockStmt::Skip => all.extend_from_slice(b"skip"),
    }
}

fn add_body(alloc: Global, all: &mut Vec<u8>, body: &ClockBody) -> Result<(), AllocError> {
    add_number(alloc, all, "", body.statements())?;
    let mut before = " ";
    for stmt in body.as_slice() {
        all.extend_from_slice(before.as_bytes())?;
        add_statement(alloc, all, stmt)?;
        before = ", ";
    }
    all.extend_from_slice(b"; ")
}

fn body_of(stmt: &ClockStmt) -> Option<&ClockBody> {
    match stmt {
        ClockStmt::Async { names: _, body } => Some(body),
        ClockStmt::Finish { body } => Some(body),
        ClockStmt::Loop { k: _, body } => Some(body),
        _ => None,
    }
}

// The bodies of a program, outer ones first, a hundred at most.
fn bodies(alloc: Global, program: &ClockProgram) -> Result<Vec<&ClockBody>, AllocError> {
    let mut all = Vec::new(alloc);
    all.push(&program.body)?;
    for at in 0..100 {
        if let Some(body) = all.get(at).copied() {
            for inner in body.as_slice().iter().filter_map(body_of) {
                all.push(inner)?;
            }
        }
    }
    Ok(all)
}

fn tree(alloc: Global, program: &ClockProgram) -> Result<Vec<u8>, AllocError> {
    let mut all = Vec::new(alloc);
    for body in bodies(alloc, program)? {
        add_body(alloc, &mut all, body)?;
    }
    Ok(all)
}

fn has_tree(alloc: Global, text: &str, wanted: &str) -> Result<bool, NoMemory> {
    if text.len() > MAX_CLOCK_BYTES {
        return Ok(false);
    }
    match clock_parse(alloc, text.as_bytes()) {
        Ok(program) => Ok(are_bytes_of(&tree(alloc, &program)?, wanted)),
        Err(_) => Ok(false),
    }
}

#[test]
fn the_tree_of_a_clock_text(rt: HostRuntime) -> Result<(), Fail> {
    assert!(rt; has_tree(rt.alloc(), TEXT, TREE)?);
    Ok(())
}
