// Inputs of a replay, each with its text and its schedule. In a row ~ stands for LF.
use armus_base::NoMemory;
use schedule::split_input;
use std::alloc::Global;
use std::test::Fail;
use tests_rows::{are_bytes_of, bytes_of, columns};

const INPUTS: &str = "\
||\n\
%%~l~||l~\n\
skip;~%%~t 0~|skip;~|t 0~\n\
skip;~%%|skip;~|\n\
skip; %%~%%%~|skip; %%~%%%~|\n\
a~%%~b~%%~|a~|b~%%~\n\
";

fn is_split(alloc: Global, row: &str) -> Result<bool, NoMemory> {
    let (input, text, schedule) = columns(row, "|");
    let input = bytes_of(alloc, input)?;
    let found = split_input(input.as_slice());
    Ok(are_bytes_of(found.0, text) && are_bytes_of(found.1, schedule))
}

#[test]
fn inputs_are_split(rt: HostRuntime) -> Result<(), Fail> {
    for row in INPUTS.lines() {
        assert!(rt; is_split(rt.alloc(), row)?, "{row}");
    }
    Ok(())
}
