// What is written of an output, and of the name of a file.
ghost use Rattle.std.specs.Prelude.{◌≡◌, IfOk};
ghost use Rattle.explain.specs.calls.Requested.{file_bytes, told_file};
ghost use Rattle.explain.specs.inside.Ending.{IsWrittenOf};

use crate::answer::Answer;
use armus_base::{List, NoMemory};
use program_io::{legible, told_name};
use std::alloc::Global;

/// What is written of an output, and its status. The time is linear in its bytes; the only error is want of memory.
pub(crate) fn legible_answer(alloc: Global, answer: Answer) -> Result<Answer, NoMemory>
    ensures { IfOk result (IsWrittenOf answer) }
{
    let Answer { lines, status } = answer;
    Ok(Answer {
        lines: legible(alloc, lines.as_slice())?,
        status,
    })
}

/// The name of a file as it is told, if there is one.
pub(crate) fn told_file(alloc: Global, file: Option<&[u8]>) -> Result<Option<List<u8>>, NoMemory>
    ensures { IfOk result (λ told. told ≡ told_file file.entry) }
{
    match file {
        None => Ok(None),
        Some(name) => {
            let told = told_name(alloc, name)?;
            Ok(Some(told))
        }
    }
}

/// The bytes of such a name.
pub(crate) fn told_bytes(told: &Option<List<u8>>) -> Option<&[u8]>
    ensures { file_bytes result ≡ told.now }
{
    match told {
        None => None,
        Some(name) => Some(name.as_slice()),
    }
}
