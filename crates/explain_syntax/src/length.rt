// The line of a text that is too long.
ghost use Rattle.std.specs.Prelude.{◌≡◌, ◌++◌, IfOk, OnOk, option_map};
ghost use Rattle.explain_syntax.specs.LengthRefusals.{length_refusal, named_file};

use armus_base::{List, NoMemory};
use std::alloc::Global;

// The name of a file in front of a line, where there is a file.
fn put_file(out: &mut Vec<u8>, file: Option<&[u8]>) -> Result<(), NoMemory>
    ensures { OnOk result (out.new.items ≡ out.old.items ++ named_file (option_map (λ f. f.now) file.entry)) }
{
    if let Some(name) = file {
        out.extend_from_slice(name)?;
        out.extend_from_slice(b": ")?;
    }
    Ok(())
}

/// The line of an input, of a file or not, that has more than 1,048,576 bytes. The only error is want of memory.
pub fn length_refusal(alloc: Global, file: Option<&[u8]>) -> Result<List<u8>, NoMemory>
    ensures line { IfOk result (λ text. text ≡ length_refusal (option_map (λ f. f.now) file.entry)) }
{
    let mut out = Vec::new(alloc);
    put_file(&mut out, file)?;
    out.extend_from_slice(b"the text has more than 1048576 bytes (length)\n")?;
    Ok(List::from_vec(out))
}
