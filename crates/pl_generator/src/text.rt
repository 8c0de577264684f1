// The text itself.
ghost use Rattle.std.specs.Prelude.{◌≡◌, ◌≤◌, IfOk, length};
ghost use Rattle.std.specs.List.{flat_map};
ghost use Rattle.pl_syntax.specs.Printed.{line};
ghost use Rattle.pl_generator.specs.Generated.{lines_after_loop, generated_text};

use armus_base::{List, NoMemory};
use std::alloc::Global;

/// The most bytes of a generated text.
pub const MAX_GENERATED_BYTES: usize = 223;

// The lines before the number of workers, and the first bytes of its line.
const MAKES_PHASERS: &[u8] = b"pc = newPhaser();
pb = newPhaser();
loop ";

// The rest of that line, and the lines up to the end of the loop.
const MAKES_WORKERS: &[u8] = b" {
  t = newTid();
  reg(t, pc);
  reg(t, pb);
  fork(t) {
    loop 8 {
      adv(pc);
      await(pc);
    }
    dereg(pc);
    dereg(pb);
  }
}
";

// What task 0 does behind the loop.
fn last_lines(n: u16) -> &'static [u8]
    ensures { result.now ≡ flat_map line (lines_after_loop n) }
{
    if n % 3 == 0 {
        b"adv(pb);\nawait(pb);\n"
    } else {
        b"dereg(pc);\nadv(pb);\nawait(pb);\n"
    }
}

/// The text of the averaging kernel with n workers and eight rounds. Behind the loop that makes the workers, task 0 leaves their barrier
/// exactly where n is not a multiple of 3.
///
/// Its only error is want of memory.
pub fn gen_text(alloc: Global, n: u16) -> Result<List<u8>, NoMemory>
    ensures text { IfOk result (λ out. out ≡ generated_text n) }
    ensures short { IfOk result (λ out. length out ≤ MAX_GENERATED_BYTES) }
{
    let number = format!(in alloc; "{n}")?;
    let mut out = Vec::with_capacity(alloc, MAX_GENERATED_BYTES)?;
    out.extend_from_slice(MAKES_PHASERS)?;
    out.extend_from_slice(number.as_bytes())?;
    out.extend_from_slice(MAKES_WORKERS)?;
    out.extend_from_slice(last_lines(n))?;
    Ok(List::from_vec(out))
}
