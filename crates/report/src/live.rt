// The lines of live verdicts.
ghost use Rattle.std.specs.Prelude.{◌≡◌, ◌++◌, IfOk, OnOk};
ghost use Rattle.report.specs.Live.{live_line, live_text};

use armus_base::{Dead, List, NoMemory};
use std::alloc::{AllocError, Global};

// Appends the line of one task.
fn put_live(alloc: Global, out: &mut Vec<u8>, dead: &Dead) -> Result<(), AllocError>
    ensures { OnOk result (out.new.items ≡ out.old.items ++ live_line dead.now) }
{
    let task = dead.t.0;
    let phaser = dead.event.p.0;
    let phase = dead.event.n;
    let line = format!(in alloc; "dead t{task} p{phaser}@{phase}\n")?;
    out.extend_from_slice(line.as_bytes())
}

/// One line for each task that is newly found dead, in the order given.
pub fn live_lines(alloc: Global, fresh: &[Dead]) -> Result<List<u8>, NoMemory>
    ensures { IfOk result (λ lines. lines ≡ live_text fresh.now) }
{
    let mut out = Vec::new(alloc);
    for dead in fresh {
        put_live(alloc, &mut out, dead)?;
    }
    Ok(List::from_vec(out))
}
